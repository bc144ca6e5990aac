// What is told of runs to places.
ghost use Rattle.std.specs.Prelude.{◌≡◌, ◌++◌, All, OnOk, IfOk, string_bytes};
ghost use Rattle.rail_model.specs.Journal.{lines_text};
ghost use Rattle.move_journal.specs.Printable.{IsNamed};
ghost use Rattle.run_sentences.specs.Told.{AreNamed, HasNamedLines, HasNames, TellsRun, apart_words, known_words, lines_words, run_words};

use crate::known::{Known, known_of};
use document_json::{Doc, names_of};
use move_journal::push_line;
use order_sections::Two;
use rail_model::{Line, Names, State};
use run_search::RunTo;
use std::alloc::{AllocError, Global};

// Adds the lines of a run, each with its number.
fn push_lines(out: &mut String, names: &Names, lines: &[Line]) -> Result<(), AllocError>
    requires { All (IsNamed names.now) lines.now }
    ensures { OnOk result (string_bytes out.new ≡ string_bytes out.old ++ lines_text names.now 1 lines.now) }
{
    for (index, line) in lines.iter().enumerate() {
        push_line(out, names, index as u64 + 1, line)?;
    }
    Ok(())
}

// Adds a run: its lines, or that it needs none.
fn push_run(out: &mut String, names: &Names, lines: &[Line]) -> Result<(), AllocError>
    requires { All (IsNamed names.now) lines.now }
    ensures { OnOk result (string_bytes out.new ≡ string_bytes out.old ++ lines_words names.now lines.now) }
{
    if lines.is_empty() {
        return out.push_str("The trains are there at the start: no move is needed.\n");
    }
    out.push_str("A run from the start leads there:\n")?;
    push_lines(out, names, lines)
}

// Adds what is known of runs.
fn push_told(out: &mut String, names: &Names, told: &RunTo) -> Result<(), AllocError>
    requires { HasNamedLines names.now told.now }
    ensures { OnOk result (string_bytes out.new ≡ string_bytes out.old ++ run_words names.now told.now) }
{
    match told {
        RunTo::Run(lines) => push_run(out, names, lines),
        RunTo::NoRun => out.push_str("No run from the start leads there.\n"),
        RunTo::Unknown { states } => write!(
            out,
            "{states} states were searched, and neither a run from the start that leads there was found, nor that there is none.\n"
        ),
    }
}

// Adds that two trains keep all runs from the places.
fn push_apart(out: &mut String, names: &Names, two: Two) -> Result<(), AllocError>
    requires { AreNamed names.now two }
    ensures { OnOk result (string_bytes out.new ≡ string_bytes out.old ++ apart_words names.now two) }
{
    let (first, second) = (names.train(two.first), names.train(two.second));
    write!(
        out,
        "No run from the start leads there, since {first} and {second} are never both at these places.\n"
    )
}

// Adds what is known.
fn push_known(out: &mut String, names: &Names, known: &Known) -> Result<(), AllocError>
    requires { HasNames names.now known.now }
    ensures { OnOk result (string_bytes out.new ≡ string_bytes out.old ++ known_words names.now known.now) }
{
    match known {
        Known::Searched(told) => push_told(out, names, told),
        Known::Apart(two) => push_apart(out, names, *two),
    }
}

/// What is known of runs from the start of a document to these places under one of its tables: the lines of one, as in a
/// journal, or a line that says that there is none, also since two trains are never both there, or that neither was found.
/// More than `limit` states aren't searched.
pub fn runs_told(
    alloc: Global,
    doc: &Doc,
    table: u32,
    at: &State,
    limit: usize,
) -> Result<String, AllocError>
    ensures { IfOk result (λ text. TellsRun doc.now table at.now (string_bytes text)) }
{
    let known = known_of(alloc, doc, table, at, limit)?;
    let mut text = String::new(alloc);
    push_known(&mut text, names_of(doc), &known)?;
    Ok(text)
}
