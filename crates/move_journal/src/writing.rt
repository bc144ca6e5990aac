// The text of a journal.
ghost use Rattle.std.specs.Prelude.{◌≡◌, ◌++◌, ◌^◌, ◌<◌, ℕ, codes, decimal, length, All, IfOk, OnOk, string_bytes};
ghost use Rattle.rail_model.specs.Journal.{words, end_text};
ghost use Rattle.rail_model.specs.declared.types.Line.TheVariants.{Move as MoveLine};
ghost use Rattle.rail_model.specs.Names.{target_name};
ghost use Rattle.move_journal.specs.Printable.{IsNamed, IsNamedTarget, IsPrintable};
ghost use Rattle.move_journal.specs.Answers.{IsTextOf};

use crate::Journal;
use rail_model::{Line, Names};
use std::alloc::{AllocError, Global};

/// The text of a journal: its lines with their numbers, and the end line. It is such that `read` gives the
/// journal back.
pub fn text(alloc: Global, names: &Names, journal: &Journal) -> Result<Vec<u8>, AllocError>
    requires few { length journal.now.lines < 2 ^ 32 }
    requires named { All (IsNamed names.now) journal.now.lines }
    ensures { IfOk result (λ bytes. IsTextOf names.now bytes.items journal.now) }
{
    let mut out = String::new(alloc);
    let lines = journal.lines();
    for (index, line) in lines.iter().enumerate() {
        push_line(&mut out, names, index as u64 + 1, line)?;
    }
    push_end(&mut out, journal.moves(), journal.tables())?;
    Ok(out.into_bytes())
}

/// Adds a number and a line: its own in a journal, or its tick where a run is timed.
pub fn push_line(
    out: &mut String,
    names: &Names,
    number: u64,
    line: &Line,
) -> Result<(), AllocError>
    requires { IsNamed names.now line.now }
    ensures text { OnOk result (string_bytes out.new ≡ string_bytes out.old ++ (decimal number ++ words names.now line.now ++ codes "\n")) }
    ensures printable { IsPrintable names.now line.now }
{
    match *line {
        Line::Move { train, from, to } => push_move(out, names, number, train, from, to),
        Line::Table { table } => write!(out, "{number} table {table}\n"),
        Line::KeptDiffers {
            table,
            train,
            place,
        } => {
            let train = names.train(train);
            write!(out, "{number} kept {table} differs {train} {place}\n")
        }
        Line::KeptOver {
            table,
            section,
            count,
        } => write!(out, "{number} kept {table} over {section} {count}\n"),
    }
}

// Adds the line of a move.
fn push_move(
    out: &mut String,
    names: &Names,
    number: u64,
    train: u32,
    from: u32,
    to: Option<u32>,
) -> Result<(), AllocError>
    requires { IsNamed names.now (MoveLine train from to) }
    ensures { OnOk result (string_bytes out.new
        ≡ string_bytes out.old ++ (decimal number ++ words names.now (MoveLine train from to) ++ codes "\n")) }
{
    let train = names.train(train);
    let from = names.point(from);
    write!(out, "{number} move {train} {from} ")?;
    push_target(out, names, to)?;
    out.push_str("\n")
}

// Adds where a move leads.
fn push_target(out: &mut String, names: &Names, to: Option<u32>) -> Result<(), AllocError>
    requires { IsNamedTarget names.now to }
    ensures { OnOk result (string_bytes out.new ≡ string_bytes out.old ++ target_name names.now to) }
{
    match to {
        Some(point) => out.push_str(names.point(point)),
        None => out.push_str("-"),
    }
}

// Adds the end line.
fn push_end(out: &mut String, moves: u32, tables: u32) -> Result<(), AllocError>
    ensures text { OnOk result (string_bytes out.new ≡ string_bytes out.old ++ end_text moves tables) }
    ensures small { (moves < 2 ^ 32) × (tables < 2 ^ 32) }
{
    write!(out, "end moves={moves} tables={tables}\n")
}
