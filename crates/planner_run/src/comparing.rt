// Runs that are compared.
ghost use Rattle.std.specs.Prelude.{IfOk};
ghost use Rattle.planner_run.specs.Answered.{IfText};
ghost use Rattle.planner_run.specs.Comparing.{IsBeside, IsCompared, IsComparison, IsComparisonWith, IsTable};

use crate::Answer;
use crate::running::{Found, run_in};
use cert_search::Watcher;
use document_json::{Doc, layout_of, names_of};
use plan_input::{Standing, document_for};
use run_comparison::{Side, columns, csv};
use run_timetable::Run;
use std::alloc::{AllocError, Global};

/// The table of a run compared with that of another input.
pub(crate) fn compare_with<W: Watcher>(
    alloc: Global,
    input: &[u8],
    other: &[u8],
    is_csv: bool,
    watcher: &W,
) -> Result<Answer, AllocError>
    ensures { IfOk result (IfText (IsComparisonWith input.now other.now is_csv)) }
{
    match document_for(alloc, other, None)? {
        Standing::Itself => compare(alloc, input, other, None, is_csv, watcher),
        Standing::Named { .. } => compare(alloc, input, other, None, is_csv, watcher),
        Standing::Plan { text, .. } => compare(alloc, input, &text, None, is_csv, watcher),
        Standing::Wrong(lines) => Ok(Answer::Wrong(of_other(alloc, lines.as_str())?)),
    }
}

// What is wrong with the other input.
fn of_other(alloc: Global, lines: &str) -> Result<String, AllocError> {
    format!(in alloc; "the other run: {lines}")
}

/// The table of a run compared with that of another document, and with a delay if words name one.
pub(crate) fn compare<W: Watcher>(
    alloc: Global,
    input: &[u8],
    other: &[u8],
    delay: Option<&str>,
    is_csv: bool,
    watcher: &W,
) -> Result<Answer, AllocError>
    ensures { IfOk result (IfText (IsComparison input.now other.now delay.entry is_csv)) }
{
    match run_in(alloc, input, None, watcher)? {
        Found::Run { doc, run } => compare_run(alloc, &doc, &run, other, delay, is_csv, watcher),
        Found::None(lines) => Ok(Answer::Wrong(lines)),
    }
}

// The table of a run compared with that of another document.
fn compare_run<W: Watcher>(
    alloc: Global,
    doc: &Doc,
    run: &Run,
    other: &[u8],
    delay: Option<&str>,
    is_csv: bool,
    watcher: &W,
) -> Result<Answer, AllocError>
    ensures { IfOk result (IfText (IsBeside doc.now run.now other.now delay.entry is_csv)) }
{
    match run_in(alloc, other, delay, watcher)? {
        Found::Run {
            doc: other_doc,
            run: other_run,
        } => table_of(alloc, doc, run, &other_doc, &other_run, is_csv),
        Found::None(lines) => match delay {
            Some(_) => Ok(Answer::Wrong(lines)),
            None => Ok(Answer::Wrong(of_other(alloc, lines.as_str())?)),
        },
    }
}

// The table of two runs.
fn table_of<'a>(
    alloc: Global,
    doc: &'a Doc,
    run: &'a Run,
    other_doc: &'a Doc,
    other_run: &'a Run,
    is_csv: bool,
) -> Result<Answer, AllocError>
    ensures { IfOk result (IfText (IsCompared doc.now run.now other_doc.now other_run.now is_csv)) }
{
    let first = Side {
        layout: layout_of(doc),
        names: names_of(doc),
        run,
    };
    let second = Side {
        layout: layout_of(other_doc),
        names: names_of(other_doc),
        run: other_run,
    };
    Ok(Answer::Text(text_of(alloc, first, second, is_csv)?))
}

// The table of two runs as text.
fn text_of(
    alloc: Global,
    first: Side<'_>,
    second: Side<'_>,
    is_csv: bool,
) -> Result<Vec<u8>, AllocError>
    ensures { IfOk result (λ text. IsTable first.entry second.entry is_csv text.items) }
{
    if is_csv {
        Ok(csv(alloc, first, second)?.into_bytes())
    } else {
        Ok(columns(alloc, first, second)?.into_bytes())
    }
}
