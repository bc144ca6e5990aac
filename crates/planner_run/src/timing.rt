// Timetables and graphs of timed runs.
ghost use Rattle.std.specs.Prelude.{◌≡◌, IfOk};
ghost use Rattle.timed_reading.specs.Runs.{IsToldRun};
ghost use Rattle.planner_run.specs.Answered.{IfText, IsGraphText, IsTimetableOf, IsTimetableText};
ghost use Rattle.planner_run.specs.Drawn.{IsGraphOf, IsGraphWithWaits};

use crate::Answer;
use crate::running::{Found, run_in};
use cert_search::Watcher;
use document_json::{Doc, layout_of, names_of};
use rail_model::Names;
use run_timetable::{Run, columns, csv};
use std::alloc::{AllocError, Global};
use svg_text::text;
use train_graph::{Wish, train_graph};
use wait_causes::{Wait, waits};

/// The timetable of a timed run.
pub(crate) fn timetable<W: Watcher>(
    alloc: Global,
    input: &[u8],
    delay: Option<&str>,
    is_csv: bool,
    watcher: &W,
) -> Result<Answer, AllocError>
    ensures { IfOk result (IfText (IsTimetableText input.now delay.entry is_csv)) }
{
    match run_in(alloc, input, delay, watcher)? {
        Found::Run { doc, run } => timetable_of(alloc, &doc, &run, is_csv),
        Found::None(lines) => Ok(Answer::Wrong(lines)),
    }
}

// The timetable of a run of a document.
fn timetable_of(alloc: Global, doc: &Doc, run: &Run, is_csv: bool) -> Result<Answer, AllocError>
    ensures { IfOk result (IfText (IsTimetableOf doc.now run.now is_csv)) }
{
    if is_csv {
        let table = csv(alloc, layout_of(doc), names_of(doc), run)?;
        Ok(Answer::Text(table.into_bytes()))
    } else {
        let table = columns(alloc, layout_of(doc), names_of(doc), run)?;
        Ok(Answer::Text(table.into_bytes()))
    }
}

/// What a graph is asked for: the names of the sections of each table, the train along whose route it is, if one is named, and whether it
/// has bars where points are taken.
#[derive(Clone, Copy)]
pub(crate) struct GraphAsked<'a> {
    pub(crate) names: &'a [Vec<String>],
    pub(crate) train: Option<&'a str>,
    pub(crate) blocks: bool,
}

/// The graph of a timed run.
pub(crate) fn graph<W: Watcher>(
    alloc: Global,
    input: &[u8],
    delay: Option<&str>,
    asked: GraphAsked<'_>,
    watcher: &W,
) -> Result<Answer, AllocError>
    ensures { IfOk result (IfText (IsGraphText input.now asked.entry.names.now delay.entry asked.entry.blocks)) }
{
    match run_in(alloc, input, delay, watcher)? {
        Found::Run { doc, run } => graph_of(alloc, &doc, &run, asked),
        Found::None(lines) => Ok(Answer::Wrong(lines)),
    }
}

// The graph of a run of a document.
fn graph_of(
    alloc: Global,
    doc: &Doc,
    run: &Run,
    asked: GraphAsked<'_>,
) -> Result<Answer, AllocError>
    requires { IsToldRun doc.now run.now }
    ensures { IfOk result (IfText (IsGraphWithWaits doc.now asked.entry.names.now run.now asked.entry.blocks)) }
{
    let chosen = match asked.train {
        Some(name) => match numbered(names_of(doc), name) {
            Some(train) => Some(train),
            None => return unknown(alloc, name),
        },
        None => None,
    };
    let waits = waits(alloc, doc, run, asked.names)?;
    let wish = Wish {
        chosen,
        waits: &waits,
        blocks: asked.blocks,
    };
    Ok(Answer::Text(graph_text(alloc, doc, run, wish)?))
}

/// The graph of a run of a document.
pub(crate) fn graph_text(
    alloc: Global,
    doc: &Doc,
    run: &Run,
    wish: Wish<'_>,
) -> Result<Vec<u8>, AllocError>
    ensures { IfOk result (λ text. IsGraphOf doc.now run.now wish.entry.waits.now wish.entry.blocks text.items) }
{
    let picture = train_graph(alloc, layout_of(doc), names_of(doc), run, wish)?;
    text(alloc, &picture)
}

// The number of the train of this name, if there is one.
fn numbered(names: &Names, name: &str) -> Option<u32> {
    (0..names.trains() as u32).find(|train| names.train(*train) == name)
}

fn unknown(alloc: Global, name: &str) -> Result<Answer, AllocError>
    ensures { IfOk result (IfText (λ text. ⊥)) }
{
    Ok(Answer::Wrong(format!(in alloc; "there is no train {name:?}\n")?))
}
