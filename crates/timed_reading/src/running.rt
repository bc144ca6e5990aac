// The run that timed lines tell.
ghost use Rattle.std.specs.Prelude.{◌≡◌, ◌++◌, ◌<◌, IsTrue, OnOk, IfOk, flat_map, slice_index};
ghost use Rattle.rail_model.specs.Journal.{after_line};
ghost use Rattle.rail_model.specs.Table.{point, trains};
ghost use Rattle.rail_model.specs.Times.{time};
ghost use Rattle.rail_model.specs.Yard.{moved, opening};
ghost use Rattle.document_json.specs.Doc.{table_at, times_of as doc_times};
ghost use Rattle.timed_reading.specs.Runs as spec;
ghost use Rattle.timed_reading.specs.Runs.{starts_in, step_list, steps_of, takeover_list};

use crate::faults::{Fault, LineFault};
use crate::ticks::Timed;
use document_json::{Doc, start_of, table_of, tables_of, times_of};
use rail_model::{Line, Standing, Table, Times, last_of, point_of, trains_of};
use run_timetable::{Step, Takeover};
use std::alloc::{AllocError, Global};

// More than any count of a run.
const MOST: u32 = 1_000_000_000;

/// The point at which each train of a document begins.
pub(crate) fn starts_of(alloc: Global, doc: &Doc) -> Result<Vec<Option<u32>>, AllocError>
    ensures { IfOk result (λ starts. starts.items ≡ starts_in doc.now) }
{
    let places = start_of(doc).as_slice();
    let table = table_of(doc, 0);
    let mut starts = Vec::new(alloc);
    for train in 0..trains_of(table) {
        starts.push(start_point(table, places, train))?;
    }
    Ok(starts)
}

// The point at which a train begins.
fn start_point(table: &Table, places: &[u32], train: u32) -> Option<u32>
    requires { train < trains table.now }
    ensures { result ≡ point table.now train (slice_index places.now train) }
{
    let place = places.get(train as usize).copied().unwrap_or(0);
    point_of(table, train, place)
}

/// The tables that took over, with their ticks.
pub(crate) fn takeovers_of(alloc: Global, lines: &[Timed]) -> Result<Vec<Takeover>, AllocError>
    ensures { IfOk result (λ made. made.items ≡ flat_map takeover_list lines.now) }
{
    let mut made = Vec::new(alloc);
    for timed in lines {
        push_takeover(&mut made, timed)?;
    }
    Ok(made)
}

// Adds the table that took over by a line, if one did.
fn push_takeover(made: &mut Vec<Takeover>, timed: &Timed) -> Result<(), AllocError>
    ensures { OnOk result (made.new.items ≡ made.old.items ++ takeover_list timed.now) }
{
    if let Line::Table { table } = timed.line {
        made.push(Takeover {
            tick: timed.tick,
            table,
        })?;
    }
    Ok(())
}

/// The steps of the trains, each with the time that it takes, or the first line that doesn't fit the document.
pub(crate) fn steps_in(alloc: Global, doc: &Doc, lines: &[Timed]) -> Result<Vec<Step>, Fault>
    ensures { IfOk result (λ made. made.items ≡ steps_of (doc_times doc.now) (opening doc.now.start) lines.now) }
{
    let mut yard = Standing::new(start_of(doc).copy(alloc)?, 0, 0, 0);
    let mut made = Vec::new(alloc);
    let mut number: u64 = 0;
    for timed in lines {
        number = number.saturating_add(1);
        take_line(&mut made, doc, &mut yard, number, timed)?;
    }
    Ok(made)
}

// Adds the step of a line with this number, and goes on to the state after it.
fn take_line(
    made: &mut Vec<Step>,
    doc: &Doc,
    yard: &mut Standing,
    number: u64,
    timed: &Timed,
) -> Result<(), Fault>
    ensures made { OnOk result (made.new.items ≡ made.old.items ++ step_list (doc_times doc.now) yard.old timed.now) }
    ensures yard { OnOk result (yard.new ≡ after_line yard.old timed.now.line) }
{
    if let Err(fault) = check_line(doc, yard, &timed.line) {
        return Err(Fault::Line {
            line: number,
            fault,
        });
    }
    push_step(made, times_of(doc), yard, timed)?;
    if go_on(yard, &timed.line) {
        Ok(())
    } else {
        Err(Fault::Memory)
    }
}

// Adds the step of a line, if it is a move.
fn push_step(
    made: &mut Vec<Step>,
    times: &Times,
    yard: &Standing,
    timed: &Timed,
) -> Result<(), AllocError>
    ensures { OnOk result (made.new.items ≡ made.old.items ++ step_list times.now yard.now timed.now) }
{
    if let Line::Move { train, from, to } = timed.line {
        made.push(Step {
            tick: timed.tick,
            train,
            from,
            to,
            takes: time_of(times, yard.table(), train, place_of(yard, train)),
        })?;
    }
    Ok(())
}

// The place of a train, or 0 if there is no such train.
fn place_of(yard: &Standing, train: u32) -> u32
    ensures { result ≡ slice_index yard.now.positions train }
{
    yard.positions()
        .as_slice()
        .get(train as usize)
        .copied()
        .unwrap_or(0)
}

// How long a step takes, or 1 if there is no such step.
fn time_of(times: &Times, table: u32, train: u32, place: u32) -> u32
    ensures { result ≡ time times.now table train place }
{
    let Some(table) = times.as_slice().get(table as usize) else {
        return 1;
    };
    let Some(train) = table.as_slice().get(train as usize) else {
        return 1;
    };
    train.as_slice().get(place as usize).copied().unwrap_or(1)
}

// Goes on to the state after a line. That fails only where a count would be far above what a run has.
fn go_on(yard: &mut Standing, line: &Line) -> bool
    ensures { IsTrue result → yard.new ≡ after_line yard.old line.now }
{
    match *line {
        Line::Move { train, .. } => advance(yard, train),
        Line::Table { .. } => {
            let fits = yard.tried() < MOST;
            if fits {
                yard.exchange();
            }
            fits
        }
        _ => {
            let fits = yard.tried() < MOST;
            if fits {
                yard.keep_out();
            }
            fits
        }
    }
}

// Moves a train by one place.
fn advance(yard: &mut Standing, train: u32) -> bool
    ensures { IsTrue result → yard.new ≡ moved yard.old train }
{
    if (train as usize) >= yard.positions().len() || yard.moves() >= MOST {
        return false;
    }
    if yard.positions().place(train) >= MOST {
        return false;
    }
    yard.advance(train);
    true
}

// Looks whether a line fits the document in a state.
fn check_line(doc: &Doc, yard: &Standing, line: &Line) -> Result<(), LineFault> {
    match *line {
        Line::Move { train, from, to } => check_move(doc, yard, train, from, to),
        Line::Table { table } => check_table(doc, yard, table),
        Line::KeptDiffers { table, .. } => check_table(doc, yard, table),
        Line::KeptOver { table, .. } => check_table(doc, yard, table),
    }
}

// Looks whether a train is at a point, and goes to the other one next.
fn check_move(
    doc: &Doc,
    yard: &Standing,
    train: u32,
    from: u32,
    to: Option<u32>,
) -> Result<(), LineFault> {
    let table = yard.table();
    if table >= tables_of(doc) {
        return Err(LineFault::NoTable { table });
    }
    let table = table_of(doc, table);
    let place = place_of(yard, train);
    if train >= trains_of(table) || place >= last_of(table, train) {
        return Err(LineFault::AtEnd { train });
    }
    let next = point_of(table, train, place + 1);
    match point_of(table, train, place) {
        Some(at) if at == from && next == to => Ok(()),
        Some(at) => Err(LineFault::Elsewhere { train, at, next }),
        None => Err(LineFault::AtEnd { train }),
    }
}

// Looks whether a table is the next one.
fn check_table(doc: &Doc, yard: &Standing, table: u32) -> Result<(), LineFault> {
    let next = yard.tried().saturating_add(1);
    if table >= tables_of(doc) {
        Err(LineFault::NoTable { table })
    } else if table != next {
        Err(LineFault::Table { table, next })
    } else {
        Ok(())
    }
}
