// What is wrong with an input, and how it is said.
use document_json::DocRefused;
use rail_model::{Layout, Names};
use refusal_lines::push_document;
use run_timetable::{point_name, train_name};
use std::alloc::{AllocError, AllocFailed, Global};

/// Why a journal is no timed run of a document.
#[derive(Clone, Copy)]
pub(crate) enum Fault {
    Memory,
    /// The last line doesn't end.
    CutOff,
    /// There is no end line.
    NoEnd,
    /// There are lines after the end line.
    AfterEnd,
    /// A line, counted from 1, that is none of a timed run of the document.
    Line { line: u64, fault: LineFault },
    /// Another number of lines of moves than the end line says.
    Moves { said: u32, moves: u64 },
    /// Another number of tables that took over than the end line says.
    Tables { said: u32, tables: u64 },
}

/// What is wrong with a line.
#[derive(Clone, Copy)]
pub(crate) enum LineFault {
    /// It doesn't begin with a tick.
    NoTick,
    /// Its tick is below the one before it.
    Falls {
        tick: u32,
        before: u32,
    },
    /// It is an end line without the tick of the last move.
    NoLast,
    /// It is an end line with another tick than that of the last move.
    Last {
        last: u32,
        tick: u32,
    },
    /// It isn't a line of a journal of the document.
    Unread,
    /// It moves a train that is at the end of its way.
    AtEnd {
        train: u32,
    },
    /// It moves a train between other points than the train's own and its next one.
    Elsewhere {
        train: u32,
        at: u32,
        next: Option<u32>,
    },
    /// It isn't of the next table.
    Table {
        table: u32,
        next: u32,
    },
    /// It is of a table that the document doesn't have.
    NoTable {
        table: u32,
    },
}

impl From<AllocError> for Fault {
    fn from(_error: AllocError) -> Fault {
        Fault::Memory
    }
}

impl<T: Drop> From<AllocFailed<T>> for Fault {
    fn from(_error: AllocFailed<T>) -> Fault {
        Fault::Memory
    }
}

/// Why an input has no journal.
pub(crate) fn no_journal(alloc: Global) -> Result<String, AllocError> {
    String::from_str(
        alloc,
        "there is no line `journal` between a document and what `ats sim` wrote; the document has to end with a newline before that line",
    )
}

/// Why a document is refused, in the words of `ats`.
pub(crate) fn refused(alloc: Global, cause: &DocRefused) -> Result<String, AllocError> {
    let mut out = String::from_str(alloc, "the document is refused: ")?;
    push_document(&mut out, cause)?;
    Ok(out)
}

/// What is wrong with a journal.
pub(crate) fn told(
    alloc: Global,
    layout: &Layout,
    names: &Names,
    fault: Fault,
) -> Result<String, AllocError> {
    let mut out = String::new(alloc);
    write_fault(&mut out, layout, names, fault)?;
    Ok(out)
}

fn write_fault(
    out: &mut String,
    layout: &Layout,
    names: &Names,
    fault: Fault,
) -> Result<(), AllocError> {
    match fault {
        Fault::Memory => Err(AllocError),
        Fault::CutOff => out.push_str("the last line of the journal doesn't end with a newline"),
        Fault::NoEnd => out.push_str("the journal has no end line"),
        Fault::AfterEnd => out.push_str("there are lines after the end line of the journal"),
        Fault::Line { line, fault } => {
            write!(out, "line {line} of the journal: ")?;
            write_line_fault(out, layout, names, fault)
        }
        Fault::Moves { said, moves } => write!(
            out,
            "the end line says moves={said}, but the journal has {moves}"
        ),
        Fault::Tables { said, tables } => write!(
            out,
            "the end line says tables={said}, but the journal has {tables}"
        ),
    }
}

fn write_line_fault(
    out: &mut String,
    layout: &Layout,
    names: &Names,
    fault: LineFault,
) -> Result<(), AllocError> {
    match fault {
        LineFault::NoTick => out.push_str("it doesn't begin with a tick, and isn't the end line"),
        LineFault::Falls { tick, before } => write!(out, "tick {tick} comes after tick {before}"),
        LineFault::NoLast => out.push_str(
            "there is no `last=` with a tick at its end; a journal of `ats run` has no ticks, so give what `ats sim` wrote",
        ),
        LineFault::Last { last, tick } => write!(
            out,
            "last={last}, but the last move is at tick {tick}"
        ),
        LineFault::Unread => out.push_str(
            "it isn't a line of a journal, or the document has no train or point with its names",
        ),
        LineFault::AtEnd { train } => {
            out.push_str(train_name(names, train))?;
            out.push_str(" is at the end of its way")
        }
        LineFault::Elsewhere { train, at, next } => {
            out.push_str(train_name(names, train))?;
            write_place(out, layout, at, next)
        }
        LineFault::Table { table, next } => write!(
            out,
            "table {table} isn't the next table, which is {next}"
        ),
        LineFault::NoTable { table } => write!(out, "the document has no table {table}"),
    }
}

// Adds where a train is, and where it goes next.
fn write_place(
    out: &mut String,
    layout: &Layout,
    at: u32,
    next: Option<u32>,
) -> Result<(), AllocError> {
    out.push_str(" is at ")?;
    out.push_str(point_name(layout, at))?;
    match next {
        Some(next) => {
            let next = point_name(layout, next);
            write!(out, ", and goes to {next} next")
        }
        None => out.push_str(", and leaves the layout next"),
    }
}
