// Inputs read.
ghost use Rattle.std.specs.Prelude.{◌≡◌, IfOk, Ok, map};
ghost use Rattle.move_journal.specs.Printable.{ArePrintable};
ghost use Rattle.document_json.specs.Doc.{names_of as doc_names};
ghost use Rattle.timed_reading.specs.Reads.{IsReadFrom, IsTimedRun, ToldBy};
ghost use Rattle.timed_reading.specs.Runs.{IsToldIn, TellsRun};
ghost use Rattle.timed_reading.specs.Told.{line_of};

use crate::faults::{Fault, no_journal, refused, told};
use crate::parts::cut;
use crate::running::{starts_of, steps_in, takeovers_of};
use crate::ticks::{Timed as TimedLine, timed_lines};
use document_json::{Doc, DocRefused, document, layout_of, names_of};
use run_timetable::Run;
use std::alloc::{AllocError, Global};

/// What an input is.
#[derive(Drop)]
pub enum Timed {
    /// A document, and a timed run of it.
    Run { doc: Doc, run: Run },
    /// Neither, for this reason.
    Fault(String),
}

/// The document of an input, and the run that its journal gives: the input is a document, a line `journal`, and what
/// `ats sim` wrote. A line that doesn't fit the document is refused: another point, a train that is at the end of its
/// way, a table that isn't the next one, a tick that falls. Whether a move may be made isn't tested, as `ats verify`
/// does.
pub fn timed_run(alloc: Global, input: &[u8]) -> Result<Timed, AllocError>
    ensures run { IfOk result IsTimedRun }
    // The input is the text of the document and of the run's lines, with their ticks.
    ensures exact { IfOk result (IsReadFrom input.now) }
{
    let Some((given, journal)) = cut(input) else {
        return Ok(Timed::Fault(no_journal(alloc)?));
    };
    match document(alloc, given) {
        Ok(doc) => timed_document(alloc, doc, journal),
        Err(DocRefused::Memory) => Err(AllocError),
        Err(cause) => Ok(Timed::Fault(refused(alloc, &cause)?)),
    }
}

/// A document, and the run of it that a journal gives, which is what `ats sim` wrote of it.
pub fn timed_document(alloc: Global, doc: Doc, journal: &[u8]) -> Result<Timed, AllocError>
    ensures { IfOk result (ToldBy doc journal.now) }
{
    match run_of(alloc, &doc, journal) {
        Ok(run) => Ok(Timed::Run { doc, run }),
        Err(fault) => {
            let words = told(alloc, layout_of(&doc), names_of(&doc), fault)?;
            Ok(Timed::Fault(words))
        }
    }
}

// The run of a document that a journal gives.
fn run_of(alloc: Global, doc: &Doc, journal: &[u8]) -> Result<Run, Fault>
    ensures { IfOk result (IsToldIn doc.now journal.now) }
{
    let lines = timed_lines(alloc, names_of(doc), journal)?;
    told_run(alloc, doc, &lines)
}

// The run of a document that lines tell.
fn told_run(alloc: Global, doc: &Doc, lines: &[TimedLine]) -> Result<Run, Fault>
    requires { ArePrintable (doc_names doc.now) (map line_of lines.now) }
    ensures { IfOk result (TellsRun doc.now lines.now) }
{
    let starts = starts_of(alloc, doc)?;
    let steps = steps_in(alloc, doc, lines)?;
    let takeovers = takeovers_of(alloc, lines)?;
    Ok(Run {
        starts,
        steps,
        takeovers,
    })
}
