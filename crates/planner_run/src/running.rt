// The run that an input is about.
ghost use Rattle.std.specs.Prelude.{IfOk, IfSome, Ok, ◌≡◌};
ghost use Rattle.document_json.specs.Reading.{doc_of};
ghost use Rattle.planner_run.specs.Running.{IsDelayIn, IsFound, IsPlayed, IsRan, IsRanAs, IsRanBy, IsToldAs};

use crate::certifying::lines_on;
use ats_answers::{Failure, simulate_alone};
use cert_search::{Effort, Watcher};
use decimal_number::number_of;
use delayed_documents::{Delay, NotDelayed, delayed};
use document_certificates::{Uncertified, certified_text};
use document_json::{Doc, DocRefused, document, write};
use refusal_lines::push_document;
use run_timetable::Run;
use std::alloc::{AllocError, Global};
use timed_reading::{Timed, cut, timed_document, timed_run};

/// The most nodes of a certificate that is searched for.
pub(crate) const MOST_NODES: u32 = 1_000_000;

const UNTRUE: &str =
    "the document with certificates didn't pass its test; please report this document\n";

const NO_DELAY: &str =
    "--delay takes a train, a point of its way and a number of ticks, as T1=B+5\n";

const GIVEN: &str =
    "--delay goes with a plan or a document alone, and lines of a run follow this one\n";

/// A document, and a timed run of it.
#[derive(Drop)]
pub(crate) enum Ran {
    /// The lines of the run stand behind the document.
    Given { doc: Doc, run: Run },
    /// The document with certificates that were found, and its run by its travel times.
    Own { doc: Doc, run: Run },
    /// No certificates of the document were found, for this reason.
    Open { doc: Doc, why: Uncertified },
    /// There is no run, for this reason: lines.
    Not(String),
}

/// A document, and a timed run of it.
#[derive(Drop)]
pub(crate) enum Found {
    Run { doc: Doc, run: Run },
    /// There is none, for this reason: lines.
    None(String),
}

/// The run whose lines stand behind a document; without lines, that of the document with certificates that are found by search, as `ats sim`
/// has it, and with a delay if words name one.
pub(crate) fn find_run<W: Watcher>(
    alloc: Global,
    input: &[u8],
    delay: Option<&str>,
    watcher: &W,
) -> Result<Ran, AllocError>
    ensures { IfOk result (IsRan input.now delay.entry) }
{
    if cut(input).is_some() {
        return match delay {
            None => given(alloc, input),
            Some(_) => Ok(Ran::Not(String::from_str(alloc, GIVEN)?)),
        };
    }
    match document(alloc, input) {
        Ok(doc) => own(alloc, input, doc, delay, watcher),
        Err(DocRefused::Memory) => Err(AllocError),
        Err(refused) => Ok(Ran::Not(refused_line(alloc, &refused)?)),
    }
}

/// The same, where it doesn't matter whose run it is.
pub(crate) fn run_in<W: Watcher>(
    alloc: Global,
    input: &[u8],
    delay: Option<&str>,
    watcher: &W,
) -> Result<Found, AllocError>
    ensures { IfOk result (IsFound input.now delay.entry) }
{
    match find_run(alloc, input, delay, watcher)? {
        Ran::Given { doc, run } => Ok(Found::Run { doc, run }),
        Ran::Own { doc, run } => Ok(Found::Run { doc, run }),
        Ran::Open { doc, why } => Ok(Found::None(lines_on(alloc, &doc, &why)?)),
        Ran::Not(lines) => Ok(Found::None(lines)),
    }
}

// That the input is no document.
fn refused_line(alloc: Global, refused: &DocRefused) -> Result<String, AllocError> {
    let mut line = String::from_str(alloc, "the document is refused: ")?;
    push_document(&mut line, refused)?;
    line_of(line)
}

// Words as a line.
fn line_of(words: String) -> Result<String, AllocError> {
    let mut line = words;
    line.push_str("\n")?;
    Ok(line)
}

// The run whose lines stand behind a document.
fn given(alloc: Global, input: &[u8]) -> Result<Ran, AllocError>
    ensures { IfOk result (IsRan input.now None) }
{
    match timed_run(alloc, input)? {
        Timed::Run { doc, run } => Ok(Ran::Given { doc, run }),
        Timed::Fault(words) => Ok(Ran::Not(line_of(words)?)),
    }
}

// The run of a document with certificates that are found by search.
fn own<W: Watcher>(
    alloc: Global,
    input: &[u8],
    doc: Doc,
    delay: Option<&str>,
    watcher: &W,
) -> Result<Ran, AllocError>
    requires { doc_of input.now ≡ Ok doc }
    ensures { IfOk result (IsRan input.now delay.entry) }
{
    match certified_text(alloc, &doc, MOST_NODES, Effort::Usual, watcher) {
        Ok(text) => own_of(alloc, &text, delay),
        Err(Uncertified::Memory) => Err(AllocError),
        Err(why) => Ok(Ran::Open { doc, why }),
    }
}

// The run of the document that a text is, whose tables accept their certificates.
fn own_of(alloc: Global, text: &[u8], delay: Option<&str>) -> Result<Ran, AllocError>
    ensures { IfOk result (IsRanBy text.now delay.entry) }
{
    let Ok(doc) = document(alloc, text) else {
        return Err(AllocError);
    };
    match delay {
        None => played(alloc, doc, text),
        Some(words) => later(alloc, doc, words),
    }
}

// The run of a document with the delay that words name.
fn later(alloc: Global, doc: Doc, words: &str) -> Result<Ran, AllocError>
    ensures { IfOk result (IsRanAs doc (Some words.entry)) }
{
    let Some(delay) = delay_in(words) else {
        return Ok(Ran::Not(String::from_str(alloc, NO_DELAY)?));
    };
    match delayed(alloc, doc, &delay) {
        Ok(doc) => {
            let text = write(alloc, &doc)?;
            played(alloc, doc, &text)
        }
        Err(NotDelayed::Memory) => Err(AllocError),
        Err(why) => Ok(Ran::Not(undelayed_line(alloc, &delay, why)?)),
    }
}

// The delay that words name.
fn delay_in(words: &str) -> Option<Delay<'_>>
    ensures { IfSome result (IsDelayIn words.now) }
{
    let (train, rest) = words.split_once('=')?;
    let (point, digits) = rest.split_once('+')?;
    let ticks = number_of(digits.as_bytes())?;
    Some(Delay {
        train,
        point,
        ticks,
    })
}

// Why there is no such delay.
fn undelayed_line(alloc: Global, delay: &Delay<'_>, why: NotDelayed) -> Result<String, AllocError> {
    let Delay { train, point, .. } = *delay;
    match why {
        NotDelayed::NoTrain => format!(in alloc; "--delay: there is no train {train:?}\n"),
        NotDelayed::NoPoint => {
            format!(in alloc; "--delay: the way of {train} leads to no point {point:?}\n")
        }
        NotDelayed::TooLong { takes } => {
            format!(in alloc;
                "--delay: the step of {train} to {point} takes {takes} ticks, and with the delay more than 1000\n"
            )
        }
        NotDelayed::Memory => Err(AllocError),
    }
}

// The run of a document, which this text is.
fn played(alloc: Global, doc: Doc, text: &[u8]) -> Result<Ran, AllocError>
    requires { doc_of text.now ≡ Ok doc }
    ensures { IfOk result (IsPlayed doc text.now) }
{
    match simulate_alone(alloc, text) {
        Ok(lines) => told(alloc, doc, &lines),
        Err(Failure::Memory) => Err(AllocError),
        Err(_) => Ok(Ran::Not(String::from_str(alloc, UNTRUE)?)),
    }
}

// The run of a document that lines tell.
fn told(alloc: Global, doc: Doc, lines: &[u8]) -> Result<Ran, AllocError>
    ensures { IfOk result (IsToldAs doc lines.now) }
{
    match timed_document(alloc, doc, lines)? {
        Timed::Run { doc, run } => Ok(Ran::Own { doc, run }),
        Timed::Fault(words) => Ok(Ran::Not(line_of(words)?)),
    }
}
