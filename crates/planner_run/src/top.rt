// The top call.
ghost use Rattle.std.specs.Prelude.{◌≡◌, ◌≢◌, ◌⊎◌, ℕ, List, Some, None, IfSome};
ghost use Rattle.ats_io.specs.Bytes.{Adds, AddsPrefix};
ghost use Rattle.ats_io.specs.Faults.{Rose};
ghost use Rattle.planner_run.specs.Answered.{AsksForRemarks, HasNotes, IsWrittenOn, Tells, code_of, shown_text};

use crate::Answer;
use crate::answer::answer_to;
use ats_io::{ReadAll, Sink, Source, WriteFault, read_all, write_all};
use cert_search::Watcher;
use plan_input::PlanFile;
use planner_words::{Order, WordsAnswered};
use std::alloc::{AllocError, Global};

/// The most bytes of an input.
pub const MOST_BYTES: usize = 16_777_216;

const NO_MEMORY: &str = "planner: out of memory\n";

/// How a call ends.
#[derive(Clone, Copy)]
pub enum Status {
    /// What was asked for is written, and nothing is wrong.
    Done,
    /// The input has faults, which are written.
    Faulty,
    /// The command line is wrong, a device failed, the input is too long, or there was no memory.
    Failed,
}

/// Why nothing was read.
#[derive(Clone, Copy)]
pub enum Stop {
    /// The system gave no words: one of them isn't UTF-8, or there was no memory for them.
    Words,
    /// The file of a former document can't be read, or is too long.
    Former,
    /// The file of the other run can't be read, or is too long.
    Other,
    /// The file of a run can't be read, or is too long.
    Journal,
    /// The file of a plan can't be read, or is too long.
    Plan,
}

/// The exit code of a status.
pub fn code(status: Status) -> u8
    ensures { result ≡ code_of status }
{
    match status {
        Status::Done => 0,
        Status::Faulty => 1,
        Status::Failed => 2,
    }
}

// Writes words to the error sink. A fault of it changes nothing.
fn tell<E: Sink>(err: &mut E, words: &str)
    ensures { AddsPrefix (E.taken err.old) (E.taken err.new) words.now }
{
    match write_all(err, words.as_bytes()) {
        Ok(()) | Err(WriteFault) => {}
    }
}

// A call that failed, with its line.
fn failed<E: Sink>(err: &mut E, line: &str) -> Status
    ensures { result ≡ Status.Failed }
{
    tell(err, line);
    Status::Failed
}

// How a call ends that has this text to write.
fn print<K: Sink, E: Sink>(text: &[u8], status: Status, out: &mut K, err: &mut E) -> Status
    ensures kept { (result ≡ status) ⊎ (result ≡ Status.Failed) }
    ensures whole { result ≢ Status.Failed → Adds (K.taken out.old) (K.taken out.new) text.now }
    ensures quiet { result ≢ Status.Failed → E.taken err.new ≡ E.taken err.old }
    ensures unwritten { result ≢ status → Rose (K.faults out.old) (K.faults out.new) }
{
    match write_all(out, text) {
        Ok(()) => status,
        Err(WriteFault) => failed(err, "planner: standard output can't be written\n"),
    }
}

// How a call ends that has this text to write, and notes on it.
fn print_noted<K: Sink, E: Sink>(text: &[u8], notes: &str, out: &mut K, err: &mut E) -> Status
    ensures kept { (result ≡ Status.Done) ⊎ (result ≡ Status.Failed) }
    ensures whole { result ≢ Status.Failed → Adds (K.taken out.old) (K.taken out.new) text.now }
{
    let status = print(text, Status::Done, out, err);
    if let Status::Done = status {
        tell(err, notes);
    }
    status
}

/// Answers an order: it reads the source to its end, and writes to `out` what the order asks for, or to `err` what is wrong.
/// `former` is the former document, and `plan` the file of the plan that the document was made of, where the order names them. The watcher
/// sees how far searches for certificates are; what it writes then, by a handle of its own, no clause says.
#[tactic(auto, using(crate::proofs::Suits::quiet_as_read))]
pub fn serve<S: Source, K: Sink, E: Sink, W: Watcher>(
    alloc: Global,
    order: &Order<'_>,
    former: Option<&[u8]>,
    plan: Option<&PlanFile<'_>>,
    source: &mut S,
    out: &mut K,
    err: &mut E,
    watcher: &W,
) -> Status
    // What is written is what the order comes to on all that the source had left.
    ensures done { result ≡ Status.Done → IfSome (S.left source.old) (λ all.
        (text : List ℕ) × IsWrittenOn order.now former.entry plan.entry all text × Adds (K.taken out.old) (K.taken out.new) text) }
    // Notes are written to `err`, and nothing else.
    ensures quiet { result ≡ Status.Done → HasNotes order.now (S.left source.old) ⊎ (E.taken err.new ≡ E.taken err.old) }
    // Where the input has faults, nothing is written to `out`, except remarks that were asked for.
    ensures faulty { result ≡ Status.Faulty → AsksForRemarks order.now ⊎ (K.taken out.new ≡ K.taken out.old) }
    // And what is written to `err` is the beginning of lines that say what is wrong: all of them, unless `err` fails.
    ensures told { result ≡ Status.Faulty → IfSome (S.left source.old) (λ all.
        AsksForRemarks order.now ⊎ Tells order.now former.entry plan.entry all (E.taken err.old) (E.taken err.new)) }
{
    match read_all(alloc, source, MOST_BYTES) {
        Ok(input) => respond(alloc, order, &input, former, plan, out, err, watcher),
        Err(ReadAll::Memory) => failed(err, NO_MEMORY),
        Err(ReadAll::ReadFault) => failed(err, "planner: standard input can't be read\n"),
        Err(ReadAll::TooLong { .. }) => failed(
            err,
            "planner: the input has more than 16777216 bytes\n",
        ),
    }
}

// Answers an order on its input.
fn respond<K: Sink, E: Sink, W: Watcher>(
    alloc: Global,
    order: &Order<'_>,
    input: &[u8],
    former: Option<&[u8]>,
    plan: Option<&PlanFile<'_>>,
    out: &mut K,
    err: &mut E,
    watcher: &W,
) -> Status
    ensures done { result ≡ Status.Done → (text : List ℕ) × IsWrittenOn order.now former.entry plan.entry input.now text × Adds (K.taken out.old) (K.taken out.new) text }
    ensures quiet { result ≡ Status.Done → HasNotes order.now (Some input.now) ⊎ (E.taken err.new ≡ E.taken err.old) }
    ensures faulty { result ≡ Status.Faulty → AsksForRemarks order.now ⊎ (K.taken out.new ≡ K.taken out.old) }
    ensures told { result ≡ Status.Faulty → AsksForRemarks order.now ⊎ Tells order.now former.entry plan.entry input.now (E.taken err.old) (E.taken err.new) }
{
    match answer_to(alloc, order, input, former, plan, watcher) {
        Ok(Answer::Text(text)) => print(&text, Status::Done, out, err),
        Ok(Answer::Remarks(text)) => print(text.as_bytes(), Status::Faulty, out, err),
        Ok(Answer::Noted(text, lines)) => print_noted(&text, lines.as_str(), out, err),
        Ok(Answer::Wrong(lines)) => {
            tell(err, lines.as_str());
            Status::Faulty
        }
        Err(AllocError) => failed(err, NO_MEMORY),
    }
}

/// Answers words that are no order: help and the version go to `out`, what is wrong with the words to `err`.
pub fn turn_down<K: Sink, E: Sink>(words: &WordsAnswered, out: &mut K, err: &mut E) -> Status
    // Help and the version are written whole, unless `out` fails.
    ensures shown { IfSome (shown_text words.now) (λ text.
        ((result ≡ Status.Done) × Adds (K.taken out.old) (K.taken out.new) text) ⊎ Rose (K.faults out.old) (K.faults out.new)) }

    ensures refused { shown_text words.now ≡ None → result ≡ Status.Failed }
    ensures unchanged { shown_text words.now ≡ None → K.taken out.new ≡ K.taken out.old }
{
    match words {
        WordsAnswered::Shown(text) => print(text.as_bytes(), Status::Done, out, err),
        WordsAnswered::Refused(text) => failed(err, text.as_str()),
        WordsAnswered::Memory => failed(err, NO_MEMORY),
    }
}

/// Writes to `err` why nothing was read.
pub fn end_unread<E: Sink>(why: Stop, err: &mut E) -> Status
    ensures { result ≡ Status.Failed }
{
    match why {
        Stop::Words => failed(
            err,
            "planner: the words of the command line can't be read\n",
        ),
        Stop::Former => failed(err, "planner: the file of --before can't be read\n"),
        Stop::Other => failed(err, "planner: the file of --with can't be read\n"),
        Stop::Journal => failed(err, "planner: the file of --journal can't be read\n"),
        Stop::Plan => failed(err, "planner: the file of --plan can't be read\n"),
    }
}
