// What is written to the error sink.
ghost use Rattle.std.specs.Prelude.{◌≡◌, ◌⊎◌};
ghost use Rattle.ats_io.specs.Bytes.{Adds, AddsPrefix};
ghost use Rattle.ats_io.specs.Faults.{Rose};
ghost use Rattle.dispatch_run.specs.Ending.{status_of};
ghost use Rattle.dispatch_run.specs.Report.{Tells, line_of, no_memory_line};
ghost use Rattle.dispatch_run.specs.Words.{TurnsDown};

use crate::lines::line_of;
use crate::{Failure, Status, WordsAnswered};
use ats_io::{Sink, WriteFault, write_all};
use std::alloc::Global;

const NO_MEMORY: &str = "dispatch: 202 Memory\n";

// Writes a line to the error sink. A fault of it changes nothing.
fn tell<E: Sink>(err: &mut E, line: &str)
    ensures { Tells line.now (Rose (E.faults err.old) (E.faults err.new)) (E.taken err.old) (E.taken err.new) }
{
    match write_all(err, line.as_bytes()) {
        Ok(()) | Err(WriteFault) => {}
    }
}

/// Writes the line of a failure to `err`, and gives its status; or, where there is no memory for the line, says that,
/// and gives the status of that. A fault of `err` changes nothing.
pub fn refuse<E: Sink>(alloc: Global, failure: &Failure, err: &mut E) -> Status
    ensures { ((result ≡ status_of failure.now)
        × Tells (line_of failure.now) (Rose (E.faults err.old) (E.faults err.new)) (E.taken err.old) (E.taken err.new))
        ⊎ ((result ≡ Status.Memory)
        × Tells no_memory_line (Rose (E.faults err.old) (E.faults err.new)) (E.taken err.old) (E.taken err.new)) }
{
    match line_of(alloc, failure) {
        Ok(line) => {
            tell(err, line.as_str());
            failure.status()
        }
        Err(_) => {
            tell(err, NO_MEMORY);
            Status::Memory
        }
    }
}

// Writes a text that was asked for.
fn show<K: Sink>(text: &str, out: &mut K) -> Status
    ensures { ((result ≡ Status.Done) × Adds (K.taken out.old) (K.taken out.new) text.now)
        ⊎ ((result ≡ Status.WriteFault) × Rose (K.faults out.old) (K.faults out.new)
        × AddsPrefix (K.taken out.old) (K.taken out.new) text.now) }
{
    match write_all(out, text.as_bytes()) {
        Ok(()) => Status::Done,
        Err(WriteFault) => Status::WriteFault,
    }
}

/// Answers words that ask for no session: help and the version go to `out`, what is wrong with the words to `err`.
pub fn turn_down<K: Sink, E: Sink>(words: &WordsAnswered, out: &mut K, err: &mut E) -> Status
    ensures { TurnsDown words.now result (Rose (K.faults out.old) (K.faults out.new)) (K.taken out.old)
        (K.taken out.new)
        (Rose (E.faults err.old) (E.faults err.new)) (E.taken err.old) (E.taken err.new) }
{
    match words {
        WordsAnswered::Shown(text) => show(text.as_str(), out),
        WordsAnswered::Refused(text) => {
            tell(err, text.as_str());
            Status::Words
        }
        WordsAnswered::Memory => {
            tell(err, NO_MEMORY);
            Status::Memory
        }
    }
}
