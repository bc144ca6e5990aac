// The top call.
ghost use Rattle.std.specs.Prelude.{◌≡◌, ◌≢◌, ◌+◌, ◌⊎◌, ◌≤◌, ℕ, [], IfSome, IfOk, IfErr, OnOk, IsOkAnd, IsErrAnd, Some, length};
ghost use Rattle.std.specs.Io.KnownBytes.{IsAtEnd};
ghost use Rattle.ats_io.specs.Bytes.{Adds, AddsPrefix, ConsumesAtMost};
ghost use Rattle.ats_io.specs.Faults.{Rose};
ghost use Rattle.ats_words.specs.Subcommands.{HasItsNumbers};
ghost use Rattle.ats_words.specs.declared.orders.Order.{Order as OrderValue};
ghost use Rattle.ats_words.specs.declared.orders.Order.TheVariants.{Run};
ghost use Rattle.ats_run.specs.Calls.{asked, OnDone, OnRun, OnDrill, OnGoodInput, Wrote, WroteFor, WroteDocument, IsRunOf, IsRoundRobinOf};
ghost use Rattle.ats_run.specs.Causes.{call_of, IsReadWhole, IsServed, IsUnread, TellsCause, most_bytes};
ghost use Rattle.ats_run.specs.Command.{IsRunInput, IsAnyDrill};
ghost use Rattle.ats_run.specs.Complete.{IsDoneOrMemory};
ghost use Rattle.ats_run.specs.Orders.{Reads, OnInput, IsAlone};
ghost use Rattle.ats_answers.specs.Report.{line_of as line_of_failure, IsLineMade};
ghost use Rattle.ats_run.specs.Serving.{Serves, source_seen, sink_seen};

use crate::answer::{answer_alone, answer_by};
use ats_answers::{Failure, NO_MEMORY, Status, fixed_line, line_of};
use ats_io::{Gate, ReadAll, Sink, Source, WriteFault, read_all, write_all};
use ats_words::{Order, WordsRefused, words};
use std::alloc::Global;
use std::sync::Wait;
use std::thread::Threads;

const MOST_BYTES: usize = 16_777_216;

// All that the source has left.
fn read_input<S: Source>(alloc: Global, source: &mut S) -> Result<Vec<u8>, Failure>
    ensures bytes { IfOk result (λ bytes. IfSome (S.left source.old) (λ all. bytes.items ≡ all)) }
    ensures end { OnOk result (IsAtEnd (S.left source.new)) }
    ensures within { OnOk result (IfSome (S.left source.old) (λ all. length all ≤ most_bytes)) }

    ensures unread { IfErr result (IsUnread (S.left source.old)
        (Rose (S.faults source.old) (S.faults source.new))) }

    ensures at_most { ConsumesAtMost (most_bytes + 1) (S.left source.old) (S.left source.new) }
{
    match read_all(alloc, source, MOST_BYTES) {
        Ok(bytes) => Ok(bytes),
        Err(ReadAll::Memory) => Err(Failure::Memory),
        Err(ReadAll::ReadFault) => Err(Failure::ReadFault),
        Err(ReadAll::TooLong { .. }) => Err(Failure::TooLong),
    }
}

// The input of an order: all that the source has left, or nothing where the order reads none.
fn input_of<S: Source>(alloc: Global, order: Order, source: &mut S) -> Result<Vec<u8>, Failure>
    ensures whole { OnOk result (IsReadWhole order (S.left source.old) (IsAtEnd (S.left source.new))) }
    ensures input { IfOk result (λ input. OnInput order (S.left source.old) (λ all. input.items ≡ all)) }

    ensures unread { IfErr result (λ e. Reads order
        × IsUnread (S.left source.old) (Rose (S.faults source.old) (S.faults source.new)) e) }

    ensures untouched { (Reads order → ⊥) → source.new ≡ source.old }
    ensures at_most { ConsumesAtMost (most_bytes + 1) (S.left source.old) (S.left source.new) }
{
    match order {
        Order::Generate { .. } | Order::Drill { .. } => Ok(Vec::new(alloc)),
        _ => read_input(alloc, source),
    }
}

// Writes the text of an answer to the sink, or hands its failure on.
fn write_answer<K: Sink>(answer: Result<Vec<u8>, Failure>, out: &mut K) -> Result<(), Failure>
    ensures done { OnOk result (IsOkAnd answer (λ text. Adds (K.taken out.old) (K.taken out.new) text.items)) }

    ensures failed { IfErr result (λ e. IsErrAnd answer (λ cause. cause ≡ e) × Adds (K.taken out.old) (K.taken out.new) []
        ⊎ (e ≡ Failure.WriteFault) × Rose (K.faults out.old) (K.faults out.new)
        × IsOkAnd answer (λ text. AddsPrefix (K.taken out.old) (K.taken out.new) text.items)) }
{
    let text = answer?;
    match write_all(out, &text) {
        Ok(()) => Ok(()),
        Err(WriteFault) => Err(Failure::WriteFault),
    }
}

/// Does what an order asks for: it reads the source to its end, where the order reads, and writes what the order comes to. It waits for
/// nobody: no workers run the order's trains.
///
/// # Errors
///
/// Each failure has its cause; being out of memory alone has none. No line of it is written: `refuse` does that.
pub fn serve_alone<S: Source, K: Sink>(
    rt: &(impl Threads + Sync),
    alloc: Global,
    order: Order,
    source: &mut S,
    out: &mut K,
) -> Result<(), Failure>
    requires numbers { HasItsNumbers order }
    requires alone { IsAlone order }
    ensures { Serves (Some order) result
        (source_seen S.left S.faults source.old source.new) (sink_seen K.taken K.faults out.old out.new) }
{
    let input = input_of(alloc, order, source)?;
    write_answer(answer_alone(rt, alloc, order, &input), out)
}

// Does what any order asks for, as `serve_alone` does it unless workers run the order's trains: only then may it wait.
fn serve_any<S: Source, K: Sink, R: Threads + Wait + Sync, G: Gate>(
    rt: &R,
    alloc: Global,
    order: Order,
    source: &mut S,
    out: &mut K,
    gate: &G,
) -> Result<(), Failure>
    requires { HasItsNumbers order }
    ensures { Serves (Some order) result
        (source_seen S.left S.faults source.old source.new) (sink_seen K.taken K.faults out.old out.new) }
{
    let input = input_of(alloc, order, source)?;
    write_answer(answer_by(rt, alloc, order, &input, gate), out)
}

// What the words of a command line ask for, on what the source holds, written to the sink.
fn serve_words<S: Source, K: Sink, R: Threads + Wait + Sync, G: Gate>(
    rt: &R,
    alloc: Global,
    line: &[String],
    source: &mut S,
    out: &mut K,
    gate: &G,
) -> Result<(), Failure>
    ensures { Serves (asked line.now) result
        (source_seen S.left S.faults source.old source.new) (sink_seen K.taken K.faults out.old out.new) }
{
    match words(alloc, line) {
        Ok(order) => serve_any(rt, alloc, order, source, out, gate),
        Err(WordsRefused::Words) => Err(Failure::Words),
        Err(WordsRefused::Memory) => Err(Failure::Memory),
    }
}

// Writes a line to the error sink. A fault of it changes nothing.
fn tell<E: Sink>(err: &mut E, line: &str)
    ensures prefix { AddsPrefix (E.taken err.old) (E.taken err.new) line.now }
    ensures whole { (Rose (E.faults err.old) (E.faults err.new) → ⊥)
        → Adds (E.taken err.old) (E.taken err.new) line.now }
{
    match write_all(err, line.as_bytes()) {
        Ok(()) | Err(WriteFault) => {}
    }
}

/// Writes the line of a failure to `err`, and gives the failure; or, where its line is made and there is no memory for it, `Memory` and
/// the line of that. A fault of `err` changes nothing.
pub fn refuse<E: Sink>(alloc: Global, failure: Failure, err: &mut E) -> Failure
    ensures kept { (result ≡ failure) ⊎ ((result ≡ Failure.Memory) × IsLineMade failure) }
    ensures prefix { AddsPrefix (E.taken err.old) (E.taken err.new) (line_of_failure result) }
    ensures whole { (Rose (E.faults err.old) (E.faults err.new) → ⊥)
        → Adds (E.taken err.old) (E.taken err.new) (line_of_failure result) }
{
    if let Some(line) = fixed_line(&failure) {
        tell(err, line);
        return failure;
    }
    match line_of(alloc, &failure) {
        Ok(line) => {
            tell(err, line.as_str());
            failure
        }
        Err(_) => {
            tell(err, NO_MEMORY);
            Failure::Memory
        }
    }
}

/// The program: reads the words, the source to its end, and prints what is asked for.
///
/// `line` has the words after the program's name. The answer's exit code is `code`. Nothing but one line is written to `err`, where the
/// answer isn't `Done`. It may wait where the words ask for workers, each of which calls the gate at its moments; what else it does waits
/// for nobody, as `serve_alone`.
pub fn ats<S: Source, K: Sink, E: Sink, R: Threads + Wait + Sync, G: Gate>(
    rt: &R,
    alloc: Global,
    line: &[String],
    source: &mut S,
    out: &mut K,
    err: &mut E,
    gate: &G,
) -> Status
    // A run that ends well: the text of one whole journal of checked tables, from every state of which each way of going on ends well.
    ensures headline { OnRun result (asked line.now) (λ crew.
        WroteFor (S.left source.old) (Adds (K.taken out.old) (K.taken out.new)) IsRunOf) }

    // Without workers its lines are those of the round robin from the start.
    ensures round_robin { (rounds block : ℕ) → OnDone result (asked line.now) (Run 0 rounds block)
        (WroteFor (S.left source.old) (Adds (K.taken out.old) (K.taken out.new)) IsRoundRobinOf) }

    // With workers they are the journal of a legal history of their rounds, and then those of the round robin from its state.
    ensures by_workers { OnRun result (asked line.now) (λ crew.
        WroteFor (S.left source.old) (Adds (K.taken out.old) (K.taken out.new)) (IsRunInput crew)) }

    // A drill writes the same line for every number of workers.
    ensures drill { OnDrill result (asked line.now) (λ document.
        Wrote (Adds (K.taken out.old) (K.taken out.new)) (IsAnyDrill document)) }

    // Every command that ends well has read all that it reads, has written what it comes to on these bytes, and nothing to `err`.
    ensures done { result ≡ Status.Done → IsServed (asked line.now)
        (S.left source.old) (S.left source.new) (Adds (K.taken out.old) (K.taken out.new)) }
    ensures quiet { result ≡ Status.Done → Adds (E.taken err.old) (E.taken err.new) [] }

    // What make, derive, repair and gen write is a document whose every table accepts its certificate.
    ensures documents { (order : OrderValue) → OnDone result (asked line.now) order
        (WroteDocument order (S.left source.old) (Adds (K.taken out.old) (K.taken out.new))) }

    // Any other status has its cause, and the line of it was written to `err`.
    ensures refused { result ≢ Status.Done → TellsCause (call_of (asked line.now)
        (S.left source.old) (S.left source.new)
        (Rose (S.faults source.old) (S.faults source.new)) (Rose (K.faults out.old) (K.faults out.new)))
        result (Rose (E.faults err.old) (E.faults err.new)) (E.taken err.old) (E.taken err.new) }
    ensures nothing { result ≢ Status.Done → result ≢ Status.WriteFault
        → Adds (K.taken out.old) (K.taken out.new) [] }
    ensures prefix { result ≡ Status.WriteFault → IsServed (asked line.now)
        (S.left source.old) (S.left source.new) (AddsPrefix (K.taken out.old) (K.taken out.new)) }

    // Where no device fails, a good input ends well, or there was no memory.
    ensures complete { OnGoodInput (asked line.now) (S.left source.old)
        ((Rose (S.faults source.old) (S.faults source.new) → ⊥)
        → (Rose (K.faults out.old) (K.faults out.new) → ⊥) → IsDoneOrMemory result) }

    // The source isn't touched where the words are refused or what they ask for reads nothing.
    ensures untouched { IfSome (asked line.now) (λ order. Reads order → ⊥) → source.new ≡ source.old }
    ensures at_most { ConsumesAtMost (most_bytes + 1) (S.left source.old) (S.left source.new) }
{
    match serve_words(rt, alloc, line, source, out, gate) {
        Ok(()) => Status::Done,
        Err(failure) => refuse(alloc, failure, err).status(),
    }
}
