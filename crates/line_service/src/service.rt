// A session from its first line to its last.
ghost use Rattle.std.specs.Prelude.{◌≡◌, ◌≤◌, ◌⊎◌, ◌++◌, ℕ, List, IfErr, IfOk, IfSome, OnOk};
ghost use Rattle.std.specs.Io.KnownBytes.{Consumes};
ghost use Rattle.ats_io.specs.Bytes.{Adds};
ghost use Rattle.ats_io.specs.Faults.{Rose};
ghost use Rattle.line_service.specs.Answered.{BreaksOff, BreaksOffHearing, Comes, HasAnsweredAll, IsEndless, IsSession};
ghost use Rattle.line_service.specs.Stopping.{LosesLast, Stops};
ghost use Rattle.line_service.specs.Lines.{heard_of};
ghost use Rattle.line_service.specs.declared.server.Course.TheVariants.{Ends};

use crate::pieces::answer_piece;
use crate::{Course, LineServer, ServeFault};
use ats_io::{Failed, Sink, Source, WriteFault, write_all};
use std::alloc::Global;

const PIECE: usize = 4096;

/// Reads the next piece of the input, as it comes, and answers the lines that it completes: what the sink took is
/// exactly their answers, before any more is read. The session ends by a line, or at the end of the input.
///
/// # Errors
///
/// Out of memory; a fault of the source or of the sink.
pub(crate) fn answer_next<L: LineServer, S: Source, K: Sink>(
    alloc: Global,
    server: &mut L,
    begun: &mut Vec<u8>,
    source: &mut S,
    out: &mut K,
) -> Result<Course, ServeFault>
    ensures flush { IfOk result (Comes L.answers server.old begun.old.items server.new begun.new.items
        (S.left source.old) (S.left source.new) (K.taken out.old) (K.taken out.new)) }

    ensures fault { IfErr result
        (BreaksOffHearing L.answers server.old begun.old.items (λ _. Rose (S.faults source.old) (S.faults source.new))
        (Rose (K.faults out.old) (K.faults out.new)) (S.left source.old) (S.left source.new) (K.taken out.old)
        (K.taken out.new)) }

    ensures source_never_falls { S.faults source.old ≤ S.faults source.new }
    ensures sink_never_falls { K.faults out.old ≤ K.faults out.new }
{
    let mut piece = [0u8; PIECE];
    match source.read(&mut piece) {
        Ok(0) => Ok(Course::Ends),
        Ok(count) => answer_piece(alloc, server, begun, &piece[..count], out),
        Err(Failed) => Err(ServeFault::Read),
    }
}

// Answers all lines of the source, up to one that ends the session.
fn answer_rest<L: LineServer, S: Source, K: Sink>(
    alloc: Global,
    server: &mut L,
    begun: &mut Vec<u8>,
    source: &mut S,
    out: &mut K,
) -> Result<(), ServeFault>
    ensures done { OnOk result (Comes L.answers server.old begun.old.items server.new begun.new.items
        (S.left source.old) (S.left source.new) (K.taken out.old) (K.taken out.new) Ends) }

    ensures fault { IfErr result (BreaksOffHearing L.answers server.old begun.old.items
        (λ heard. Rose (S.faults source.old) (S.faults source.new) ⊎ IsEndless heard)
        (Rose (K.faults out.old) (K.faults out.new)) (S.left source.old) (S.left source.new) (K.taken out.old)
        (K.taken out.new)) }

    ensures sink_never_falls { K.faults out.old ≤ K.faults out.new }
{
    for _piece in 0..u64::MAX {
        match answer_next(alloc, server, begun, source, out) {
            Ok(Course::GoesOn) => {}
            Ok(Course::Ends) => return Ok(()),
            Err(fault) => return Err(fault),
        }
    }
    Err(ServeFault::Read)
}

// Answers all lines of the input, of which the first bytes were read before.
fn answer_lines<L: LineServer, S: Source, K: Sink>(
    alloc: Global,
    server: &mut L,
    first: &[u8],
    source: &mut S,
    out: &mut K,
) -> Result<(), ServeFault>
    ensures done { OnOk result ((heard : List ℕ) × Consumes (S.left source.old) (S.left source.new) heard
        × HasAnsweredAll L.answers server.old (first.now ++ heard) server.new (S.left source.new) (K.taken out.old)
        (K.taken out.new)) }

    ensures fault { IfErr result (λ fault. (heard : List ℕ) × Consumes (S.left source.old) (S.left source.new) heard
        × BreaksOff L.answers server.old (heard_of (first.now ++ heard)).lines
        (Rose (S.faults source.old) (S.faults source.new) ⊎ IsEndless heard)
        (Rose (K.faults out.old) (K.faults out.new)) (K.taken out.old) (K.taken out.new) fault) }

    ensures sink_never_falls { K.faults out.old ≤ K.faults out.new }
{
    let mut begun = Vec::new(alloc);
    match answer_piece(alloc, server, &mut begun, first, out) {
        Ok(Course::GoesOn) => answer_rest(alloc, server, &mut begun, source, out),
        Ok(Course::Ends) => Ok(()),
        Err(fault) => Err(fault),
    }
}

// Writes what is written last.
fn say_last<L: LineServer, K: Sink>(
    alloc: Global,
    server: &L,
    out: &mut K,
) -> Result<(), ServeFault>
    ensures done { OnOk result (Adds (K.taken out.old) (K.taken out.new) (L.last server.now)) }

    ensures fault { IfErr result
        (LosesLast (L.last server.now) (Rose (K.faults out.old) (K.faults out.new)) (K.taken out.old)
        (K.taken out.new)) }
{
    let mut text = Vec::new(alloc);
    server.end(&mut text)?;
    match write_all(out, &text) {
        Ok(()) => Ok(()),
        Err(WriteFault) => Err(ServeFault::Write),
    }
}

/// Serves a session. `first` are bytes of the input that were read before. Whenever more input is asked for, what was
/// written is exactly the answers to the complete lines so far; at the end of the input, or after a line that ends
/// the session, the last line is written.
///
/// # Errors
///
/// Out of memory; a fault of the source, or 2^64 - 1 pieces of it and no end; a fault of the sink.
pub fn serve_lines<L: LineServer, S: Source, K: Sink>(
    alloc: Global,
    server: &mut L,
    first: &[u8],
    source: &mut S,
    out: &mut K,
) -> Result<(), ServeFault>
    ensures session { OnOk result (IfSome (S.left source.old) (λ input. (text : List ℕ)
        × IsSession L.answers L.last server.old (first.now ++ input) text
        × Adds (K.taken out.old) (K.taken out.new) text)) }

    ensures fault { IfErr result (λ fault. (heard : List ℕ) × Consumes (S.left source.old) (S.left source.new) heard
        × Stops L.answers L.last server.old (first.now ++ heard) (Rose (S.faults source.old) (S.faults source.new)
        ⊎ IsEndless heard)
        (Rose (K.faults out.old) (K.faults out.new)) (K.taken out.old) (K.taken out.new) fault) }
{
    match answer_lines(alloc, server, first, source, out) {
        Ok(()) => say_last(alloc, server, out),
        Err(fault) => Err(fault),
    }
}
