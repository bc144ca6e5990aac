// A session after its header.
ghost use Rattle.std.specs.Prelude.{◌≡◌, ◌≤◌, ◌⊎◌, ◌++◌, ℕ, List, Option, IfErr, IfSome, OnOk};
ghost use Rattle.std.specs.Io.KnownBytes.{Consumes};
ghost use Rattle.ats_io.specs.Bytes.{Adds};
ghost use Rattle.ats_io.specs.Faults.{Rose};
ghost use Rattle.line_service.specs.Answered.{IsEndless, IsSession};
ghost use Rattle.dispatch_run.specs.Conversing.{StopsTalking};

use ats_io::{Sink, Source, WriteFault, write_all};
use line_service::{LineServer, ServeFault, serve_lines};
use std::alloc::Global;

/// Writes the first text of a session, and serves it. `first` are bytes of the input that were read with the header.
///
/// # Errors
///
/// Out of memory; a fault of the source or of the sink.
pub(crate) fn converse<L: LineServer, S: Source, K: Sink>(
    alloc: Global,
    server: &mut L,
    ready: &[u8],
    first: &[u8],
    source: &mut S,
    out: &mut K,
) -> Result<(), ServeFault>
    ensures session { OnOk result (IfSome (S.left source.old) (λ input. (text : List ℕ)
        × IsSession L.answers L.last server.old (first.now ++ input) text
        × Adds (K.taken out.old) (K.taken out.new) (ready.now ++ text))) }

    ensures fault { IfErr result (λ fault. (heard : List ℕ) × Consumes (S.left source.old) (S.left source.new) heard
        × StopsTalking L.answers L.last server.old ready.now (first.now ++ heard)
        (Rose (S.faults source.old) (S.faults source.new) ⊎ IsEndless heard)
        (Rose (K.faults out.old) (K.faults out.new)) (K.taken out.old) (K.taken out.new) fault) }
{
    match write_all(out, ready) {
        Ok(()) => serve_lines(alloc, server, first, source, out),
        Err(WriteFault) => Err(ServeFault::Write),
    }
}
