// The top call.
ghost use Rattle.std.specs.Prelude.{◌≡◌, ◌≢◌, [], ℕ, List, IfErr, IfSome, OnOk};
ghost use Rattle.std.specs.Io.KnownBytes.{Consumes, IsAtEnd};
ghost use Rattle.ats_io.specs.Bytes.{Adds};
ghost use Rattle.ats_io.specs.Faults.{Rose};
ghost use Rattle.dispatch_run.specs.Dispatching.{IsCause, IsDispatched, TellsCause};
ghost use Rattle.dispatch_run.specs.LiveSessions.{live_sessions};
ghost use Rattle.dispatch_run.specs.Running.{TellsRun};
ghost use Rattle.dispatch_run.specs.declared.failure.Failure.{Failure as FailureValue};

use crate::begun::{Begun, begin};
use crate::serving::serve_session;
use crate::telling::refuse;
use crate::{Failure, Status};
use ats_io::{Sink, Source};
use std::alloc::Global;

// Reads a header, and serves the session that it begins.
fn serve<S: Source, K: Sink>(
    alloc: Global,
    document: Vec<u8>,
    source: &mut S,
    out: &mut K,
) -> Result<(), Failure>
    ensures done { OnOk result (IfSome (S.left source.old) (λ input. (written : List ℕ)
        × IsDispatched live_sessions document.items input written × TellsRun document.items input written
        × Adds (K.taken out.old) (K.taken out.new) written)) }

    ensures cause { IfErr result (λ failure. (heard : List ℕ) × Consumes (S.left source.old) (S.left source.new) heard
        × IsCause live_sessions document.items heard (IsAtEnd (S.left source.new))
        (Rose (S.faults source.old) (S.faults source.new))
        (Rose (K.faults out.old) (K.faults out.new)) (K.taken out.old) (K.taken out.new) failure) }
{
    match begin(alloc, document, source) {
        Ok(Begun { header, opened }) => match serve_session(
            alloc,
            opened,
            header.rest(),
            source,
            out,
        ) {
            Ok(()) => Ok(()),
            Err(fault) => Err(Failure::Broken(fault)),
        },
        Err(failure) => Err(failure),
    }
}

/// The program: reads a header, of whose document these bytes were read before, answers the lines after it until the
/// input ends or a line ends the session, and writes the last line. Where it doesn't end well, one line is written to
/// `err`.
pub fn dispatch<S: Source, K: Sink, E: Sink>(
    alloc: Global,
    document: Vec<u8>,
    source: &mut S,
    out: &mut K,
    err: &mut E,
) -> Status
    // What is written is the first text, the answers to all complete lines after the header, and the last line. Its
    // lines that begin with a digit are those of the journal after the lines that were given, and the last line is
    // `end` exactly if together they are a whole journal: all trains have arrived, and all tables have their answers.
    ensures done { result ≡ Status.Done → IfSome (S.left source.old) (λ input. (written : List ℕ)
        × IsDispatched live_sessions document.items input written × TellsRun document.items input written
        × Adds (K.taken out.old) (K.taken out.new) written) }
    ensures quiet { result ≡ Status.Done → Adds (E.taken err.old) (E.taken err.new) [] }

    // Any other status has its cause, and the line of it was written to `err`; where a header is refused, nothing is
    // written.
    ensures refused { result ≢ Status.Done → (failure : FailureValue)
        × TellsCause failure result (Rose (E.faults err.old) (E.faults err.new)) (E.taken err.old) (E.taken err.new)
        × ((heard : List ℕ) × Consumes (S.left source.old) (S.left source.new) heard
        × IsCause live_sessions document.items heard (IsAtEnd (S.left source.new))
        (Rose (S.faults source.old) (S.faults source.new))
        (Rose (K.faults out.old) (K.faults out.new)) (K.taken out.old) (K.taken out.new) failure) }
{
    match serve(alloc, document, source, out) {
        Ok(()) => Status::Done,
        Err(failure) => refuse(alloc, &failure, err),
    }
}
