// A session of what a header opens.
ghost use Rattle.std.specs.Prelude.{◌≡◌, ◌⊎◌, ◌++◌, ℕ, List, IfErr, IfSome, OnOk};
ghost use Rattle.std.specs.Io.KnownBytes.{Consumes};
ghost use Rattle.ats_io.specs.Bytes.{Adds};
ghost use Rattle.ats_io.specs.Faults.{Rose};
ghost use Rattle.document_json.specs.Doc.{offers_of};
ghost use Rattle.line_service.specs.Answered.{IsEndless};
ghost use Rattle.plain_yard.specs.Keeps.{Keeps};
ghost use Rattle.dispatch_run.specs.Dispatching.{BreaksOffServing, BreaksOffTalking, IsServed, IsTalk};
ghost use Rattle.dispatch_run.specs.LiveSessions.{live_sessions};

use crate::restoring::{first_text, session_at};
use crate::session::converse;
use ats_io::{Sink, Source};
use cert_checker::Accepted;
use line_service::ServeFault;
use live_header::Opened;
use live_session::Session;
use std::alloc::Global;

// Writes the first text of a session, and serves it.
fn talk<S: Source, K: Sink>(
    alloc: Global,
    session: &mut Session<'_, Accepted>,
    first: &[u8],
    source: &mut S,
    out: &mut K,
) -> Result<(), ServeFault>
    ensures talk { OnOk result (IfSome (S.left source.old) (λ input. (written : List ℕ)
        × IsTalk live_sessions session.old (first.now ++ input) written
        × Adds (K.taken out.old) (K.taken out.new) written)) }

    ensures fault { IfErr result (λ fault. (heard : List ℕ) × Consumes (S.left source.old) (S.left source.new) heard
        × BreaksOffTalking live_sessions session.old (first.now ++ heard)
        (Rose (S.faults source.old) (S.faults source.new) ⊎ IsEndless heard)
        (Rose (K.faults out.old) (K.faults out.new)) (K.taken out.old) (K.taken out.new) fault) }
{
    match first_text(alloc, session) {
        Ok(ready) => converse(alloc, session, &ready, first, source, out),
        Err(_) => Err(ServeFault::Memory),
    }
}

/// Serves a session of what a header opens. `first` are bytes of the input that were read with the header.
///
/// # Errors
///
/// Out of memory; a fault of the source or of the sink.
pub(crate) fn serve_session<S: Source, K: Sink>(
    alloc: Global,
    opened: Opened,
    first: &[u8],
    source: &mut S,
    out: &mut K,
) -> Result<(), ServeFault>
    requires tables { opened.tables.items ≡ offers_of opened.doc }
    requires keeps { Keeps (offers_of opened.doc) opened.state.yard opened.state.lines }
    ensures served { OnOk result (IfSome (S.left source.old) (λ input. (written : List ℕ)
        × IsServed live_sessions opened (first.now ++ input) written
        × Adds (K.taken out.old) (K.taken out.new) written)) }

    ensures fault { IfErr result (λ fault. (heard : List ℕ) × Consumes (S.left source.old) (S.left source.new) heard
        × BreaksOffServing live_sessions opened (first.now ++ heard)
        (Rose (S.faults source.old) (S.faults source.new) ⊎ IsEndless heard)
        (Rose (K.faults out.old) (K.faults out.new)) (K.taken out.old) (K.taken out.new) fault) }
{
    let Opened {
        hash,
        doc,
        tables,
        state,
        reports,
        ..
    } = opened;
    match session_at(alloc, &doc, hash.as_str(), &tables, state, reports) {
        Ok(mut session) => talk(alloc, &mut session, first, source, out),
        Err(_) => Err(ServeFault::Memory),
    }
}
