// A session at the state that a journal leads to.
ghost use Rattle.std.specs.Prelude.{◌≡◌, IfOk};
ghost use Rattle.document_json.specs.Doc.{offers_of};
ghost use Rattle.live_session.specs.Answering.{IsOpening};
ghost use Rattle.plain_yard.specs.Keeps.{Keeps};
ghost use Rattle.dispatch_run.specs.Restoring.{HasBegun, IsRestored};

use cert_checker::Accepted;
use document_json::Frame;
use live_session::Session;
use live_yard::{LiveYard, ReportedYard};
use plain_yard::PlainYard;
use rail_model::PlainState;
use std::alloc::{AllocError, Global};

// A dispatcher of these tables at the state that a journal leads to, without standing wants.
fn restored<'a>(
    alloc: Global,
    tables: &'a [Accepted],
    state: PlainState,
    reports: bool,
) -> Result<LiveYard<'a, Accepted>, AllocError>
    requires { Keeps tables.now state.yard state.lines }
    ensures { IfOk result (IsRestored tables.entry.now state reports) }
{
    let Ok(run) = PlainYard::new(tables, state) else {
        return Err(AllocError);
    };
    let yard = ReportedYard::begin(alloc, run, reports)?;
    LiveYard::new(alloc, yard)
}

/// A session of a document of this hash, at the state that a journal leads to.
///
/// # Errors
///
/// Out of memory.
pub(crate) fn session_at<'a>(
    alloc: Global,
    doc: &'a Frame,
    hash: &'a str,
    tables: &'a [Accepted],
    state: PlainState,
    reports: bool,
) -> Result<Session<'a, Accepted>, AllocError>
    requires tables { tables.now ≡ offers_of doc.now }
    requires keeps { Keeps (offers_of doc.now) state.yard state.lines }
    ensures { IfOk result (HasBegun doc.entry.now hash.entry.now state reports) }
{
    let yard = restored(alloc, tables, state, reports)?;
    Session::new(alloc, doc.names(), hash, yard)
}

/// The first text of a session.
///
/// # Errors
///
/// Out of memory.
pub(crate) fn first_text(
    alloc: Global,
    session: &Session<'_, Accepted>,
) -> Result<Vec<u8>, AllocError>
    ensures { IfOk result (λ text. IsOpening session.now text.items) }
{
    let mut text = Vec::new(alloc);
    session.open(&mut text)?;
    Ok(text)
}
