// The state that a journal leads to, which a session goes on from.
ghost use Rattle.std.specs.Prelude.{◌≡◌, ◌⊎◌, IfOk, IfErr};
ghost use Rattle.document_json.specs.Doc.{offers_of};
ghost use Rattle.live_header.specs.Journals.{IsBroken, LeadsTo};
ghost use Rattle.live_header.specs.declared.refused.Refused.TheVariants.{Memory as NoMemory};

use crate::Refused;
use accepted_documents::{Replayed, replay_text};
use cert_checker::Accepted;
use document_json::Frame;
use rail_model::PlainState;
use std::alloc::Global;

/// The state that a journal leads to whose text the bytes are: the front of one, or a whole one.
pub(crate) fn state_after(
    alloc: Global,
    doc: &Frame,
    tables: &[Accepted],
    given: &[u8],
) -> Result<PlainState, Refused>
    requires { tables.now ≡ offers_of doc.now }
    ensures leads { IfOk result (LeadsTo doc.now given.now) }

    ensures refused { IfErr result (λ e. (e ≡ NoMemory) ⊎ IsBroken doc.now given.now e) }
{
    match replay_text(alloc, doc, tables, given) {
        Ok(Replayed::Open(state) | Replayed::Whole(state)) => Ok(state),
        Err(refused) => Err(Refused::from(refused)),
    }
}
