// The state that a journal of a document's run leads to.
ghost use Rattle.std.specs.Prelude.{◌≡◌, IfOk, IfErr, OnOk};
ghost use Rattle.rail_model.specs.Yard.{opening};
ghost use Rattle.rail_model.specs.Journal.{IsWhole};
ghost use Rattle.move_journal.specs.Answers.{IsTextOf, IsTextPart};
ghost use Rattle.document_json.specs.Doc.{IsDoc, offers_of, names_of};
ghost use Rattle.accepted_documents.specs.Replaying.{IsNotWhole, IsReplay, IsWholeJournal, LeadsNowhere, LeadsThrough};
ghost use Rattle.accepted_documents.specs.Refusing.{IsBadFront, IsBadLine, IsBadPart, IsBadText};

use crate::BadJournal;
use cert_checker::Accepted;
use document_json::Frame;
use move_journal::{Journal, Part, read, read_prefix, replay, verify};
use rail_model::PlainState;
use std::alloc::Global;

/// Where a journal leads.
#[derive(Drop)]
pub enum Replayed {
    /// The front of a journal leads to this state.
    Open(PlainState),
    /// A whole journal ends in this state.
    Whole(PlainState),
}

/// The whole journal whose text the bytes are.
///
/// # Errors
///
/// Out of memory; the bytes are no journal's text; or else the journal isn't whole under the tables.
pub fn verify_text(
    alloc: Global,
    doc: &Frame,
    tables: &[Accepted],
    given: &[u8],
) -> Result<Journal, BadJournal>
    requires { tables.now ≡ offers_of doc.now }
    ensures whole { IfOk result (IsWholeJournal doc.now given.now) }
    ensures formed { IsDoc doc.now }

    ensures refused { IfErr result (IsNotWhole doc.now given.now) }
{
    let journal = read_text(alloc, doc, given)?;
    verify_lines(alloc, doc, tables, &journal)?;
    Ok(journal)
}

/// The state that a journal leads to whose text the bytes are: the front of one, or a whole one.
///
/// # Errors
///
/// Out of memory; the bytes are no journal's text and no front of one; or else the front has a line that isn't right,
/// or the journal isn't whole under the tables.
pub fn replay_text(
    alloc: Global,
    doc: &Frame,
    tables: &[Accepted],
    given: &[u8],
) -> Result<Replayed, BadJournal>
    requires { tables.now ≡ offers_of doc.now }
    ensures leads { IfOk result (IsReplay doc.now given.now) }
    ensures formed { IsDoc doc.now }

    ensures refused { IfErr result (LeadsNowhere doc.now given.now) }
{
    match read_part(alloc, doc, given)? {
        Part::Open(front) => Ok(Replayed::Open(replay_lines(alloc, doc, tables, &front)?)),
        Part::Whole(journal) => {
            verify_lines(alloc, doc, tables, &journal)?;
            Ok(Replayed::Whole(replay_lines(alloc, doc, tables, &journal)?))
        }
    }
}

// The journal whose text the bytes are.
fn read_text(alloc: Global, doc: &Frame, given: &[u8]) -> Result<Journal, BadJournal>
    ensures text { IfOk result (IsTextOf (names_of doc.now) given.now) }
    ensures formed { IsDoc doc.now }

    ensures fault { IfErr result (IsBadText (names_of doc.now) given.now) }
{
    Ok(read(alloc, doc.names(), given)?)
}

// The journal, or its front, whose text the bytes are.
fn read_part(alloc: Global, doc: &Frame, given: &[u8]) -> Result<Part, BadJournal>
    ensures part { IfOk result (IsTextPart (names_of doc.now) given.now) }
    ensures formed { IsDoc doc.now }

    ensures fault { IfErr result (IsBadPart (names_of doc.now) given.now) }
{
    Ok(read_prefix(alloc, doc.names(), given)?)
}

// Whether a journal is whole under the tables of a document.
fn verify_lines(
    alloc: Global,
    doc: &Frame,
    tables: &[Accepted],
    journal: &Journal,
) -> Result<(), BadJournal>
    requires { tables.now ≡ offers_of doc.now }
    ensures whole { OnOk result (IsWhole (offers_of doc.now) (opening doc.now.start) journal.now) }
    ensures formed { IsDoc doc.now }

    ensures lacks { IfErr result (IsBadLine (offers_of doc.now) (opening doc.now.start) journal.now) }
{
    Ok(verify(alloc, tables, doc.start(), journal)?)
}

// The state that a journal's lines lead to.
fn replay_lines(
    alloc: Global,
    doc: &Frame,
    tables: &[Accepted],
    journal: &Journal,
) -> Result<PlainState, BadJournal>
    requires { tables.now ≡ offers_of doc.now }
    ensures leads { IfOk result (LeadsThrough doc.now journal.now) }
    ensures formed { IsDoc doc.now }

    ensures refused { IfErr result (IsBadFront (offers_of doc.now) (opening doc.now.start) journal.now) }
{
    Ok(replay(alloc, tables, doc.start(), journal)?)
}
