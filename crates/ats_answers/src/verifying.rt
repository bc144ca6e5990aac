// The check of a journal.
ghost use Rattle.std.specs.Prelude.{◌≡◌, ◌⊎◌, IfOk, IfErr, string_bytes};
ghost use Rattle.document_json.specs.Doc.{IsDoc, offers_of};
ghost use Rattle.accepted_documents.specs.Accepting.{AreAccepted};
ghost use Rattle.ats_answers.specs.Journals.{IsUnverified, IsVerified, verified_text, IsVerifiedInput};
ghost use Rattle.ats_answers.specs.Refusing.{RefusesVerify};
ghost use Rattle.ats_answers.specs.declared.failure.Failure.TheVariants.{Memory as NoMemory};

use crate::Failure;
use crate::checked::check_document;
use crate::journals::cut;
use accepted_documents::{Checked, verify_text};
use move_journal::Journal;
use std::alloc::{AllocError, Global};
use std::thread::Threads;

/// The line that says that a journal is whole, with its counts.
///
/// # Errors
///
/// There was no memory, no line parts a document from a journal, the document is refused as in `check_document`, or the journal isn't its
/// whole journal.
pub fn verify(rt: &(impl Threads + Sync), alloc: Global, input: &[u8]) -> Result<Vec<u8>, Failure>
    ensures verified { IfOk result (λ text. IsVerifiedInput input.now text.items) }

    ensures refused { IfErr result (λ e. (e ≡ NoMemory) ⊎ RefusesVerify input.now e) }
{
    let Some((document, given)) = cut(input) else {
        return Err(Failure::NoJournal);
    };
    let checked = check_document(rt, alloc, document)?;
    verify_given(alloc, &checked, given)
}

// The line of a journal of a document whose text the bytes are.
fn verify_given(alloc: Global, checked: &Checked, given: &[u8]) -> Result<Vec<u8>, Failure>
    requires tables { checked.now.tables.items ≡ offers_of checked.now.doc }
    requires accepted { AreAccepted checked.now.doc checked.now.certs.items }
    ensures verified { IfOk result (λ text. IsVerified checked.now.doc given.now text.items) }
    ensures formed { IsDoc checked.now.doc }

    ensures refused { IfErr result (λ e. (e ≡ NoMemory) ⊎ IsUnverified checked.now.doc given.now e) }
{
    let journal = verify_text(alloc, &checked.doc, &checked.tables, given)?;
    let text = verified_line(alloc, &journal)?;
    Ok(text.into_bytes())
}

fn verified_line(alloc: Global, journal: &Journal) -> Result<String, AllocError>
    ensures { IfOk result (λ line. string_bytes line ≡ verified_text journal.now) }
{
    let moves = journal.moves();
    let tables = journal.tables();
    let mut line = String::new(alloc);
    write!(line, "ok moves={moves} tables={tables}\n")?;
    Ok(line)
}
