// Documents that are brought to version 2.
ghost use Rattle.std.specs.Prelude.{◌≡◌, ◌⊎◌, IfOk, IfErr};
ghost use Rattle.accepted_documents.specs.Accepting.{IsDocWith};
ghost use Rattle.ats_answers.specs.Refusing.{RefusesDocument};
ghost use Rattle.ats_answers.specs.Migrating.{IsMigratedText};
ghost use Rattle.ats_answers.specs.declared.failure.Failure.TheVariants.{Memory as NoMemory};

use crate::Failure;
use crate::checked::read_document;
use document_json::write_migrated;
use std::alloc::Global;

/// The text of a document of version 1 as one of version 2, and of any other as it is read.
///
/// # Errors
///
/// There was no memory, or the input is no document.
pub fn migrate(alloc: Global, input: &[u8]) -> Result<Vec<u8>, Failure>
    ensures migrated { IfOk result (λ text. IsDocWith input.now (λ D. IsMigratedText D text.items)) }

    ensures refused { IfErr result (λ e. (e ≡ NoMemory) ⊎ RefusesDocument input.now e) }
{
    let doc = read_document(alloc, input)?;
    Ok(write_migrated(alloc, &doc)?)
}
