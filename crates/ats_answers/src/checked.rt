// Documents that are read, and documents whose tables accept their certificates.
ghost use Rattle.std.specs.Prelude.{◌≡◌, ◌⊎◌, Ok, IfOk, IfErr};
ghost use Rattle.accepted_documents.specs.Accepting.{AreAccepted};
ghost use Rattle.document_json.specs.Doc.{offers_of};
ghost use Rattle.document_json.specs.Reading.{doc_of};
ghost use Rattle.ats_answers.specs.Refusing.{RefusesDocument, RefusesCheck};
ghost use Rattle.ats_answers.specs.declared.failure.Failure.TheVariants.{Memory as NoMemory};

use crate::Failure;
use accepted_documents::{Checked, check_document as check_by_one, check_document_par};
use document_json::{Doc, DocRefused, document};
use std::alloc::Global;
use std::thread::Threads;

/// Reads a document.
pub fn read_document(alloc: Global, input: &[u8]) -> Result<Doc, Failure>
    ensures document { IfOk result (λ doc. doc_of input.now ≡ Ok doc) }

    ensures refused { IfErr result (λ e. (e ≡ NoMemory) ⊎ RefusesDocument input.now e) }
{
    match document(alloc, input) {
        Ok(doc) => Ok(doc),
        Err(DocRefused::Memory) => Err(Failure::Memory),
        Err(refused) => Err(Failure::Document(refused)),
    }
}

/// Reads a document and its certificates, and checks them in rising order of the tables.
///
/// # Errors
///
/// There was no memory, or the first refusal in the order document, trees, certificates.
pub fn check_document(
    rt: &(impl Threads + Sync),
    alloc: Global,
    input: &[u8],
) -> Result<Checked, Failure>
    ensures document { IfOk result (λ c. doc_of input.now ≡ Ok c.doc) }
    ensures offers { IfOk result (λ c. c.tables.items ≡ offers_of c.doc) }
    ensures accepted { IfOk result (λ c. AreAccepted c.doc c.certs.items) }

    ensures unchecked { IfErr result (λ e. (e ≡ NoMemory) ⊎ RefusesCheck input.now e) }
{
    match check_document_par(rt, alloc, input) {
        Ok(checked) => Ok(checked),
        Err(refused) => Err(Failure::from(refused)),
    }
}

/// What `check_document` answers, by one thread.
pub(crate) fn check_alone(alloc: Global, input: &[u8]) -> Result<Checked, Failure>
    ensures document { IfOk result (λ c. doc_of input.now ≡ Ok c.doc) }
    ensures offers { IfOk result (λ c. c.tables.items ≡ offers_of c.doc) }
    ensures accepted { IfOk result (λ c. AreAccepted c.doc c.certs.items) }

    ensures unchecked { IfErr result (λ e. (e ≡ NoMemory) ⊎ RefusesCheck input.now e) }
{
    match check_by_one(alloc, input) {
        Ok(checked) => Ok(checked),
        Err(refused) => Err(Failure::from(refused)),
    }
}
