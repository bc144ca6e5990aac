// Documents that are generated of a seed.
ghost use Rattle.std.specs.Prelude.{◌≡◌, ◌⊎◌, ◌≤◌, Ok, length, IfOk, IfErr};
ghost use Rattle.document_generator.specs.Generated.{generated};
ghost use Rattle.document_json.specs.Reading.{doc_of};
ghost use Rattle.accepted_documents.specs.Accepting.{IsDocWith};
ghost use Rattle.ats_answers.specs.Refusing.{RefusesDocument, RefusesMake};
ghost use Rattle.ats_answers.specs.Making.{full_budget};
ghost use Rattle.ats_answers.specs.Making.{IsMade};
ghost use Rattle.ats_answers.specs.declared.failure.Failure.TheVariants.{Memory as NoMemory};

use crate::Failure;
use crate::making::text_with_certificates;
use cert_maker::Budget;
use document_generator::generate_members;
use document_json::{Doc, DocRefused, document_from};
use std::alloc::Global;

/// How many nodes the certificate of a generated document may have.
pub(crate) const FULL_BUDGET: Budget = Budget { nodes: 1_000_000 };

/// The document generated of a seed for a number of trains, whose certificate is empty.
pub(crate) fn generated_document(alloc: Global, seed: u32, trains: u32) -> Result<Doc, Failure>
    requires { trains ≤ 32 }
    ensures document { IfOk result (λ doc. doc_of (generated seed trains) ≡ Ok doc) }

    ensures refused { IfErr result (λ e. (e ≡ NoMemory) ⊎ RefusesDocument (generated seed trains) e) }
{
    let members = generate_members(alloc, seed, trains)?;
    match document_from(alloc, members) {
        Ok(doc) => Ok(doc),
        Err(DocRefused::Memory) => Err(Failure::Memory),
        Err(refused) => Err(Failure::Document(refused)),
    }
}

/// The text of the document generated of a seed for a number of trains, with its certificate.
///
/// # Errors
///
/// There was no memory, the generated document is refused, or its table gets no certificate.
pub fn generate(alloc: Global, seed: u32, trains: u32) -> Result<Vec<u8>, Failure>
    requires { trains ≤ 32 }
    ensures made { IfOk result (λ text. IsDocWith (generated seed trains) (λ D. IsMade D full_budget text.items)) }
    ensures one_table { IfOk result (λ text. IsDocWith text.items (λ D. length D.tables ≡ 1)) }

    ensures unmade { IfErr result (λ e. (e ≡ NoMemory) ⊎ RefusesMake (generated seed trains) full_budget e) }
{
    let doc = generated_document(alloc, seed, trains)?;
    text_with_certificates(alloc, &doc, FULL_BUDGET)
}
