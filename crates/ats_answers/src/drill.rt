// The document that a drill runs.
ghost use Rattle.std.specs.Prelude.{◌≡◌, ◌⊎◌, ◌<◌, ◌≤◌, ℕ, Ok, length, IfOk, IfErr};
ghost use Rattle.rail_model.specs.Move.{Live};
ghost use Rattle.document_generator.specs.Generated.{generated};
ghost use Rattle.document_json.specs.Doc.{IsDoc, offers_of, table_at};
ghost use Rattle.document_json.specs.Reading.{doc_of};
ghost use Rattle.ats_answers.specs.Making.{tables_in, AreMade, full_budget};
ghost use Rattle.ats_answers.specs.Refusing.{RefusesMake};
ghost use Rattle.ats_answers.specs.declared.failure.Failure.TheVariants.{Memory as NoMemory};

use crate::Failure;
use crate::generating::{FULL_BUDGET, generated_document};
use crate::making::make_all;
use accepted_documents::Checked;
use cert_checker::Accepted;
use cert_tree::Cert;
use document_json::{Doc, Frame, tables_apart};
use rail_model::Table;
use std::alloc::{AllocError, Global};

/// The document that is generated of a seed for a number of trains, with the certificates that are made for its tables.
///
/// # Errors
///
/// There was no memory, or the generated document is refused, or a table of it gets no certificate.
pub fn drill_document(alloc: Global, seed: u32, trains: u32) -> Result<Checked, Failure>
    requires { trains ≤ 32 }
    ensures document { IfOk result (λ c. doc_of (generated seed trains) ≡ Ok c.doc) }
    ensures made { IfOk result (λ c. AreMade (tables_in c.doc) full_budget c.certs.items) }
    ensures offers { IfOk result (λ c. c.tables.items ≡ offers_of c.doc) }

    ensures unmade { IfErr result (λ e. (e ≡ NoMemory) ⊎ RefusesMake (generated seed trains) full_budget e) }
{
    let doc = generated_document(alloc, seed, trains)?;
    let certs = make_all(alloc, &doc, FULL_BUDGET)?;
    let checked = with_live_tables(alloc, doc, certs)?;
    Ok(checked)
}

// A document, each of whose tables is live, with these certificates. The only error is that there is no memory.
fn with_live_tables(alloc: Global, doc: Doc, certs: Vec<Cert>) -> Result<Checked, AllocError>
    requires { (t : ℕ) → t < length doc.tables → Live (table_at doc t) }
    ensures document { IfOk result (λ c. c.doc ≡ doc) }
    ensures certs { IfOk result (λ c. c.certs.items ≡ certs.items) }
    ensures offers { IfOk result (λ c. c.tables.items ≡ offers_of c.doc) }
{
    let (frame, apart) = tables_apart(alloc, doc)?;
    let tables = live_tables(alloc, &frame, apart)?;
    Ok(Checked {
        doc: frame,
        certs,
        tables,
    })
}

// These tables of a document, each of which is live, with the moves after which it is due. The only error is that there
// is no memory.
fn live_tables(alloc: Global, doc: &Frame, apart: Vec<Table>) -> Result<Vec<Accepted>, AllocError>
    requires formed { IsDoc doc.now }
    requires tables { apart.items ≡ tables_in doc.now }
    requires live { (t : ℕ) → t < length doc.now.tables → Live (table_at doc.now t) }
    ensures { IfOk result (λ tables. tables.items ≡ offers_of doc.now) }
{
    let mut tables = Vec::new(alloc);
    for table in apart {
        let after = doc.after(tables.len() as u32);
        tables.push(Accepted::live(table, after))?;
    }
    Ok(tables)
}
