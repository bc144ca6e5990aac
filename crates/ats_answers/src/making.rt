// Certificates that are made anew.
ghost use Rattle.std.specs.Prelude.{◌≡◌, ◌⊎◌, ◌<◌, ◌≤◌, ◌^◌, ◌++◌, ◌∷◌, [], length, Ok, IfOk, IfErr, OnOk};
ghost use Rattle.rail_model.specs.Certificate.{Tree, Accepts};
ghost use Rattle.cert_maker.specs.Rule.{Makes};
ghost use Rattle.cert_maker.specs.declared.made.Made.TheVariants.{Cert as cert};
ghost use Rattle.document_json.specs.Keeps.{IsTaken};
ghost use Rattle.document_json.specs.Reading.{doc_of};
ghost use Rattle.document_json.specs.Replaced.{replaced};
ghost use Rattle.document_json.specs.Written.{written};
ghost use Rattle.accepted_documents.specs.Accepting.{IsDocWith};
ghost use Rattle.ats_answers.specs.Refusing.{RefusesMake};
ghost use Rattle.ats_answers.specs.Making.{tables_in, AreMade, HaveMade, IsMade, FailsToMake, MakesNone};
ghost use Rattle.ats_answers.specs.declared.failure.Failure.TheVariants.{Memory as NoMemory};

use crate::Failure;
use crate::checked::read_document;
use cert_maker::{Budget, Made, make as make_certificate};
use cert_tree::Cert;
use document_json::{Doc, Frame, table_of, tables_of, write_certified, write_replaced};
use rail_model::Table;
use std::alloc::Global;

/// The text of a document with each table's certificate made anew, of at most `budget` nodes.
///
/// # Errors
///
/// There was no memory, the input is no document, or a table gets no such certificate.
pub fn make(alloc: Global, input: &[u8], budget: u32) -> Result<Vec<u8>, Failure>
    requires some { 1 ≤ budget }
    requires most { budget ≤ 1000000 }
    ensures made { IfOk result (λ text. IsDocWith input.now (λ D. IsMade D budget text.items)) }

    ensures unmade { IfErr result (λ e. (e ≡ NoMemory) ⊎ RefusesMake input.now budget e) }
{
    let doc = read_document(alloc, input)?;
    text_with_certificates(alloc, &doc, Budget { nodes: budget })
}

/// The text of a document with a certificate made for each of its tables, of at most `budget` nodes.
pub(crate) fn text_with_certificates(
    alloc: Global,
    doc: &Doc,
    budget: Budget,
) -> Result<Vec<u8>, Failure>
    ensures made { IfOk result (λ text. IsMade doc.now budget.nodes text.items) }

    ensures unmade { IfErr result (λ e. (e ≡ NoMemory) ⊎ FailsToMake (tables_in doc.now) budget.nodes e) }
{
    let certs = make_all(alloc, doc, budget)?;
    Ok(write_certified(alloc, doc, &certs)?)
}

/// A certificate for each table of a document.
pub(crate) fn make_all(alloc: Global, doc: &Doc, budget: Budget) -> Result<Vec<Cert>, Failure>
    ensures made { IfOk result (λ certs. AreMade (tables_in doc.now) budget.nodes certs.items) }

    ensures unmade { IfErr result (λ e. (e ≡ NoMemory) ⊎ FailsToMake (tables_in doc.now) budget.nodes e) }
{
    let mut certs = Vec::new(alloc);
    for table in 0..tables_of(doc) {
        certs.push(make_one(alloc, table_of(doc, table), table, budget)?)?;
    }
    Ok(certs)
}

// The certificate of a table with this number.
fn make_one(alloc: Global, table: &Table, number: u32, budget: Budget) -> Result<Cert, Failure>
    ensures made { IfOk result (λ c. Makes table.now budget.nodes (cert c)) }
    ensures accepted { IfOk result (Accepts table.now) }

    ensures none { IfErr result (λ e. (e ≡ NoMemory) ⊎ MakesNone table.now number budget.nodes e) }
{
    match make_certificate(alloc, table, budget)? {
        Made::Cert(cert) => Ok(cert),
        Made::Stuck(at) => Err(Failure::Stuck { table: number, at }),
        Made::Spent { nodes } => Err(Failure::Spent {
            table: number,
            nodes,
        }),
    }
}

/// Each of these tables, which are numbered from 0, with its certificate.
pub fn make_each(
    alloc: Global,
    tables: Vec<Table>,
    budget: Budget,
) -> Result<Vec<(Table, Cert)>, Failure>
    requires few { length tables.items ≤ 16 }
    ensures made { IfOk result (λ parts. HaveMade tables.items budget.nodes parts.items) }

    ensures unmade { IfErr result (λ e. (e ≡ NoMemory) ⊎ FailsToMake tables.items budget.nodes e) }
{
    let mut parts = Vec::new(alloc);
    for table in tables {
        make_next(alloc, &mut parts, table, budget)?;
    }
    Ok(parts)
}

// Adds the next table with its certificate.
fn make_next(
    alloc: Global,
    parts: &mut Vec<(Table, Cert)>,
    table: Table,
    budget: Budget,
) -> Result<(), Failure>
    requires count { length parts.old.items < 2 ^ 32 }
    ensures part { OnOk result ((tree : Tree) × (parts.new.items ≡ parts.old.items ++ (table, tree) ∷ [])
        × Makes table budget.nodes (cert tree) × Accepts table tree) }

    ensures none { IfErr result (λ e. (e ≡ NoMemory) ⊎ MakesNone table (length parts.old.items) budget.nodes e) }
{
    let number = parts.len() as u32;
    let cert = make_one(alloc, &table, number, budget)?;
    parts.push((table, cert))?;
    Ok(())
}

/// The text of a document with these tables and certificates in place of its own.
pub fn text_of_parts(
    alloc: Global,
    doc: &Frame,
    parts: &[(Table, Cert)],
) -> Result<Vec<u8>, Failure>
    requires one_each { length parts.now ≡ length doc.now.tables }
    requires taken { IsTaken (replaced doc.now parts.now) }
    ensures printed { IfOk result (λ text. text.items ≡ written (replaced doc.now parts.now)) }
    ensures reads { IfOk result (λ text. doc_of text.items ≡ Ok (replaced doc.now parts.now)) }

    ensures memory { IfErr result (λ e. e ≡ NoMemory) }
{
    Ok(write_replaced(alloc, doc, parts)?)
}
