// Documents whose tables accept their certificates.
ghost use Rattle.std.specs.Prelude.{◌≡◌, ◌++◌, ◌∷◌, ◌<◌, ◌^◌, [], Ok, length, map, IfOk, IfErr, OnOk};
ghost use Rattle.rail_model.specs.Certificate.{Accepts};
ghost use Rattle.document_json.specs.Doc.{IsDoc, offers_of};
ghost use Rattle.document_json.specs.Trees.{AreTrees};
ghost use Rattle.document_json.specs.Reading.{doc_of};
ghost use Rattle.accepted_documents.specs.Accepting.{AreAccepted, IsRejected, IsUnaccepted, IsUncertified, Rejects};

use crate::Unaccepted;
use crate::acceptors::{Acceptor, Alone, Together};
use cert_checker::{Accepted, CheckFault};
use cert_tree::Cert;
use document_json::{Certified, Doc, DocRefused, Frame, TreeRefused, certificates, document};
use rail_model::Table;
use std::alloc::Global;
use std::thread::Threads;

/// A document, a certificate for each of its tables, which accepts it, and the tables.
#[derive(Drop)]
pub struct Checked {
    pub doc: Frame,
    pub certs: Vec<Cert>,
    pub tables: Vec<Accepted>,
}

/// Reads a document and its certificates, and checks them in rising order of the tables.
///
/// # Errors
///
/// Out of memory; the first cause in the order of `Unaccepted`.
pub fn check_document(alloc: Global, input: &[u8]) -> Result<Checked, Unaccepted>
    ensures document { IfOk result (λ c. doc_of input.now ≡ Ok c.doc) }
    ensures offers { IfOk result (λ c. c.tables.items ≡ offers_of c.doc) }
    ensures accepted { IfOk result (λ c. AreAccepted c.doc c.certs.items) }

    ensures refused { IfErr result (IsUnaccepted input.now) }
{
    check_by(&Alone, alloc, input)
}

/// What `check_document` answers, by all threads.
///
/// # Errors
///
/// Those of `check_document`.
pub fn check_document_par(
    rt: &(impl Threads + Sync),
    alloc: Global,
    input: &[u8],
) -> Result<Checked, Unaccepted>
    ensures document { IfOk result (λ c. doc_of input.now ≡ Ok c.doc) }
    ensures offers { IfOk result (λ c. c.tables.items ≡ offers_of c.doc) }
    ensures accepted { IfOk result (λ c. AreAccepted c.doc c.certs.items) }

    ensures refused { IfErr result (IsUnaccepted input.now) }
{
    check_by(&Together { rt }, alloc, input)
}

// The document that the bytes are, if each of its tables accepts its certificate.
fn check_by<A: Acceptor>(acceptor: &A, alloc: Global, input: &[u8]) -> Result<Checked, Unaccepted>
    requires { A.can_run }
    ensures document { IfOk result (λ c. doc_of input.now ≡ Ok c.doc) }
    ensures offers { IfOk result (λ c. c.tables.items ≡ offers_of c.doc) }
    ensures accepted { IfOk result (λ c. AreAccepted c.doc c.certs.items) }

    ensures refused { IfErr result (IsUnaccepted input.now) }
{
    match document(alloc, input) {
        Ok(doc) => accept_document(acceptor, alloc, doc),
        Err(DocRefused::Memory) => Err(Unaccepted::Memory),
        Err(refused) => Err(Unaccepted::Document(refused)),
    }
}

// A document, if the nodes of each of its tables spell a certificate that the table accepts.
fn accept_document<A: Acceptor>(
    acceptor: &A,
    alloc: Global,
    doc: Doc,
) -> Result<Checked, Unaccepted>
    requires { A.can_run }
    ensures document { IfOk result (λ c. c.doc ≡ doc) }
    ensures offers { IfOk result (λ c. c.tables.items ≡ offers_of c.doc) }
    ensures accepted { IfOk result (λ c. AreAccepted c.doc c.certs.items) }

    ensures refused { IfErr result (IsUncertified doc) }
{
    match certificates(alloc, doc) {
        Ok((frame, parts)) => accept_all(acceptor, alloc, frame, parts),
        Err(TreeRefused::Memory) => Err(Unaccepted::Memory),
        Err(TreeRefused::Tree { table, refused }) => Err(Unaccepted::Tree { table, refused }),
    }
}

// A document, if each of its tables accepts its certificate.
fn accept_all<A: Acceptor>(
    acceptor: &A,
    alloc: Global,
    doc: Frame,
    parts: Vec<Certified>,
) -> Result<Checked, Unaccepted>
    requires runs { A.can_run }
    requires formed { IsDoc doc }
    requires trees { AreTrees doc (map (λ p. p.cert) parts.items) }
    requires tables { map (λ p. record { table = p.table; after = p.after }) parts.items ≡ offers_of doc }
    ensures document { IfOk result (λ c. c.doc ≡ doc) }
    ensures offers { IfOk result (λ c. c.tables.items ≡ offers_of c.doc) }
    ensures accepted { IfOk result (λ c. AreAccepted c.doc c.certs.items) }

    ensures rejected { IfErr result (IsRejected doc (map (λ p. p.cert) parts.items)) }
{
    let mut checked = Checked {
        doc,
        certs: Vec::new(alloc),
        tables: Vec::new(alloc),
    };
    for part in parts {
        accept_next(acceptor, alloc, &mut checked, part)?;
    }
    Ok(checked)
}

// Adds the next table of a document, if it accepts its certificate.
fn accept_next<A: Acceptor>(
    acceptor: &A,
    alloc: Global,
    checked: &mut Checked,
    part: Certified,
) -> Result<(), Unaccepted>
    requires runs { A.can_run }
    requires few { length checked.old.tables.items < 2 ^ 32 }
    ensures document { OnOk result (checked.new.doc ≡ checked.old.doc) }
    ensures table { OnOk result (checked.new.tables.items
        ≡ checked.old.tables.items ++ record { table = part.table; after = part.after } ∷ []) }
    ensures cert { OnOk result (checked.new.certs.items ≡ checked.old.certs.items ++ part.cert ∷ []) }
    ensures accepted { OnOk result (Accepts part.table part.cert) }

    ensures rejected { IfErr result (Rejects (length checked.old.tables.items) part.table part.cert) }
{
    let Certified { table, after, cert } = part;
    let number = checked.tables.len() as u32;
    let accepted = accept_one(acceptor, alloc, number, table, after, &cert)?;
    checked.tables.push(accepted)?;
    checked.certs.push(cert)?;
    Ok(())
}

// One table of a document, which has this number, if it accepts its certificate.
fn accept_one<A: Acceptor>(
    acceptor: &A,
    alloc: Global,
    number: u32,
    table: Table,
    after: u32,
    cert: &Cert,
) -> Result<Accepted, Unaccepted>
    requires { A.can_run }
    ensures accepted { OnOk result (Accepts table cert.now) }
    ensures offer { IfOk result (λ a. a ≡ record { table = table; after = after }) }

    ensures rejected { IfErr result (Rejects number table cert.now) }
{
    match acceptor.accept(alloc, table, after, cert) {
        Ok(accepted) => Ok(accepted),
        Err((_, CheckFault::Memory)) => Err(Unaccepted::Memory),
        Err((_, CheckFault::Bad(bad))) => Err(Unaccepted::Certificate { table: number, bad }),
    }
}
