// The certificates of all tables of a document.
ghost use Rattle.std.specs.Prelude.{IfOk, IfErr};
ghost use Rattle.document_certificates.specs.Certified.{AcceptEach, AcceptsWithin, IsCertified, HasNone, FailsFor};

use crate::Uncertified;
use cert_search::{Effort, Found, Report, Watcher, find};
use cert_tree::Cert;
use document_json::{Doc, table_of, tables_of, write_certified};
use rail_model::Table;
use std::alloc::Global;

/// The text of a document with other certificates, found by searches of at most `budget` nodes each; all else is equal.
/// The watcher sees how far they are.
///
/// # Errors
///
/// The first table with a state that is found to be stuck, or for which all searches gave up; or out of memory.
pub fn certified_text<W: Watcher>(
    alloc: Global,
    doc: &Doc,
    budget: u32,
    effort: Effort,
    watcher: &W,
) -> Result<Vec<u8>, Uncertified>
    ensures text { IfOk result (λ text. IsCertified doc.now budget text.items) }

    ensures none { IfErr result (HasNone doc.now budget) }
{
    let certs = certify_all(alloc, doc, budget, effort, watcher)?;
    Ok(write_certified(alloc, doc, &certs)?)
}

// A certificate for each table.
fn certify_all<W: Watcher>(
    alloc: Global,
    doc: &Doc,
    budget: u32,
    effort: Effort,
    watcher: &W,
) -> Result<Vec<Cert>, Uncertified>
    ensures accepted { IfOk result (λ certs. AcceptEach doc.now budget certs.items) }

    ensures none { IfErr result (HasNone doc.now budget) }
{
    let mut certs = Vec::new(alloc);
    for table in 0..tables_of(doc) {
        let cert = certify(alloc, table_of(doc, table), table, budget, effort, watcher)?;
        certs.push(cert)?;
    }
    Ok(certs)
}

// The certificate of a table with this number.
fn certify<W: Watcher>(
    alloc: Global,
    table: &Table,
    number: u32,
    budget: u32,
    effort: Effort,
    watcher: &W,
) -> Result<Cert, Uncertified>
    ensures accepted { IfOk result (AcceptsWithin budget table.now) }

    ensures none { IfErr result (FailsFor table.now budget number) }
{
    let Report {
        found,
        searches: _searches,
    } = find(alloc, table, budget, effort, watcher)?;
    match found {
        Found::Cert(cert) => Ok(cert),
        Found::Stuck(at) => Err(Uncertified::Stuck { table: number, at }),
        Found::GaveUp { nodes } => Err(Uncertified::GaveUp {
            table: number,
            nodes,
        }),
    }
}
