// A document with guards and certificates.
ghost use Rattle.std.specs.Prelude.{◌≡◌, ◌<◌, ◌≤◌, IfOk, IfErr, MatchResult, length, map};
ghost use Rattle.rail_model.specs.Certificate.{Accepts};
ghost use Rattle.rail_model.specs.Table.{Table as TableValue};
ghost use Rattle.document_json.specs.Keeps.{IsTaken};
ghost use Rattle.document_json.specs.Migrated.{IsMigrated};
ghost use Rattle.section_protect.specs.Protects.{Ends};
ghost use Rattle.document_protection.specs.Protected.{ArePartsOf, IsProtected, IsStuckBy, HasNoneOf, HasNone};

use crate::{Guards, Unprotected, Why};
use cert_tree::Cert;
use document_json::{Doc, Frame, migrate, tables_apart, version, write_replaced};
use legal_state::judge;
use rail_model::Table;
use section_protect::{Ended, Finder, Protected, protect};
use std::alloc::Global;

/// The text of a document with guards, and the guards of each table.
#[derive(Drop)]
pub struct ProtectedDoc {
    pub text: Vec<u8>,
    pub guards: Vec<Guards>,
}

// Tables with their certificates, and their guards.
#[derive(Drop)]
struct Parts {
    parts: Vec<(Table, Cert)>,
    guards: Vec<Guards>,
}

// The certificate with which a search ended, or why it has none.
fn cert_of(ended: Ended) -> Result<Cert, Why>
    ensures { (T : TableValue) → Ends T ended → MatchResult result (Accepts T) (IsStuckBy T) }
{
    match ended {
        Ended::Certified(cert) => Ok(cert),
        Ended::GaveUp { nodes } => Err(Why::GaveUp { nodes }),
        Ended::Full { at } => Err(Why::Full { at }),
        Ended::Spent { at } => Err(Why::Spent { at }),
    }
}

// Each of these tables with guards and a certificate.
fn parts_of<F: Finder>(
    alloc: Global,
    tables: &[Table],
    finder: &F,
    rounds: u32,
) -> Result<Parts, Unprotected>
    requires { length tables.now ≤ 16 }
    ensures parts { IfOk result (λ made. ArePartsOf tables.now made.guards.items made.parts.items) }

    ensures none { IfErr result (HasNoneOf tables.now) }
{
    let mut parts = Vec::new(alloc);
    let mut guards = Vec::new(alloc);
    for table in tables {
        let Protected {
            table: made,
            guards: some,
            ended,
        } = protect(alloc, table, finder, rounds)?;
        guards.push(Guards::from(some))?;
        match cert_of(ended) {
            Ok(cert) => parts.push((made, cert))?,
            Err(why) => {
                let table = parts.len() as u32;
                return Err(Unprotected::Uncertified { table, guards, why });
            }
        }
    }
    Ok(Parts { parts, guards })
}

// The text of a document in a later version with guards and certificates for its tables. Both are lent, so that they aren't dropped at each
// exit.
fn protected_with<F: Finder>(
    alloc: Global,
    doc: &Doc,
    later: &Frame,
    tables: &[Table],
    finder: &F,
    rounds: u32,
) -> Result<ProtectedDoc, Unprotected>
    requires migrated { IsMigrated doc.now later.now }
    requires taken { IsTaken later.now }
    requires tables { tables.now ≡ map (λ t. t.table) later.now.tables }
    requires some { 0 < length tables.now }
    requires few { length tables.now ≤ 16 }
    ensures made { IfOk result (λ made. IsProtected doc.now made.guards.items made.text.items) }

    ensures none { IfErr result (HasNone doc.now) }
{
    let Parts { parts, guards } = parts_of(alloc, tables, finder, rounds)?;
    match judge(&parts[0].0, later.start()) {
        Ok(()) => {
            let text = write_replaced(alloc, later, &parts)?;
            Ok(ProtectedDoc { text, guards })
        }
        Err(_) => Err(Unprotected::Start { guards }),
    }
}

/// The document with guards behind the sections of each table, and with certificates that a finder finds, all else
/// equal. In at most `rounds` rounds for each table a guard is made. It is in version 2 if it was in version 1.
///
/// # Errors
///
/// The guards up to those of the first table of which no certificate is found, and why; or that the guards forbid the
/// start; or out of memory.
pub fn protected<F: Finder>(
    alloc: Global,
    doc: &Doc,
    finder: &F,
    rounds: u32,
) -> Result<ProtectedDoc, Unprotected>
    ensures made { IfOk result (λ made. IsProtected doc.now made.guards.items made.text.items) }

    ensures none { IfErr result (HasNone doc.now) }
{
    let later = migrate(alloc, doc)?;
    let is_later = version(&later) > 1;
    prove!(is_later);
    let (frame, tables) = tables_apart(alloc, later)?;
    protected_with(alloc, doc, &frame, &tables, finder, rounds)
}
