// Sections that are made by repairs.
ghost use Rattle.std.specs.Prelude.{◌≡◌, ◌⊎◌, ◌+◌, ◌<◌, ◌≤◌, ℕ, length, IfOk, IfErr, OnOk};
ghost use Rattle.document_json.specs.Doc.{IsDoc, table_at};
ghost use Rattle.document_json.specs.Keeps.{IsTaken};
ghost use Rattle.section_repair.specs.Claims.{DoomsAlike};
ghost use Rattle.section_repair.specs.declared.repaired.Repair.TheVariants.{Done};
ghost use Rattle.accepted_documents.specs.Accepting.{IsDocWith};
ghost use Rattle.ats_answers.specs.Refusing.{RefusesRepair};
ghost use Rattle.ats_answers.specs.Making.{tables_in};
ghost use Rattle.ats_answers.specs.Repairing.{IsRepairedAs, RepairsNone, AreRepaired, IsUnconnected, IsRepaired, FailsToRepair, HasConnection, IsRefusedStart};
ghost use Rattle.ats_answers.specs.declared.failure.Failure.TheVariants.{Memory as NoMemory};

use crate::Failure;
use crate::checked::read_document;
use crate::making::text_of_parts;
use crate::starting::check_start;
use cert_maker::Budget;
use cert_tree::Cert;
use document_json::{Doc, Frame, table_of, tables_apart, tables_of};
use rail_model::{Layout, Table, connections_of};
use section_repair::{Repair, repair as repair_missions};
use std::alloc::Global;

/// The text of a document with the sections that repairs make, and their certificates. Each certificate has at most
/// `budget` nodes, and each repair at most `rounds` rounds.
///
/// # Errors
///
/// There was no memory, the input is no document, a table has a connection, a repair ends without a certificate, or the start isn't legal
/// under the repaired first table.
pub fn repair(alloc: Global, input: &[u8], budget: u32, rounds: u32) -> Result<Vec<u8>, Failure>
    requires some { 1 ≤ budget }
    requires most { budget ≤ 1000000 }
    ensures repaired { IfOk result (λ text. IsDocWith input.now (λ D. IsRepaired D budget rounds text.items)) }

    ensures unrepaired { IfErr result (λ e. (e ≡ NoMemory) ⊎ RefusesRepair input.now budget rounds e) }
{
    let doc = read_document(alloc, input)?;
    check_connections(&doc)?;
    let (frame, tables) = tables_apart(alloc, doc)?;
    repair_document(alloc, &frame, tables, Budget { nodes: budget }, rounds)
}

// Refuses the first table with a connection.
fn check_connections(doc: &Doc) -> Result<(), Failure>
    ensures unconnected { OnOk result (IsUnconnected doc.now (length doc.now.tables)) }

    ensures connected { IfErr result (HasConnection doc.now) }
{
    for table in 0..tables_of(doc) {
        if connections_of(table_of(doc, table)) > 0 {
            return Err(Failure::Connected { table });
        }
    }
    Ok(())
}

// The text of a document that has these tables, with the sections that their repairs make, and their certificates.
fn repair_document(
    alloc: Global,
    doc: &Frame,
    tables: Vec<Table>,
    budget: Budget,
    rounds: u32,
) -> Result<Vec<u8>, Failure>
    requires formed { IsDoc doc.now }
    requires taken { IsTaken doc.now }
    requires tables { tables.items ≡ tables_in doc.now }
    requires unconnected { IsUnconnected doc.now (length doc.now.tables) }
    ensures repaired { IfOk result (λ text. IsRepaired doc.now budget.nodes rounds text.items) }

    ensures unrepaired { IfErr result (λ e. (e ≡ NoMemory) ⊎ FailsToRepair doc.now budget.nodes rounds e) }
{
    let mut parts = Vec::new(alloc);
    for table in tables {
        repair_next(alloc, doc, &mut parts, table, budget, rounds)?;
    }
    text_of_parts(alloc, doc, &parts)
}

// Adds the next table of a document so. If it is the first, the start is judged under its new sections.
fn repair_next(
    alloc: Global,
    doc: &Frame,
    parts: &mut Vec<(Table, Cert)>,
    table: Table,
    budget: Budget,
    rounds: u32,
) -> Result<(), Failure>
    requires formed { IsDoc doc.now }
    requires number { length parts.old.items < length doc.now.tables }
    requires table { table ≡ table_at doc.now (length parts.old.items) }
    requires earlier { AreRepaired doc.now budget.nodes rounds (length parts.old.items) parts.old.items }
    ensures repaired { OnOk result (AreRepaired doc.now budget.nodes rounds (length parts.old.items + 1) parts.new.items) }

    ensures unrepaired { IfErr result (λ e. (e ≡ NoMemory) ⊎ RepairsNone table (length parts.old.items) budget.nodes rounds e
        ⊎ ((length parts.old.items ≡ 0) × IsRefusedStart table doc.now.start budget.nodes rounds e)) }
{
    let number = parts.len() as u32;
    parts.push(repair_one(alloc, doc.layout(), number, table, budget, rounds)?)?;
    if number > 0 {
        return Ok(());
    }
    check_start(&parts[0].0, doc.start())
}

// The missions of a table, that has this number, with the sections that a repair makes, and the certificate.
fn repair_one(
    alloc: Global,
    layout: &Layout,
    number: u32,
    table: Table,
    budget: Budget,
    rounds: u32,
) -> Result<(Table, Cert), Failure>
    ensures repaired { IfOk result (λ p. IsRepairedAs table budget.nodes rounds p.0 p.1) }
    ensures dooms { IfOk result (λ p. (n : ℕ) → DoomsAlike table.missions (Done p.0 p.1 n)) }

    ensures none { IfErr result (λ e. (e ≡ NoMemory) ⊎ RepairsNone table number budget.nodes rounds e) }
{
    match repair_missions(alloc, layout, table.into_missions(), budget, rounds)? {
        Repair::Done { table, cert, .. } => Ok((table, cert)),
        Repair::Spent { nodes, .. } => Err(Failure::Spent {
            table: number,
            nodes,
        }),
        Repair::Rounds { rounds, at, .. } => Err(Failure::Rounds {
            table: number,
            rounds,
            at,
        }),
        Repair::Many { count, .. } => Err(Failure::Many {
            table: number,
            count,
        }),
    }
}
