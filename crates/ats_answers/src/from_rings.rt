// Sections that are derived from rings.
ghost use Rattle.std.specs.Prelude.{◌≡◌, ◌⊎◌, ◌<◌, ◌≤◌, ◌^◌, ◌++◌, ◌∷◌, [], All, length, IfOk, IfErr, OnOk};
ghost use Rattle.rail_model.specs.State.{Legal};
ghost use Rattle.ring_sections.specs.Ring.{IsRing};
ghost use Rattle.ring_sections.specs.Marking.{ring_table};
ghost use Rattle.document_json.specs.Doc.{IsDoc};
ghost use Rattle.document_json.specs.Keeps.{IsTaken};
ghost use Rattle.accepted_documents.specs.Accepting.{IsDocWith};
ghost use Rattle.ats_answers.specs.Refusing.{RefusesDerive};
ghost use Rattle.ats_answers.specs.Deriving.{derived, derived_table, HasFewRings, HaveFewRings, HasTooManyRings, HasManyRings, IsDerived, FailsToDerive};
ghost use Rattle.ats_answers.specs.Making.{tables_in, table_in};
ghost use Rattle.ats_answers.specs.Starting.{IsBadStart};
ghost use Rattle.ats_answers.specs.declared.failure.Failure.TheVariants.{Memory as NoMemory};

use crate::Failure;
use crate::checked::read_document;
use crate::making::{make_each, text_of_parts};
use crate::starting::check_start;
use cert_maker::Budget;
use document_json::{Frame, tables_apart};
use rail_model::Table;
use ring_sections::{Ring, Rings, mark_rings, rings};
use std::alloc::{AllocError, Global};

/// The text of a document with the sections of its rings of at most `most` trains, and certificates made of them.
///
/// # Errors
///
/// There was no memory, the input is no document, a table has too many rings, the start isn't legal under the new first table, or a table
/// gets no certificate of at most `budget` nodes.
pub fn derive(alloc: Global, input: &[u8], most: u32, budget: u32) -> Result<Vec<u8>, Failure>
    requires least { 2 ≤ most }
    requires greatest { most ≤ 8 }
    requires some { 1 ≤ budget }
    requires enough { budget ≤ 1000000 }
    ensures derived { IfOk result (λ text. IsDocWith input.now (λ D. IsDerived D most budget text.items)) }

    ensures underived { IfErr result (λ e. (e ≡ NoMemory) ⊎ RefusesDerive input.now most budget e) }
{
    let doc = read_document(alloc, input)?;
    let (frame, tables) = tables_apart(alloc, doc)?;
    derive_document(alloc, &frame, tables, most, Budget { nodes: budget })
}

// The text of a document that has these tables, with the sections of its rings, and certificates made of them.
fn derive_document(
    alloc: Global,
    doc: &Frame,
    tables: Vec<Table>,
    most: u32,
    budget: Budget,
) -> Result<Vec<u8>, Failure>
    requires least { 2 ≤ most }
    requires greatest { most ≤ 8 }
    requires taken { IsTaken doc.now }
    requires tables { tables.items ≡ tables_in doc.now }
    ensures derived { IfOk result (λ text. IsDerived doc.now most budget.nodes text.items) }

    ensures underived { IfErr result (λ e. (e ≡ NoMemory) ⊎ FailsToDerive doc.now most budget.nodes e) }
{
    let marked = derive_all(alloc, doc, tables, most)?;
    let parts = make_each(alloc, marked, budget)?;
    text_of_parts(alloc, doc, &parts)
}

// Each of a document's tables with the sections of its rings, if the start is legal under the first of them.
fn derive_all(
    alloc: Global,
    doc: &Frame,
    tables: Vec<Table>,
    most: u32,
) -> Result<Vec<Table>, Failure>
    requires least { 2 ≤ most }
    requires greatest { most ≤ 8 }
    requires tables { tables.items ≡ tables_in doc.now }
    ensures tables { IfOk result (λ marked. marked.items ≡ derived doc.now most) }
    ensures few { OnOk result (HaveFewRings doc.now most) }
    ensures start { OnOk result (Legal (table_in (derived doc.now most) 0) doc.now.start) }
    ensures formed { IsDoc doc.now }

    ensures refused { IfErr result (λ e. (e ≡ NoMemory) ⊎ HasManyRings doc.now most e
        ⊎ (HaveFewRings doc.now most × IsBadStart (table_in (derived doc.now most) 0) doc.now.start e)) }
{
    let start = doc.start();
    let mut marked = Vec::new(alloc);
    for table in tables {
        derive_next(alloc, &mut marked, table, most)?;
    }
    check_start(&marked[0], start)?;
    Ok(marked)
}

// Adds the next table with the sections of its rings.
fn derive_next(
    alloc: Global,
    marked: &mut Vec<Table>,
    table: Table,
    most: u32,
) -> Result<(), Failure>
    requires least { 2 ≤ most }
    requires greatest { most ≤ 8 }
    requires count { length marked.old.items < 2 ^ 32 }
    ensures table { OnOk result (marked.new.items ≡ marked.old.items ++ derived_table most table ∷ []) }
    ensures few { OnOk result (HasFewRings most table) }

    ensures many { IfErr result (λ e. (e ≡ NoMemory) ⊎ HasTooManyRings most table (length marked.old.items) e) }
{
    let number = marked.len() as u32;
    let derived = derive_one(alloc, number, table, most)?;
    marked.push(derived)?;
    Ok(())
}

// A table, which has this number, with the sections of its rings in place of its own.
fn derive_one(alloc: Global, number: u32, table: Table, most: u32) -> Result<Table, Failure>
    requires least { 2 ≤ most }
    requires greatest { most ≤ 8 }
    ensures table { IfOk result (λ T. T ≡ derived_table most table) }
    ensures few { OnOk result (HasFewRings most table) }

    ensures many { IfErr result (λ e. (e ≡ NoMemory) ⊎ HasTooManyRings most table number e) }
{
    match rings(alloc, table.missions(), most) {
        Ok(rings) => Ok(with_rings(alloc, table, &rings)?),
        Err(Rings::Many { count }) => Err(Failure::Many {
            table: number,
            count,
        }),
        Err(Rings::Memory) => Err(Failure::Memory),
    }
}

// A table with the sections of these rings in place of its own. The only error is that there is no memory.
fn with_rings(alloc: Global, table: Table, rings: &[Ring]) -> Result<Table, AllocError>
    requires few { length rings.now ≤ 64 }
    requires rings { All (IsRing table.missions) rings.now }
    ensures { IfOk result (λ T. T ≡ record (ring_table table.missions rings.now) { connections = table.connections }) }
{
    let (missions, _sections, connections) = table.into_parts();
    Ok(mark_rings(alloc, missions, rings)?.with_connections(connections))
}
