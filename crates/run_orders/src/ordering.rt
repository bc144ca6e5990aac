// A document with the orders of a run.
ghost use Rattle.std.specs.Prelude.{◌≡◌, map, IfOk, IsTrue};
ghost use Rattle.rail_model.specs.State.{Legal};
ghost use Rattle.document_json.specs.Keeps.{IsTaken};
ghost use Rattle.document_json.specs.Migrated.{IsMigrated};
ghost use Rattle.order_sections.specs.Grids.{table_at};
ghost use Rattle.run_orders.specs.RunOrdered.{HaveMore, IsOrderedByRun, IsTextWithRun};

use crate::RunRefused;
use crate::drawing::verified;
use document_json::{Doc, Frame, migrate, replaced, tables_apart, version, write};
use document_orders::{OrderedDoc, has_no_room, with_certs};
use legal_state::judge;
use move_journal::{BadLine, Journal};
use order_sections::{Ordered, order_by_run};
use rail_model::{State, Table};
use std::alloc::Global;

// Whether a start is legal under the first of these tables.
fn is_legal(tables: &[Table], start: &State) -> bool
    ensures { IsTrue result → Legal (table_at tables.now 0) start.now }
{
    !tables.is_empty() && judge(&tables[0], start).is_ok()
}

// The orders of a run, with the tables that they make of those of a document.
fn orders_of(
    alloc: Global,
    later: &Frame,
    tables: &[Table],
    run: &Journal,
) -> Result<Ordered, RunRefused>
    requires { tables.now ≡ map (λ t. t.table) later.now.tables }
    ensures { IfOk result (λ found. HaveMore later.now found.tables.items) }
{
    let found = order_by_run(alloc, tables, later.start(), run.lines())?;
    if has_no_room(tables, &found) {
        return Err(RunRefused::NoRoom);
    }
    if !is_legal(&found.tables, later.start()) {
        return Err(RunRefused::Untrue);
    }
    Ok(found)
}

// The text of a document, if the run is one of it.
fn text_if_run(alloc: Global, made: &Doc, run: &Journal) -> Result<Vec<u8>, RunRefused>
    ensures { IfOk result (λ text. IsTextWithRun made.now run.now text.items) }
{
    match verified(alloc, made, run) {
        Ok(()) => Ok(write(alloc, made)?),
        Err(BadLine::Memory) => Err(RunRefused::Memory),
        Err(_) => Err(RunRefused::Untrue),
    }
}

// The text of a document, in a later version, with these tables, if the run is one of it.
fn text_with(
    alloc: Global,
    doc: &Doc,
    later: &Frame,
    tables: &[Table],
    run: &Journal,
) -> Result<Vec<u8>, RunRefused>
    requires migrated { IsMigrated doc.now later.now }
    requires taken { IsTaken later.now }
    requires more { HaveMore later.now tables.now }
    ensures { IfOk result (λ text. IsOrderedByRun doc.now run.now text.items) }
{
    let parts = with_certs(alloc, doc, tables)?;
    let made = replaced(alloc, later, &parts)?;
    text_if_run(alloc, &made, run)
}

// A document with the orders of a run, of the tables of it in a later version. Both are lent, so that they aren't dropped at each exit.
fn ordered_with(
    alloc: Global,
    doc: &Doc,
    later: &Frame,
    tables: &[Table],
    run: &Journal,
) -> Result<OrderedDoc, RunRefused>
    requires migrated { IsMigrated doc.now later.now }
    requires taken { IsTaken later.now }
    requires tables { tables.now ≡ map (λ t. t.table) later.now.tables }
    ensures { IfOk result (λ made. IsOrderedByRun doc.now run.now made.text.items) }
{
    let found = orders_of(alloc, later, tables, run)?;
    let text = text_with(alloc, doc, later, &found.tables, run)?;
    let Ordered {
        orders,
        chains,
        left_out,
        ..
    } = found;
    Ok(OrderedDoc {
        text,
        orders,
        chains,
        left_out,
    })
}

/// The document with sections behind its own that keep its trains in the order of a run of it: for each two trains the
/// order that the tracks force, or where they force none, the order in which the two come to the points that they share
/// in the run. So they may forbid what other runs reach. The run is one of the new document, too. It is in version 2 if
/// the document was in version 1. A certificate that isn't a tree is replaced by the smallest one; otherwise nothing but
/// the sections changes.
///
/// # Errors
///
/// There is no room for a section, or no memory; or the run isn't one of the new document, which isn't known to happen to a run of the
/// document.
pub fn ordered_by_run(alloc: Global, doc: &Doc, run: &Journal) -> Result<OrderedDoc, RunRefused>
    ensures { IfOk result (λ made. IsOrderedByRun doc.now run.now made.text.items) }
{
    let later = migrate(alloc, doc)?;
    let is_later = version(&later) > 1;
    prove!(is_later);
    let (frame, tables) = tables_apart(alloc, later)?;
    ordered_with(alloc, doc, &frame, &tables, run)
}
