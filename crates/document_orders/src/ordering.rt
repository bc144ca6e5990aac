// A document with orders.
ghost use Rattle.std.specs.Prelude.{◌≡◌, IfOk, map};
ghost use Rattle.document_json.specs.Keeps.{IsTaken};
ghost use Rattle.document_json.specs.Migrated.{IsMigrated};
ghost use Rattle.document_orders.specs.Ordered.{IsOrdered};

use crate::NotOrdered;
use crate::keeping::with_certs;
use document_json::{Doc, Frame, migrate, tables_apart, version, write_replaced};
use order_sections::{Chain, Order, Ordered, Two, order};
use rail_model::{Table, sections_of};
use std::alloc::Global;

// The most sections of a table.
const MOST_SECTIONS: u32 = 64;

/// The text of a document with orders. For each table, and each section that was added to it, in their order, `chains` has the trains that
/// it keeps one behind the other, and says why; `left_out` has the trains of the orders for which there was no room, as the one that leads
/// and the one that follows.
#[derive(Drop)]
pub struct OrderedDoc {
    pub text: Vec<u8>,
    pub orders: Vec<Order>,
    pub chains: Vec<Vec<Chain>>,
    pub left_out: Vec<Two>,
}

/// Whether nothing could be added to these tables for want of room.
pub fn has_no_room(tables: &[Table], found: &Ordered) -> bool {
    found.orders.is_empty()
        && (!found.left_out.is_empty()
            || tables
                .iter()
                .all(|table| sections_of(table) >= MOST_SECTIONS))
}

// A document with orders, of the tables of it in a later version. Both are lent, so that they aren't dropped at each exit.
fn ordered_with(
    alloc: Global,
    doc: &Doc,
    later: &Frame,
    tables: &[Table],
) -> Result<OrderedDoc, NotOrdered>
    requires migrated { IsMigrated doc.now later.now }
    requires taken { IsTaken later.now }
    requires tables { tables.now ≡ map (λ t. t.table) later.now.tables }
    ensures { IfOk result (λ made. IsOrdered doc.now made.text.items) }
{
    let found = order(alloc, tables, later.start())?;
    if has_no_room(tables, &found) {
        return Err(NotOrdered::NoRoom);
    }
    let parts = with_certs(alloc, doc, &found.tables)?;
    let text = write_replaced(alloc, later, &parts)?;
    let Ordered {
        orders,
        chains,
        left_out,
        ..
    } = found;
    Ok(OrderedDoc {
        text,
        orders,
        chains,
        left_out,
    })
}

/// The document with sections behind its own that keep trains in the order that the tracks force: they forbid only what no run from the
/// start reaches. It is in version 2 if it was in version 1. A certificate that isn't a tree is replaced by the smallest one; otherwise
/// nothing but the sections changes.
///
/// # Errors
///
/// There is no room for a section, or no memory.
pub fn ordered(alloc: Global, doc: &Doc) -> Result<OrderedDoc, NotOrdered>
    ensures { IfOk result (λ made. IsOrdered doc.now made.text.items) }
{
    let later = migrate(alloc, doc)?;
    let is_later = version(&later) > 1;
    prove!(is_later);
    let (frame, tables) = tables_apart(alloc, later)?;
    ordered_with(alloc, doc, &frame, &tables)
}
