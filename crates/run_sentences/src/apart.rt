// Places at which two of the trains are never both, since the tracks keep these two in an order.
ghost use Rattle.std.specs.Prelude.{◌≡◌, ◌<◌, length, map, IfOk, IfSome};
ghost use Rattle.document_json.specs.Doc.{offers_of};
ghost use Rattle.legal_state.specs.Causes.{IsInRange};
ghost use Rattle.order_sections.specs.Grids.{table_at};
ghost use Rattle.rail_model.specs.Table.{trains};
ghost use Rattle.run_sentences.specs.Told.{AreApart, PassALimit};

use document_json::{Doc, start_of, table_of, tables_of};
use legal_state::{Illegal, judge};
use order_sections::{OrderRefused, Two, order};
use rail_model::{State, Table, copy_table, limit_of, sections_of, share_at, trains_of};
use std::alloc::{AllocError, Global};

// The tables of a document, copied.
fn tables_copied(alloc: Global, doc: &Doc) -> Result<Vec<Table>, AllocError>
    ensures { IfOk result (λ tables. tables.items ≡ map (λ t. t.table) doc.now.tables) }
{
    let mut tables = Vec::new(alloc);
    for number in 0..tables_of(doc) {
        tables.push(copy_table(alloc, table_of(doc, number))?)?;
    }
    Ok(tables)
}

// A train behind `first` that passes the limit of a section together with it, by their two shares alone.
fn other_over(table: &Table, section: u32, at: &State, first: u32) -> Option<Two>
    requires size { length at.now ≡ trains table.now }
    requires in_range { IsInRange table.now at.now }
    requires section { section < length table.now.sections }
    requires first { first < trains table.now }
    ensures { IfSome result (PassALimit table.now at.now) }
{
    let share = share_at(table, first, section, at.place(first));
    let limit = limit_of(table, section) as i32;
    for second in first + 1..trains_of(table) {
        if share + share_at(table, second, section, at.place(second)) > limit {
            return Some(Two { first, second });
        }
    }
    None
}

// Two trains that pass the limit of a section by their two shares alone.
fn two_over(table: &Table, section: u32, at: &State) -> Option<Two>
    requires size { length at.now ≡ trains table.now }
    requires in_range { IsInRange table.now at.now }
    requires section { section < length table.now.sections }
    ensures { IfSome result (PassALimit table.now at.now) }
{
    for first in 0..trains_of(table) {
        if let Some(two) = other_over(table, section, at, first) {
            return Some(two);
        }
    }
    None
}

// Such two trains of a section from a number on.
fn two_from(table: &Table, section: u32, at: &State) -> Option<Two>
    requires size { length at.now ≡ trains table.now }
    requires in_range { IsInRange table.now at.now }
    ensures { IfSome result (PassALimit table.now at.now) }
{
    for section in section..sections_of(table) {
        if let Some(two) = two_over(table, section, at) {
            return Some(two);
        }
    }
    None
}

// Such two trains of one of the tables.
fn two_in(tables: &[Table], table: u32, at: &State) -> Option<Two>
    ensures { IfSome result (λ two. (table < length tables.now) × PassALimit (table_at tables.now table) at.now two) }
{
    let table = tables.get(table as usize)?;
    match judge(table, at) {
        Err(Illegal::Over { section, .. }) => two_from(table, section, at),
        _ => None,
    }
}

/// Two trains that no run from the start of a document has both at these places under a table, if sections that keep
/// forced orders tell of such two.
pub(crate) fn two_apart(
    alloc: Global,
    doc: &Doc,
    table: u32,
    at: &State,
) -> Result<Option<Two>, AllocError>
    ensures { IfOk result (λ found. IfSome found (AreApart (offers_of doc.now) doc.now.start table at.now)) }
{
    let tables = tables_copied(alloc, doc)?;
    match order(alloc, &tables, start_of(doc)) {
        Ok(made) => Ok(two_in(&made.tables, table, at)),
        Err(OrderRefused::Memory) => Err(AllocError),
        Err(OrderRefused::Untrue) => Ok(None),
    }
}
