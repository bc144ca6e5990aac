// Tables with the sections of chains. Nothing is promised of the sections: they are tested afterwards.
ghost use Rattle.std.specs.Prelude.{◌≡◌, ◌<◌, ℕ, [], ◌∷◌, ◌++◌, List, IfOk, length};
ghost use Rattle.rail_model.specs.Table.{IsTable, Section as SectionValue, Table as TableValue};
ghost use Rattle.order_sections.specs.Grids.{table_at};
ghost use Rattle.order_sections.specs.Orders.{with_more};

use crate::OrderRefused;
use crate::pairs::table_in;
use order_search::{Chain, sections_of_chains};
use rail_model::{Section, Table, TryCopy, copy_all, copy_missions};
use section_marks::{Marks, connections, sections};
use std::alloc::{AllocError, Global};

// Two lists of sections, one behind the other.
fn joined(alloc: Global, own: &[Section], more: &[Section]) -> Result<Vec<Section>, AllocError>
    ensures { IfOk result (λ all. all.items ≡ own.now ++ more.now) }
{
    let mut all = copy_all(alloc, own)?;
    for section in more {
        all.push(section.try_copy(alloc)?)?;
    }
    Ok(all)
}

// A table with more sections behind its own.
fn extended(alloc: Global, table: &Table, more: &[Section]) -> Result<Table, OrderRefused>
    ensures more { IfOk result (λ made. made ≡ with_more table.now more.now) }
    ensures formed { IfOk result IsTable }
{
    let missions = copy_missions(alloc, table)?;
    let all = joined(alloc, table.sections(), more)?;
    let links = Vec::from_slice(alloc, table.connections())?;
    let marked = sections(missions, all, Marks::Four)?;
    match connections(marked, links) {
        Ok(made) => Ok(made),
        Err(_) => Err(OrderRefused::Untrue),
    }
}

// Adds a table with the sections of chains behind its own.
fn add_extended(
    alloc: Global,
    table: &Table,
    chains: &[Chain],
    made: &mut Vec<Table>,
) -> Result<(), OrderRefused>
    ensures { IfOk result (λ _. (x : TableValue) × (more : List SectionValue) × (made.new.items ≡ made.old.items ++ x ∷ [])
        × IsTable x × (x ≡ with_more table.now more)) }
{
    let sections = sections_of_chains(alloc, table, chains)?;
    made.push(extended(alloc, table, &sections)?)?;
    Ok(())
}

// The chains of the table with a number.
pub(crate) fn chains_in(chains: &[Vec<Chain>], table: usize) -> &[Chain] {
    match chains.get(table) {
        Some(chains) => chains.as_slice(),
        None => &[],
    }
}

/// The tables with the sections of chains behind their own.
pub(crate) fn all_extended(
    alloc: Global,
    tables: &[Table],
    chains: &[Vec<Chain>],
) -> Result<Vec<Table>, OrderRefused>
    ensures count { IfOk result (λ made. length made.items ≡ length tables.now) }
    ensures formed { IfOk result (λ made. (t : ℕ) → t < length tables.now → IsTable (table_at made.items t)) }
    ensures adds { IfOk result (λ made. (t : ℕ) → t < length tables.now
        → (more : List SectionValue) × (table_at made.items t ≡ with_more (table_at tables.now t) more)) }
{
    let mut made = Vec::new(alloc);
    for number in 0..tables.len() {
        add_extended(
            alloc,
            table_in(tables, number),
            chains_in(chains, number),
            &mut made,
        )?;
    }
    Ok(made)
}
