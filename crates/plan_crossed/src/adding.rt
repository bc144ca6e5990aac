// Tables with the sections of crossings.
ghost use Rattle.std.specs.Prelude.{IfOk, IfSome};
ghost use Rattle.std.specs.List.{AllZip};
ghost use Rattle.toml.specs.View.{table_view};
ghost use Rattle.plan_crossed.specs.Crossed.{AddsCrossings, AddsSections, HasCrossingsOf, HasMore};

use crate::entries::{are_known, crossings, have_tracks};
use crate::numbers::routes_by_numbers;
use crate::telling::tell_refused;
use plan_crossings::{Crossing, sections_of_crossings};
use plan_document::{Plan, SectionPlan, TablePlan};
use plan_entries::Faults;
use std::alloc::AllocError;
use toml::Table;

// A table with these sections before its own.
fn with_sections(table: TablePlan, sections: Vec<SectionPlan>) -> Result<TablePlan, AllocError>
    ensures { IfOk result (HasMore sections.items table) }
{
    let mut table = table;
    let mut sections = sections;
    sections.append(&mut table.sections)?;
    table.sections = sections;
    Ok(table)
}

// A table with the sections of crossings before its own; none, if something is wrong, which is told.
fn crossed_table(
    faults: &mut Faults,
    text: &Table,
    plan: &Plan,
    crossings: &[Crossing],
    number: usize,
    table: TablePlan,
) -> Result<Option<TablePlan>, AllocError>
    ensures { IfOk result (λ new. IfSome new (AddsSections crossings.now plan.now.points.items table)) }
{
    let alloc = faults.alloc();
    let routes = routes_by_numbers(alloc, &plan.points, &table)?;
    match sections_of_crossings(alloc, crossings, &routes, table.sections.len()) {
        Ok(sections) => Ok(Some(with_sections(table, sections)?)),
        Err(refused) => {
            tell_refused(faults, text, plan, number, &table, refused)?;
            Ok(None)
        }
    }
}

// Each of these tables with the sections of crossings before its own.
#[tactic(auto, using(crate::proofs::With::table_more))]
fn all_crossed(
    faults: &mut Faults,
    text: &Table,
    plan: &Plan,
    crossings: &[Crossing],
    tables: Vec<TablePlan>,
) -> Result<Option<Vec<TablePlan>>, AllocError>
    ensures { IfOk result (λ new. IfSome new (λ new. AllZip (AddsSections crossings.now plan.now.points.items) tables.items new.items)) }
{
    let mut found = Vec::new(faults.alloc());
    for table in tables {
        match crossed_table(faults, text, plan, crossings, found.len(), table)? {
            Some(table) => found.push(table)?,
            None => return Ok(None),
        }
    }
    Ok(Some(found))
}

// A plan with the sections of crossings before those of each table; none, if something is wrong, which is told.
fn with_crossings(
    faults: &mut Faults,
    text: &Table,
    crossings: &[Crossing],
    plan: Plan,
) -> Result<Option<Plan>, AllocError>
    ensures { IfOk result (λ new. IfSome new (AddsCrossings crossings.now plan)) }
{
    let mut plan = plan;
    let tables = std::mem::replace(&mut plan.tables, Vec::new(faults.alloc()));
    match all_crossed(faults, text, &plan, crossings, tables)? {
        Some(tables) => {
            plan.tables = tables;
            Ok(Some(plan))
        }
        None => Ok(None),
    }
}

/// A plan with the crossings of a text; none, if something is wrong, which is told.
#[tactic(auto, using(crate::proofs::With::has_none, crate::proofs::With::has_some))]
pub(crate) fn crossed(
    faults: &mut Faults,
    text: &Table,
    plan: Plan,
) -> Result<Option<Plan>, AllocError>
    ensures { IfOk result (λ new. IfSome new (HasCrossingsOf (table_view text.now) plan)) }
{
    let found = crossings(faults, &plan, text)?;
    if !faults.is_empty() || !are_known(&found, plan.points.len()) || !have_tracks(text) {
        return Ok(None);
    }
    if found.is_empty() {
        return Ok(Some(plan));
    }
    with_crossings(faults, text, &found, plan)
}
