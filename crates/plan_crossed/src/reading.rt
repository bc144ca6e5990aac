// Plans with crossings from their texts.
ghost use Rattle.std.specs.Prelude.{◌<◌, IfOk, vec_len};
ghost use Rattle.toml.specs.View.{table_view};
ghost use Rattle.plan_patterns.specs.Expanded.{expanded};
ghost use Rattle.plan_reading.specs.Said.{IsPlanRead};
ghost use Rattle.plan_reading.specs.declared.reading.PlanRead.TheVariants.{Plan as AsPlan};
ghost use Rattle.plan_crossed.specs.Read.{IsCrossedRead, IsReadWith};

use crate::adding::crossed;
use plan_document::Plan;
use plan_entries::{Fault, Faults};
use plan_patterns::expand;
use plan_reading::{PlanRead, read_plan};
use std::alloc::{AllocError, Global};
use toml::Table;

// The faults that were found, and one at least.
fn all_faults(alloc: Global, faults: Faults) -> Result<Vec<Fault>, AllocError>
    ensures { IfOk result (λ list. 0 < vec_len list) }
{
    let mut list = faults.into_list()?;
    if list.is_empty() {
        let words = String::from_str(alloc, "the crossings of the plan aren't what its text says")?;
        list.push(Fault { line: 1, words })?;
    }
    Ok(list)
}

// A plan with the crossings of its text, written out.
fn read_plain(
    alloc: Global,
    faults: Faults,
    text: &Table,
    plan: Plan,
) -> Result<PlanRead, AllocError>
    ensures { IfOk result (λ read. IsReadWith (table_view text.now) plan read) }
{
    let mut faults = faults;
    match crossed(&mut faults, text, plan)? {
        Some(plan) => Ok(PlanRead::Plan(plan)),
        None => Ok(PlanRead::Faults(all_faults(alloc, faults)?)),
    }
}

// A plan with the crossings of its table of keys.
fn read_table(alloc: Global, text: &str, table: Table, plan: Plan) -> Result<PlanRead, AllocError>
    ensures { IfOk result (IsReadWith (expanded (table_view table)) plan) }
{
    let mut faults = Faults::new(alloc, text)?;
    match expand(&mut faults, table)? {
        Some(plain) => read_plain(alloc, faults, &plain, plan),
        None => Ok(PlanRead::Faults(all_faults(alloc, faults)?)),
    }
}

// A plan with the crossings of its text, which is TOML.
fn read_text(alloc: Global, text: &str, plan: Plan) -> Result<PlanRead, AllocError>
    requires { IsPlanRead text.now (AsPlan plan) }
    ensures { IfOk result (IsCrossedRead text.now) }
{
    match toml::table_from_str(alloc, text) {
        Ok(table) => {
            let read = read_table(alloc, text, table, plan)?;
            Ok(read)
        }
        Err(_) => Err(AllocError),
    }
}

// A plan with the crossings of its text.
fn read_bytes(alloc: Global, text: &[u8], plan: Plan) -> Result<PlanRead, AllocError>
    requires { IsPlanRead text.now (AsPlan plan) }
    ensures { IfOk result (IsCrossedRead text.now) }
{
    match std::str::from_utf8(text) {
        Ok(words) => read_text(alloc, words, plan),
        Err(_) => unreachable!(),
    }
}

/// Reads a plan in TOML as [`read_plan`] does, and adds the sections of its crossings before those of each table.
///
/// The lists of tables `crossing`, `scissors` and `ladder` may be at its top.
///
/// - A crossing has `ways`, a table of lists of points, by names, and may have `parallel`, a list of lists of these names: trains may be
///   on two ways at once only if these are parallel.
/// - Scissors have `tracks`, two lists of three points: the tracks are parallel, and no other ways from the beginning of one of them to
///   the end of one are.
/// - A ladder has a `name`, which is its point, and `leads` and `roads`, two lists of points: a way goes from each lead over the point to each
///   road, and no two are parallel.
///
/// A train is on a way while it is between its ends, and goes on from one of them to the other. So a train that comes to a point
/// between the ends of a way has to come along one of the ways.
pub fn read_crossed_plan(alloc: Global, text: &[u8]) -> Result<PlanRead, AllocError>
    ensures { IfOk result (IsCrossedRead text.now) }
{
    match read_plan(alloc, text)? {
        PlanRead::Plan(plan) => read_bytes(alloc, text, plan),
        PlanRead::Faults(faults) => Ok(PlanRead::Faults(faults)),
    }
}
