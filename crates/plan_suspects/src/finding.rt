// Points of routes that are probably mistyped, if no lines say which tracks there are.
ghost use Rattle.std.specs.Prelude.{◌≡◌, ◌++◌, IfOk, OnOk, length, option_copied, slice_get};
ghost use Rattle.std.specs.Str.{str_eq_ignore_ascii_case};
ghost use Rattle.plan_suspects.specs.Suspects as spec;

use crate::letters::is_one_letter_off;
use plan_document::{Plan, TablePlan, before, behind, is_among, is_linked, point_at};
use std::alloc::{AllocError, Global};

/// A point of a route that is probably mistyped: the table, the train and the place of its route, and the number of the point that was
/// meant, among those of the plan.
#[derive(Clone, Copy)]
pub struct Suspect {
    pub table: usize,
    pub train: usize,
    pub place: usize,
    pub meant: usize,
}

// Whether a train of a table doesn't come to a point, unless it is this one.
fn stays_off(table: &TablePlan, train: usize, point: &str, other: usize) -> bool
    ensures { result ≡ spec.stays_off table.now train point.now other }
{
    other == train || !is_among(table.route(other), point)
}

// Whether no other train of a table than this one comes to a point.
fn is_alone_in(table: &TablePlan, train: usize, point: &str) -> bool
    ensures { result ≡ spec.is_alone_in table.now train point.now }
{
    (0..table.routes.len()).all(|other| stays_off(table, train, point, other))
}

// Whether no other train than this one comes to a point, under any table.
#[tactic(auto, unfolding(crate::specs::Suspects::is_alone))]
fn is_alone(tables: &[TablePlan], train: usize, point: &str) -> bool
    ensures { result ≡ spec.is_alone tables.now train point.now }
{
    tables.iter().all(|table| is_alone_in(table, train, point))
}

// Whether a route comes to a point once.
fn comes_once(route: &[String], point: &str) -> bool
    ensures { result ≡ spec.comes_once route.now point.now }
{
    route.iter().filter(|name| point == name.as_str()).count() == 1
}

// Whether a route, under any table, has two points side by side.
#[tactic(auto, unfolding(crate::specs::Suspects::lie_together))]
fn lie_together(tables: &[TablePlan], one: &str, other: &str) -> bool
    ensures { result ≡ spec.lie_together tables.now one.now other.now }
{
    tables
        .iter()
        .any(|table| is_linked(&table.routes, one, other))
}

// Whether two names are the same but for the case of letters.
fn are_same(one: &str, other: &str) -> bool
    ensures { result ≡ str_eq_ignore_ascii_case one.now other.now }
{
    one.eq_ignore_ascii_case(other)
}

// Whether two names are the same but for one letter or the case of letters.
fn are_alike(one: &str, other: &str) -> bool
    ensures { result ≡ spec.are_alike one.now other.now }
{
    are_same(one, other) || is_one_letter_off(one.as_bytes(), other.as_bytes())
}

// Whether a point lies beside two others.
fn lies_between(tables: &[TablePlan], one: &String, other: &String, point: &str) -> bool
    ensures { result ≡ spec.lies_between tables.now one.now other.now point.now }
{
    lie_together(tables, one.as_str(), point) && lie_together(tables, other.as_str(), point)
}

// Whether a route that comes from one point over another to a third could have meant to go over this point.
#[tactic(auto, unfolding(crate::specs::Suspects::could_be))]
fn could_be(
    tables: &[TablePlan],
    one: Option<&String>,
    here: &str,
    other: Option<&String>,
    point: &str,
) -> bool
    ensures { result ≡ spec.could_be tables.now (option_copied one.entry) here.now (option_copied other.entry) point.now }
{
    match one {
        Some(one) => match other {
            Some(other) => are_alike(here, point) && lies_between(tables, one, other, point),
            None => are_same(here, point),
        },
        None => are_same(here, point),
    }
}

// Whether it is another point, and could have been meant.
fn is_meant(
    tables: &[TablePlan],
    one: Option<&String>,
    here: &str,
    other: Option<&String>,
    point: &str,
) -> bool
    ensures { result ≡ spec.is_meant tables.now (option_copied one.entry) here.now (option_copied other.entry) point.now }
{
    here != point && could_be(tables, one, here, other, point)
}

// The first point of a plan that a route could have meant which comes from one point over another to a third.
fn meant_for(plan: &Plan, one: Option<&String>, here: &str, other: Option<&String>) -> Option<usize>
    ensures { result ≡ spec.meant_for plan.now (option_copied one.entry) here.now (option_copied other.entry) }
{
    plan.points.iter().position(|point| is_meant(&plan.tables, one, here, other, point.0.as_str()))
}

// Whether a point is named once in all: by a train that is alone there, and once by its route.
fn is_named_once(plan: &Plan, train: usize, route: &[String], point: &str) -> bool
    ensures { result ≡ spec.is_named_once plan.now train route.now point.now }
{
    is_alone(&plan.tables, train, point) && comes_once(route, point)
}

// The point that a train could have meant, if its route comes from one point to another that is named once in all.
fn meant_there(
    plan: &Plan,
    train: usize,
    route: &[String],
    one: Option<&String>,
    here: Option<&String>,
    other: Option<&String>,
) -> Option<usize>
    ensures { result ≡ spec.meant_there plan.now train route.now (option_copied one.entry) (option_copied here.entry) (option_copied other.entry) }
{
    let here = here?.as_str();
    if is_named_once(plan, train, route, here) {
        meant_for(plan, one, here, other)
    } else {
        None
    }
}

// The point that a train could have meant at a place of its route.
#[tactic(auto, unfolding(crate::specs::Suspects::meant_at))]
fn meant_at(plan: &Plan, train: usize, route: &[String], place: usize) -> Option<usize>
    ensures { result ≡ spec.meant_at plan.now train route.now place }
{
    let one = before(route, place);
    let here = point_at(route, place);
    meant_there(plan, train, route, one, here, behind(route, place))
}

// Adds the suspect at a place of a train's route, if its point is one.
fn push_place(
    found: &mut Vec<Suspect>,
    plan: &Plan,
    table: usize,
    train: usize,
    route: &[String],
    place: usize,
) -> Result<(), AllocError>
    ensures { OnOk result (found.new.items ≡ found.old.items ++ spec.suspect_at plan.now table train route.now place) }
{
    if let Some(meant) = meant_at(plan, train, route, place) {
        found.push(Suspect {
            table,
            train,
            place,
            meant,
        })?;
    }
    Ok(())
}

// Adds those of a train's route.
fn push_route(
    found: &mut Vec<Suspect>,
    plan: &Plan,
    table: usize,
    train: usize,
    route: &[String],
) -> Result<(), AllocError>
    ensures { OnOk result (found.new.items ≡ found.old.items ++ spec.suspects_on plan.now table train route.now) }
{
    for place in 0..route.len() {
        push_place(found, plan, table, train, route, place)?;
    }
    Ok(())
}

// Adds those of a table.
fn push_table(
    found: &mut Vec<Suspect>,
    plan: &Plan,
    number: usize,
    table: &TablePlan,
) -> Result<(), AllocError>
    ensures { OnOk result (found.new.items ≡ found.old.items ++ spec.suspects_under plan.now number table.now (length table.now.routes.items)) }
{
    for train in 0..table.routes.len() {
        push_route(found, plan, number, train, table.route(train))?;
    }
    Ok(())
}

// The table of a number, if it is there.
fn table_at(plan: &Plan, number: usize) -> Option<&TablePlan>
    ensures { option_copied result ≡ slice_get plan.now.tables.items number }
{
    plan.tables.get(number)
}

// Adds those of a table, if it is there.
fn push_number(found: &mut Vec<Suspect>, plan: &Plan, number: usize) -> Result<(), AllocError>
    ensures { OnOk result (found.new.items ≡ found.old.items ++ spec.suspects_in plan.now number) }
{
    match table_at(plan, number) {
        Some(table) => push_table(found, plan, number, table),
        None => Ok(()),
    }
}

// Those of all tables.
fn all_suspects(alloc: Global, plan: &Plan) -> Result<Vec<Suspect>, AllocError>
    ensures { IfOk result (λ found. found.items ≡ spec.suspects_below plan.now (length plan.now.tables.items)) }
{
    let mut found = Vec::new(alloc);
    for number in 0..plan.tables.len() {
        push_number(&mut found, plan, number)?;
    }
    Ok(found)
}

/// The points of a plan's routes that are probably mistyped, if no lines say which tracks there are: a point within a route that is named
/// once in all, and is one letter off another that lies beside the same points; at an end of a route, one that differs from another in
/// case alone. They are in the order of tables, trains and places.
#[tactic(auto, unfolding(crate::specs::Suspects::suspects))]
pub fn suspects(alloc: Global, plan: &Plan) -> Result<Vec<Suspect>, AllocError>
    ensures { IfOk result (λ found. found.items ≡ spec.suspects plan.now) }
{
    if plan.lines.is_empty() {
        all_suspects(alloc, plan)
    } else {
        Ok(Vec::new(alloc))
    }
}
