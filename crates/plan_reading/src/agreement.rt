// Whether a plan is what its text says.
ghost use Rattle.std.specs.Prelude.{◌≡◌, ◌↔◌, codes, IfOk, IsTrue, option_and_then, option_copied, slice_get};
ghost use Rattle.std.specs.Option.{ForSome};
ghost use Rattle.toml.specs.Data.{get_item, get_member};
ghost use Rattle.toml.specs.View.{items_view, table_view, view};
ghost use Rattle.plan_reading.specs.Agreeing.{agree_values, is_named as is_named_of, seen, text_at as text_of};
ghost use Rattle.plan_reading.specs.Held.{is_section as is_section_of};
ghost use Rattle.plan_reading.specs.Said as spec;
ghost use Rattle.plan_reading.specs.Zoned.{are_zoned as are_zoned_of};
ghost use Rattle.plan_reading.specs.Said.{AgreesIn, AreTracks, EachTrain, IsPlanOf, StartAsSaid, TablesAsSaid};

use crate::held::is_section;
use crate::matching::{
    agree, are_names, is_due, is_exit, is_named, is_route, is_wait, list_at, says_yes, starts_at,
    text_at, value_at,
};
use crate::timed::are_times;
use crate::zoned::are_zoned;
use plan_document::{
    Plan, SectionPlan, TablePlan, Wait, has_free_ends, is_no_switch, keeps, point_at,
};
use std::alloc::{AllocError, Global};
use toml::{Table, Value};

// The entries of the list at a key of a text.
fn entries_at<'t>(text: &'t Table, key: &str) -> &'t [Value]
    ensures { items_view result.now ≡ spec.entries_at key.now (table_view text.now) }
{
    match text.get(key) {
        Some(value) => match value.as_array() {
            Some(values) => values.as_slice(),
            None => &[],
        },
        None => &[],
    }
}

// The entries that hold in a table: its own list at a key, or else that of the text.
fn entries_in<'t>(text: &'t Table, own: Option<&'t Value>, key: &str) -> &'t [Value]
    ensures { items_view result.now ≡ spec.entries_in key.now (table_view text.now) (seen own.entry) }
{
    match list_at(own, key) {
        Some(entries) => entries,
        None => entries_at(text, key),
    }
}

// The entry at an index, if there is one.
fn entry_at(entries: &[Value], index: usize) -> Option<&Value>
    ensures { seen result ≡ get_item index (items_view entries.now) }
{
    entries.get(index)
}

// What a table says itself, where these are the entries of the further tables: the first says nothing.
fn own_of(further: &[Value], number: usize) -> Option<&Value>
    ensures { seen result ≡ spec.own_of (items_view further.now) number }
{
    if number == 0 {
        None
    } else {
        entry_at(further, number - 1)
    }
}

// The first of these entries that has this name.
fn first_named<'t>(entries: &'t [Value], name: &String) -> Option<&'t Value>
    ensures { seen result ≡ spec.first_named (items_view entries.now) name.now }
{
    entries.iter().find(|entry| is_named(entry, name))
}

// What a table says itself of a train, if the train has a name.
fn change_of<'t>(own: Option<&'t Value>, name: Option<&String>) -> Option<&'t Value>
    ensures { seen result ≡ spec.change_of (seen own.entry) (option_copied name.entry) }
{
    match name {
        Some(name) => first_named(list_at(own, "train").unwrap_or(&[]), name),
        None => None,
    }
}

// What is said of a train at a key: what its table changes there, or else what its entry in the text has.
fn said_at<'t>(change: Option<&'t Value>, entry: Option<&'t Value>, key: &str) -> Option<&'t Value>
    ensures { seen result ≡ spec.said_at key.now (seen change.entry) (seen entry.entry) }
{
    match value_at(change, key) {
        Some(own) => Some(own),
        None => value_at(entry, key),
    }
}

// Whether a table has times of a train, and they are those that are said, with its dwell.
fn has_times(
    alloc: Global,
    said: Option<&Value>,
    dwell: Option<&Value>,
    table: &TablePlan,
    train: usize,
) -> Result<bool, AllocError>
    ensures { IfOk result (λ right. right ≡ spec.has_times (seen said.entry) (seen dwell.entry) (spec.route_in table.now train) (spec.exits_in table.now train) (slice_get table.now.times.items train)) }
{
    match table.times.get(train) {
        Some(times) => {
            let exits = table.exits_at(train);
            are_times(alloc, said, dwell, table.route(train), exits, times)
        }
        None => Ok(false),
    }
}

// Whether a train goes in a table as is said of it: its route, its exit, and its times with its dwell.
fn goes_as_said(
    alloc: Global,
    change: Option<&Value>,
    entry: Option<&Value>,
    table: &TablePlan,
    train: usize,
) -> Result<bool, AllocError>
    ensures { IfOk result (λ right. right ≡ spec.goes_as_said (seen change.entry) (seen entry.entry) table.now train) }
{
    if is_route(said_at(change, entry, "route"), table.route(train))
        && is_exit(said_at(change, entry, "exit"), table.exits_at(train))
    {
        let said = said_at(change, entry, "times");
        let dwell = said_at(change, entry, "dwell");
        return has_times(alloc, said, dwell, table, train);
    }
    Ok(false)
}

// Whether a train of a plan goes in a table as the table says itself, or else the entry of the train.
fn goes_right(
    alloc: Global,
    entries: &[Value],
    own: Option<&Value>,
    plan: &Plan,
    table: &TablePlan,
    train: usize,
) -> Result<bool, AllocError>
    ensures { IfOk result (λ right. right ≡ spec.goes_right (items_view entries.now) (seen own.entry) plan.now table.now train) }
{
    let change = change_of(own, plan.trains.get(train));
    goes_as_said(alloc, change, entry_at(entries, train), table, train)
}

// Whether all trains of a plan go in a table as the table says itself, or else their entries.
fn all_go_right(
    alloc: Global,
    entries: &[Value],
    own: Option<&Value>,
    plan: &Plan,
    table: &TablePlan,
) -> Result<bool, AllocError>
    ensures { IfOk result (λ right. IsTrue right ↔ EachTrain plan.now (spec.goes_right (items_view entries.now) (seen own.entry) plan.now table.now)) }
{
    for train in 0..plan.trains.len() {
        if !goes_right(alloc, entries, own, plan, table, train)? {
            return Ok(false);
        }
    }
    Ok(true)
}

// Whether these are the names of the entries, in order.
fn are_named(entries: &[Value], names: &[String]) -> bool
    ensures { result ≡ agree_values is_named_of entries.now names.now }
{
    agree(entries, names, is_named)
}

// Whether the sections of a table are those of the entries, in order.
fn are_sections(entries: &[Value], plan: &Plan, table: &TablePlan) -> bool
    ensures { result ≡ agree_values (is_section_of plan.now.trains.items table.now.routes.items table.now.exits.items) entries.now table.now.sections.items }
{
    agree(entries, &table.sections, |entry, section| {
        is_section(&plan.trains, table, entry, section)
    })
}

// Whether the connections of a table are those of the entries, in order.
fn are_waits(entries: &[Value], plan: &Plan, table: &TablePlan) -> bool
    ensures { result ≡ agree_values (spec.is_wait plan.now.trains.items table.now.routes.items) entries.now table.now.waits.items }
{
    agree(entries, &table.waits, |entry, wait| {
        is_wait(entry, wait, &plan.trains, table)
    })
}

// Whether a table has a route, an exit and times for each train of a plan, and no more.
fn is_complete(plan: &Plan, table: &TablePlan) -> bool
    ensures { result ≡ spec.is_complete plan.now table.now }
{
    let trains = plan.trains.len();
    table.routes.len() == trains && table.exits.len() == trains && table.times.len() == trains
}

// Whether a route keeps to lines, and neither begins nor ends at a switch.
fn keeps_free(lines: &[Vec<String>], switches: &[String], route: &[String]) -> bool
    ensures { result ≡ spec.keeps_free lines.now switches.now route.now }
{
    keeps(lines, switches, route) && has_free_ends(switches, route)
}

// Whether all routes keep to lines.
fn all_keep(lines: &[Vec<String>], switches: &[String], routes: &[Vec<String>]) -> bool
    ensures { result ≡ spec.all_keep lines.now switches.now routes.now }
{
    routes
        .iter()
        .all(|route| keeps_free(lines, switches, route))
}

// Whether all routes keep to lines, if there are any.
#[tactic(auto, unfolding(crate::specs::Said::keep_to))]
fn keep_to(lines: &[Vec<String>], switches: &[String], routes: &[Vec<String>]) -> bool
    ensures { result ≡ spec.keep_to lines.now switches.now routes.now }
{
    lines.is_empty() || all_keep(lines, switches, routes)
}

// Whether a table of a plan agrees with a text and with what the table says itself.
#[tactic(auto, using(crate::proofs::Compared::agreed))]
fn agrees_in(
    alloc: Global,
    text: &Table,
    own: Option<&Value>,
    plan: &Plan,
    table: &TablePlan,
) -> Result<bool, AllocError>
    ensures { IfOk result (λ right. IsTrue right → AgreesIn (table_view text.now) (seen own.entry) plan.now table.now) }
{
    if is_complete(plan, table)
        && are_sections(entries_in(text, own, "section"), plan, table)
        && are_waits(entries_in(text, own, "connection"), plan, table)
        && is_due(own, table.after)
        && keep_to(&plan.lines, &plan.switches, &table.routes)
    {
        return all_go_right(alloc, entries_at(text, "train"), own, plan, table);
    }
    Ok(false)
}

// Whether the tables of a plan are the first, and one for each of these entries; and each agrees with the text and with what it says itself.
fn tables_as_said(
    alloc: Global,
    text: &Table,
    further: &[Value],
    plan: &Plan,
) -> Result<bool, AllocError>
    ensures { IfOk result (λ right. IsTrue right → TablesAsSaid (table_view text.now) (items_view further.now) plan.now) }
{
    for (number, table) in plan.tables.iter().enumerate() {
        if !agrees_in(alloc, text, own_of(further, number), plan, table)? {
            return Ok(false);
        }
    }
    let tables = plan.tables.len();
    Ok(0 < tables && tables - 1 == further.len())
}

// What the entry of a train says of its start.
fn start_said(entries: &[Value], train: usize) -> Option<&str>
    ensures { option_copied result ≡ option_and_then (text_of (codes "start")) (get_item train (items_view entries.now)) }
{
    match entry_at(entries, train) {
        Some(entry) => text_at(entry, "start"),
        None => None,
    }
}

// Whether a plan has no lines, or this point is no switch.
fn may_start_at(plan: &Plan, point: Option<&String>) -> bool
    ensures { result ≡ spec.may_start_at plan.now (option_copied point.entry) }
{
    plan.lines.is_empty() || is_no_switch(&plan.switches, point)
}

// Whether a train that says this of its start starts at this place of its route, where it may.
fn starts_there(plan: &Plan, said: Option<&str>, route: &[String], place: u32) -> bool
    ensures { result ≡ spec.starts_there plan.now (option_copied said.entry) route.now place }
{
    starts_at(said, route, place) && may_start_at(plan, point_at(route, place as usize))
}

// Whether a train of a plan starts, under the first table, at the place that its entry says, where it may.
fn starts_right(entries: &[Value], plan: &Plan, first: &TablePlan, train: usize) -> bool
    ensures { result ≡ spec.starts_right (items_view entries.now) plan.now first.now train }
{
    let place = plan.start.get(train).copied().unwrap_or(0);
    starts_there(plan, start_said(entries, train), first.route(train), place)
}

// Whether all trains of a plan start, under this first table, where their entries say.
fn all_start_right(entries: &[Value], plan: &Plan, first: &TablePlan) -> bool
    ensures { IsTrue result ↔ EachTrain plan.now (spec.starts_right (items_view entries.now) plan.now first.now) }
{
    for train in 0..plan.trains.len() {
        if !starts_right(entries, plan, first, train) {
            return false;
        }
    }
    true
}

// Whether the trains of a plan start, under its first table, where their entries say.
fn start_as_said(entries: &[Value], plan: &Plan) -> bool
    ensures { IsTrue result → ForSome (slice_get plan.now.tables.items 0) (StartAsSaid (items_view entries.now) plan.now) }
{
    match plan.tables.first() {
        Some(first) => {
            plan.start.len() == plan.trains.len() && all_start_right(entries, plan, first)
        }
        None => false,
    }
}

// Whether each of these points has the zone that a text puts it into.
fn are_in_zones(text: &Table, points: &[(String, u32)]) -> bool
    ensures { result ≡ are_zoned_of (get_member (codes "zones") (table_view text.now)) points.now }
{
    are_zoned(text.get("zones"), points)
}

// Whether each of these points is in one of so many zones, counted from 0.
fn are_within(points: &[(String, u32)], zones: u32) -> bool
    ensures { result ≡ spec.are_within points.now zones }
{
    points.iter().all(|(_, zone)| *zone < zones)
}

// Whether one of these points is in this zone.
fn is_used(points: &[(String, u32)], zone: u32) -> bool
    ensures { result ≡ spec.is_used points.now zone }
{
    points.iter().any(|(_, used)| *used == zone)
}

// Whether there are exactly as many zones as these points need: the last is zone 0, or one of the points is in it.
fn has_zones(points: &[(String, u32)], zones: u32) -> bool
    ensures { result ≡ spec.has_zones points.now zones }
{
    0 < zones && are_within(points, zones) && (zones == 1 || is_used(points, zones - 1))
}

// What a text says at a key.
fn member<'t>(text: &'t Table, key: &str) -> Option<&'t Value>
    ensures { seen result ≡ get_member key.now (table_view text.now) }
{
    text.get(key)
}

// Whether a text says that routes need not keep to its lines.
fn is_open(text: &Table) -> bool
    ensures { result ≡ spec.is_open (table_view text.now) }
{
    says_yes(member(text, "open"))
}

// The lines to which routes have to keep.
fn lines_of(text: &Table) -> &[Value]
    ensures { items_view result.now ≡ spec.lines_of (table_view text.now) }
{
    if is_open(text) {
        &[]
    } else {
        entries_at(text, "lines")
    }
}

// Whether a value names the points of this line.
fn is_line(value: &Value, line: &Vec<String>) -> bool
    ensures { result ≡ spec.is_line (view value.now) line.now }
{
    is_route(Some(value), line)
}

// Whether these are the lines that values name, in order.
fn are_lines(values: &[Value], lines: &[Vec<String>]) -> bool
    ensures { result ≡ agree_values spec.is_line values.now lines.now }
{
    agree(values, lines, is_line)
}

// Whether the routes of a plan have to keep to the lines of its text, and pass the switches of the text.
#[tactic(auto, using(crate::proofs::Compared::agreed))]
fn are_tracks(text: &Table, plan: &Plan) -> bool
    ensures { IsTrue result → AreTracks (table_view text.now) plan.now }
{
    are_lines(lines_of(text), &plan.lines)
        && are_names(entries_at(text, "switches"), &plan.switches)
}

/// Whether a plan is what its text says.
#[tactic(auto, using(crate::proofs::Compared::agreed))]
pub(crate) fn agrees(alloc: Global, text: &Table, plan: &Plan) -> Result<bool, AllocError>
    ensures { IfOk result (λ right. IsTrue right → IsPlanOf (table_view text.now) plan.now) }
{
    let trains = entries_at(text, "train");
    if are_named(trains, &plan.trains)
        && start_as_said(trains, plan)
        && are_in_zones(text, &plan.points)
        && has_zones(&plan.points, plan.zones)
        && are_tracks(text, plan)
    {
        return tables_as_said(alloc, text, entries_at(text, "table"), plan);
    }
    Ok(false)
}
