// The tables of a plan, and the plan as a whole.
use crate::connections::{number, waits_of};
use crate::ground::{Ground, greatest};
use crate::laying::{add_lines, check_laid};
use crate::lists::{owned, push, push_all};
use crate::names::check_count;
use crate::ranges::Range;
use crate::routes::Scope;
use crate::sections::{check_taken, sections_of};
use crate::trains::{Roster, add_trains, check_ends, check_starts, starts};
use plan_document::{Plan, TablePlan};
use plan_entries::{Entries, Entry, Faults, Kind};
use toml::Value;

const MOST_TABLES: usize = 16;

const AFTER: Range = Range {
    least: 0,
    most: 1_000_000,
    form: "a table is due after 0 to 1000000 moves, and this is {}",
};

/// A table: the plan as a whole, and what the table says itself. The first says nothing itself.
#[derive(Clone, Copy)]
pub(crate) struct Layer<'t> {
    top: Entry<'t>,
    own: Entry<'t>,
    // Counted from 0.
    number: usize,
}

impl<'t> Layer<'t> {
    /// The table of this number.
    pub fn of(top: &Entry<'t>, number: usize) -> Layer<'t> {
        let own = match number {
            0 => Entry::part(Kind::Top, None),
            _ => top.list(Kind::Table).entry(number.saturating_sub(1)),
        };
        Layer {
            top: *top,
            own,
            number,
        }
    }

    // The entries of a kind that hold in the table: its own, or those of the first.
    fn entries(&self, kind: Kind) -> Entries<'t> {
        match self.own.value(kind.word()) {
            Some(Value::Array(_)) => self.own.list(kind),
            _ => self.top.list(kind),
        }
    }

    /// The trains of the table.
    pub fn roster(&self) -> Roster<'t> {
        Roster {
            firsts: self.top.list(Kind::Train),
            changes: self.own.list(Kind::Train),
        }
    }
}

// What the names in a table stand for.
fn scope_of<'x>(ground: &'x Ground, plan: &'x TablePlan, table: usize) -> Scope<'x> {
    Scope {
        points: &ground.points,
        trains: &ground.trains,
        plan,
        table,
    }
}

// Fills in a table; what is wrong with it is reported.
fn fill_table(faults: &mut Faults, layer: &Layer, ground: &Ground, plan: &mut TablePlan) {
    let roster = layer.roster();
    add_trains(faults, &roster, ground, plan);
    let scope = scope_of(ground, plan, layer.number);
    check_ends(faults, &roster, &scope);
    let sections = sections_of(faults, &layer.entries(Kind::Section), &scope);
    let waits = waits_of(faults, &layer.entries(Kind::Connection), &scope);
    plan.sections = sections;
    plan.waits = waits;
    plan.after = AFTER.number_or(faults, &layer.own, "after", 0);
}

// Adds the plan of a table; what is wrong with it is reported.
fn add_table(faults: &mut Faults, layer: &Layer, ground: &Ground, tables: &mut Vec<TablePlan>) {
    let alloc = faults.alloc();
    let mut plan = TablePlan {
        routes: Vec::new(alloc),
        exits: Vec::new(alloc),
        times: Vec::new(alloc),
        sections: Vec::new(alloc),
        waits: Vec::new(alloc),
        after: 0,
    };
    fill_table(faults, layer, ground, &mut plan);
    push(faults, tables, plan);
}

// Adds the plans of the tables after the first.
fn add_tables(faults: &mut Faults, top: &Entry, ground: &Ground, plan: &mut Plan) {
    let tables = top.list(Kind::Table);
    for index in 0..tables.values.len().min(MOST_TABLES - 1) {
        let layer = Layer::of(top, index.saturating_add(1));
        add_table(faults, &layer, ground, &mut plan.tables);
    }
    let form = "this is one table too many: 16 are the most, with the first";
    check_count(faults, &tables, MOST_TABLES - 1, form);
}

// Adds where the trains start, under the first table, if it is there; what is wrong with it is reported.
fn add_starts(faults: &mut Faults, top: &Entry, ground: &Ground, plan: &mut Plan) {
    let Some(first) = plan.tables.first() else {
        return;
    };
    let scope = scope_of(ground, first, 0);
    let trains = top.list(Kind::Train);
    let starts = starts(faults, &trains, &scope);
    check_starts(faults, &trains, &scope, &starts);
    check_taken(faults, &top.list(Kind::Section), &scope, &starts);
    for start in &starts {
        push(faults, &mut plan.start, number(*start));
    }
}

// Adds what is named.
fn add_names(faults: &mut Faults, ground: &Ground, plan: &mut Plan) {
    push_all(faults, &mut plan.trains, &ground.trains);
    for (index, point) in ground.points.iter().enumerate() {
        let point = (owned(faults, point), ground.zone(index));
        push(faults, &mut plan.points, point);
    }
}

// Adds the links, by the names of their points.
fn add_links(faults: &mut Faults, ground: &Ground, plan: &mut Plan) {
    for link in &ground.links {
        let link = (owned(faults, link.one), owned(faults, link.other));
        push(faults, &mut plan.links, link);
    }
}

// Fills in a plan; what is wrong with it is reported.
fn fill(faults: &mut Faults, top: &Entry, ground: &Ground, plan: &mut Plan) {
    let layer = Layer::of(top, 0);
    add_table(faults, &layer, ground, &mut plan.tables);
    add_starts(faults, top, ground, plan);
    add_tables(faults, top, ground, plan);
    add_lines(faults, top, plan);
    check_laid(faults, top, ground, plan);
    add_names(faults, ground, plan);
    add_links(faults, ground, plan);
}

// Adds what a plan names: its trains, points and links, and the zones of its points.
fn fill_ground<'t>(faults: &mut Faults, top: &Entry<'t>, ground: &mut Ground<'t>) {
    ground.add_trains(faults, &top.list(Kind::Train));
    ground.add_points(faults, top);
    ground.add_zones(faults, top);
}

/// The plan that a table of keys makes; what is wrong with it is reported, and so is that there was no memory for a part of it.
pub fn plan_of(faults: &mut Faults, top: &Entry) -> Plan {
    let alloc = faults.alloc();
    let mut ground = Ground::new(alloc);
    fill_ground(faults, top, &mut ground);
    let mut plan = Plan {
        lines: Vec::new(alloc),
        switches: Vec::new(alloc),
        points: Vec::new(alloc),
        links: Vec::new(alloc),
        zones: greatest(&ground.zones).saturating_add(1),
        trains: Vec::new(alloc),
        start: Vec::new(alloc),
        tables: Vec::new(alloc),
    };
    fill(faults, top, &ground, &mut plan);
    plan
}
