// The lines of a plan, and routes that don't keep to them.
use crate::ground::{Ground, Link};
use crate::lists::{copied, push, push_names};
use crate::names::{check_names, find, is_known, tell_of};
use crate::tables::Layer;
use plan_document::{
    Plan, TablePlan, before, behind, goes, is_among, is_linked, is_no_switch, point_at,
};
use plan_entries::{Entry, Faults, Part, names_of};
use toml::Value;

// The tracks to which routes have to keep.
#[derive(Clone, Copy)]
struct Tracks<'x> {
    lines: &'x [Vec<String>],
    switches: &'x [String],
    points: &'x [&'x str],
    links: &'x [Link<'x>],
}

/// The lines to which routes have to keep: none, if the plan is open.
pub(crate) fn lines_of<'t>(top: &Entry<'t>) -> &'t [Value] {
    if top.flag("open").unwrap_or(false) {
        &[]
    } else {
        top.values("lines")
    }
}

/// Adds the lines to which routes have to keep, and the switches.
pub(crate) fn add_lines(faults: &mut Faults, top: &Entry, plan: &mut Plan) {
    for line in lines_of(top) {
        let points = copied(faults, names_of(line).unwrap_or(&[]));
        push(faults, &mut plan.lines, points);
    }
    if let Some(switches) = top.names("switches") {
        push_names(faults, &mut plan.switches, switches);
    }
}

impl<'x> Tracks<'x> {
    // The points to which lines go from a point.
    fn linked_to(&self, faults: &mut Faults, point: &str) -> Vec<&'x str> {
        let mut found = Vec::new(faults.alloc());
        for link in self.links {
            if let Some(other) = link.beyond(point) {
                push(faults, &mut found, other);
            }
        }
        found
    }

    // Tells that no line goes from one point to another, and where lines go from there.
    fn tell_no_link(&self, faults: &mut Faults, train: &Entry<'x>, one: &'x str, here: &'x str) {
        let others = self.linked_to(faults, one);
        let parts = [Part::Name(one), Part::Name(here), Part::List(&others)];
        let form = "no line goes from {} to {}, but to {}";
        faults.tell(&train.at("route").of(here), form, &parts);
    }

    // Tells that no line goes from one point to another, or goes on from there over a switch as a route does. A point that
    // no line has is told at its own place.
    fn check_step(
        &self,
        faults: &mut Faults,
        train: &Entry<'x>,
        one: &'x str,
        here: &'x str,
        other: Option<&'x String>,
    ) {
        if !is_linked(self.lines, one, here) {
            self.tell_no_link(faults, train, one, here);
        } else if is_among(self.switches, here)
            && let Some(other) = other
            && is_known(self.points, other.as_str())
            && !goes(self.lines, one, here, other.as_str())
        {
            let parts = [
                Part::Name(one),
                Part::Name(here),
                Part::Name(other.as_str()),
            ];
            let form = "no line goes from {} over {}, a switch, to {}";
            faults.tell(&train.at("route").of(here), form, &parts);
        }
    }

    // Tells what no line has at a place of a route.
    fn check_place(
        &self,
        faults: &mut Faults,
        train: &Entry<'x>,
        route: &'x [String],
        place: usize,
    ) {
        let Some(here) = route.get(place) else {
            return;
        };
        let here = here.as_str();
        if find(faults, train, "route", here, "point", self.points).is_some()
            && let Some(one) = before(route, place)
            && is_known(self.points, one.as_str())
        {
            self.check_step(faults, train, one.as_str(), here, behind(route, place));
        }
    }

    // Tells a point, which stands at a key, that is a switch.
    fn check_free(
        &self,
        faults: &mut Faults,
        train: &Entry<'x>,
        key: &'static str,
        point: Option<&'x String>,
        form: &'static str,
    ) {
        if let Some(point) = point
            && !is_no_switch(self.switches, Some(point))
        {
            tell_of(faults, train, key, point.as_str(), form);
        }
    }

    // Tells where the route of a train, which starts at a place of it or doesn't start under its table, doesn't keep to the lines.
    fn check_route(
        &self,
        faults: &mut Faults,
        train: &Entry<'x>,
        route: &'x [String],
        start: Option<usize>,
    ) {
        for place in 0..route.len() {
            self.check_place(faults, train, route, place);
        }
        let begins = match start {
            Some(0) => "starts at {}, a switch",
            _ => "its route begins at {}, a switch",
        };
        self.check_free(faults, train, "route", point_at(route, 0), begins);
        let last = before(route, route.len());
        self.check_free(faults, train, "route", last, "ends at {}, a switch");
        if let Some(place) = start
            && 0 < place
        {
            let point = point_at(route, place);
            self.check_free(faults, train, "start", point, "starts at {}, a switch");
        }
    }

    // Tells where the routes of a table don't keep to the lines. Only under the first table trains start.
    fn check_table(
        &self,
        faults: &mut Faults,
        layer: &Layer<'x>,
        table: &'x TablePlan,
        starts: &[u32],
    ) {
        let roster = layer.roster();
        for train in 0..table.routes.len() {
            let start = starts.get(train).copied().map(|place| place as usize);
            self.check_route(faults, &roster.entry(train), table.route(train), start);
        }
    }
}

// Tells where the routes of a plan don't keep to its lines.
fn check_tables<'x>(faults: &mut Faults, top: &Entry<'x>, ground: &'x Ground<'x>, plan: &'x Plan) {
    let tracks = Tracks {
        lines: &plan.lines,
        switches: &plan.switches,
        points: &ground.points,
        links: &ground.links,
    };
    for (number, table) in plan.tables.iter().enumerate() {
        let starts: &[u32] = if number == 0 { &plan.start } else { &[] };
        tracks.check_table(faults, &Layer::of(top, number), table, starts);
    }
}

/// Tells switches that aren't points, and where the routes of a plan don't keep to its lines, if they have to.
pub(crate) fn check_laid(faults: &mut Faults, top: &Entry, ground: &Ground, plan: &Plan) {
    check_names(faults, top, "switches", "point", &ground.points);
    if !plan.lines.is_empty() {
        check_tables(faults, top, ground, plan);
    }
}
