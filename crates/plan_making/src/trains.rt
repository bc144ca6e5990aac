// The trains of a plan under each of its tables.
use crate::ground::Ground;
use crate::lists::{copied, push};
use crate::names::{find, tell_key, tell_of};
use crate::routes::{Scope, place_of};
use crate::times::{check_steps, check_times, times_of};
use plan_document::TablePlan;
use plan_entries::{Entries, Entry, Faults, Part};
use std::alloc::AllocError;
use toml::Value;

const MOST_PLACES: usize = 128;

/// The trains of the first table, and what this one changes of them.
#[derive(Clone, Copy)]
pub(crate) struct Roster<'t> {
    pub firsts: Entries<'t>,
    pub changes: Entries<'t>,
}

/// A train under a table: as the first table has it, and what this one changes: no keys, if it changes nothing.
#[derive(Clone, Copy)]
struct Service<'t> {
    first: Entry<'t>,
    change: Entry<'t>,
}

impl<'t> Service<'t> {
    // The names of the route; none if it isn't known.
    fn route(&self) -> &'t [Value] {
        let own = self.change.names("route");
        own.or(self.first.names("route")).unwrap_or(&[])
    }

    // Whether the train exits after its route.
    fn exits(&self) -> bool {
        let own = self.change.flag("exit");
        own.or(self.first.flag("exit")).unwrap_or(false)
    }

    // The times of the train.
    fn times(&self) -> Option<&'t Value> {
        let own = self.change.value("times");
        own.or(self.first.value("times"))
    }

    // The dwell of the train.
    fn dwell(&self) -> Option<&'t Value> {
        let own = self.change.value("dwell");
        own.or(self.first.value("dwell"))
    }

    // Whether this table says anything of the train.
    fn is_changed(&self) -> bool {
        self.change.keys.is_some()
    }

    // The entry that faults of the train under this table are about.
    fn entry(&self) -> Entry<'t> {
        if self.is_changed() {
            self.change
        } else {
            self.first
        }
    }
}

// The number of the first of these changes that is one of this train; one after the last, if none is.
fn change_of(changes: &Entries, name: &str) -> usize {
    let count = changes.values.len();
    for index in 0..count {
        if changes.entry(index).text("name") == Some(name) {
            return index;
        }
    }
    count
}

impl<'t> Roster<'t> {
    // A train under this table.
    fn service(&self, train: usize) -> Service<'t> {
        let first = self.firsts.entry(train);
        let change = match first.text("name") {
            Some(name) => change_of(&self.changes, name),
            None => self.changes.values.len(),
        };
        Service {
            first,
            change: self.changes.entry(change),
        }
    }

    /// The entry that faults of a train under this table are about.
    pub fn entry(&self, train: usize) -> Entry<'t> {
        self.service(train).entry()
    }

    // Whether this table says anything of a train.
    fn is_changed(&self, train: usize) -> bool {
        self.service(train).is_changed()
    }

    /// Tells changes of trains that aren't there, or that are changed already.
    pub fn check_changes(&self, faults: &mut Faults, trains: &[&str]) {
        for index in 0..self.changes.values.len() {
            let change = self.changes.entry(index);
            if let Some(name) = change.text("name") {
                find(faults, &change, "name", name, "train", trains);
                if change_of(&self.changes, name) < index {
                    let form = "{} is changed twice by this table";
                    tell_of(faults, &change, "name", name, form);
                }
            }
        }
    }
}

// Tells what is wrong with what a table says of a train.
fn check_train(
    faults: &mut Faults,
    service: &Service,
    points: &[&str],
    route: &[Value],
    exits: bool,
) {
    let entry = service.entry();
    if route.is_empty() && service.first.names("route").is_some() {
        tell_key(faults, &entry, "route", "the route is empty");
    }
    let places = route.len().saturating_add(exits as usize);
    if MOST_PLACES < places {
        let form = "the route has {} places, with that behind an exit: 128 are the most";
        faults.tell(&entry.at("route"), form, &[Part::Count(places)]);
    }
    check_times(faults, &entry, points, route);
}

// Adds to a table what it says of a train; what is wrong with it is reported.
fn add_train(faults: &mut Faults, service: &Service, points: &[&str], plan: &mut TablePlan) {
    let route = service.route();
    let exits = service.exits();
    check_train(faults, service, points, route, exits);
    let route = copied(faults, route);
    let (times, dwell) = (service.times(), service.dwell());
    check_steps(faults, &service.entry(), times, dwell, &route);
    match times_of(faults.alloc(), times, dwell, &route, exits) {
        Ok(times) => push(faults, &mut plan.times, times),
        Err(AllocError) => faults.lose(),
    }
    push(faults, &mut plan.routes, route);
    push(faults, &mut plan.exits, exits);
}

/// Adds to a table what it says of the trains; what is wrong with it is reported.
pub(crate) fn add_trains(
    faults: &mut Faults,
    roster: &Roster,
    ground: &Ground,
    plan: &mut TablePlan,
) {
    roster.check_changes(faults, &ground.trains);
    for train in 0..ground.trains.len() {
        add_train(faults, &roster.service(train), &ground.points, plan);
    }
}

// The place at which a train starts, if it is right.
fn start_of(faults: &mut Faults, entry: &Entry, scope: &Scope, train: usize) -> Option<usize> {
    match entry.text("start") {
        Some(name) => place_of(faults, entry, "start", name, scope, train),
        None => Some(0),
    }
}

/// The places at which the trains start; none for one whose start isn't right.
pub(crate) fn starts(faults: &mut Faults, trains: &Entries, scope: &Scope) -> Vec<Option<usize>> {
    let mut found = Vec::new(faults.alloc());
    for train in 0..scope.trains.len() {
        let start = start_of(faults, &trains.entry(train), scope, train);
        push(faults, &mut found, start);
    }
    found
}

// The point of a train's place, if it has one there.
fn point_at<'a>(scope: &Scope<'a>, train: usize, starts: &[Option<usize>]) -> Option<&'a str> {
    if let Some(Some(place)) = starts.get(train)
        && let Some(point) = scope.plan.route(train).get(*place)
    {
        Some(point.as_str())
    } else {
        None
    }
}

// Tells each earlier train at whose start another starts too.
fn check_start(
    faults: &mut Faults,
    entry: &Entry,
    later: usize,
    scope: &Scope,
    starts: &[Option<usize>],
) {
    let Some(here) = point_at(scope, later, starts) else {
        return;
    };
    let key = match entry.text("start") {
        Some(_) => "start",
        None => "route",
    };
    for earlier in 0..later {
        if point_at(scope, earlier, starts) == Some(here) {
            let form = "starts at {}, as train {} does";
            tell_same(faults, entry, key, form, here, scope.train(earlier));
        }
    }
}

// Tells that a train is at the same point as another.
fn tell_same<'x>(
    faults: &mut Faults,
    entry: &Entry,
    key: &'static str,
    form: &'static str,
    point: &'x str,
    other: &'x str,
) {
    faults.tell(
        &entry.at(key),
        form,
        &[Part::Name(point), Part::Name(other)],
    );
}

/// Tells each train that starts at the point of an earlier one.
pub(crate) fn check_starts(
    faults: &mut Faults,
    trains: &Entries,
    scope: &Scope,
    starts: &[Option<usize>],
) {
    for later in 0..scope.trains.len() {
        check_start(faults, &trains.entry(later), later, scope, starts);
    }
}

// The point at which a train ends for good: none, if it exits.
fn end_of<'a>(scope: &Scope<'a>, train: usize) -> Option<&'a str> {
    if scope.plan.exits_at(train) {
        return None;
    }
    match scope.plan.route(train).last() {
        Some(point) => Some(point.as_str()),
        None => None,
    }
}

// Tells each earlier train that ends where another ends too, if this table says anything new of one of them.
fn check_end(faults: &mut Faults, roster: &Roster, later: usize, scope: &Scope) {
    let Some(here) = end_of(scope, later) else {
        return;
    };
    let entry = roster.entry(later);
    let is_new = scope.table == 0 || roster.is_changed(later);
    for earlier in 0..later {
        if end_of(scope, earlier) == Some(here) && (is_new || roster.is_changed(earlier)) {
            let form = "without an exit it ends at {}, as train {} does";
            tell_same(faults, &entry, "route", form, here, scope.train(earlier));
        }
    }
}

/// Tells each train that ends at the point where an earlier one ends, if neither exits.
pub(crate) fn check_ends(faults: &mut Faults, roster: &Roster, scope: &Scope) {
    for later in 0..scope.trains.len() {
        check_end(faults, roster, later, scope);
    }
}
