// The trains and points of a plan and what links the points, in the order in which they are first named, and zones.
use crate::laying::lines_of;
use crate::lists::push;
use crate::names::{check_count, is_known, is_name, number_of, tell_of, text_of};
use crate::routes::count_of;
use plan_entries::{Entries, Entry, Faults, Kind, Part, names_of, tell_no};
use std::alloc::Global;
use toml::Value;

// How many trains a plan may have.
const MOST_TRAINS: usize = 32;

const MOST_POINTS: usize = 512;
// How many points are kept, so that those too many aren't reported as unknown too.
const KEPT_POINTS: usize = 4096;

const MOST_LINKS: usize = 2048;

const MOST_ZONES: u32 = 16;

/// Two points that are linked.
#[derive(Clone, Copy)]
pub(crate) struct Link<'t> {
    pub one: &'t str,
    pub other: &'t str,
}

impl<'t> Link<'t> {
    /// The point that a point is linked with, if it is one of the two.
    pub fn beyond(&self, point: &str) -> Option<&'t str> {
        if self.one == point {
            Some(self.other)
        } else if self.other == point {
            Some(self.one)
        } else {
            None
        }
    }
}

/// What has been named so far, and for each point its zone, if it has one.
#[derive(Drop)]
pub(crate) struct Ground<'t> {
    pub trains: Vec<&'t str>,
    pub points: Vec<&'t str>,
    pub links: Vec<Link<'t>>,
    pub zones: Vec<Option<u32>>,
}

// Whether there is a link between two points.
fn is_linked(links: &[Link<'_>], one: &str, other: &str) -> bool {
    for link in links {
        if link.beyond(one) == Some(other) {
            return true;
        }
    }
    false
}

// Tells what isn't a name.
fn check_name<'x>(faults: &mut Faults, entry: &Entry<'x>, key: &'static str, name: &'x str) {
    if !is_name(name) {
        let form = "{} is no name: 1 to 16 of A-Z, a-z, 0-9 and _";
        tell_of(faults, entry, key, name, form);
    }
}

// Tells something of a name, which stands at the key of a zone.
fn tell_in<'x>(faults: &mut Faults, zone: &Entry<'x>, name: &'x str, form: &'static str) {
    faults.tell(&zone.of(name), form, &[Part::Name(name)]);
}

// The zone whose number is the key; a key that is the number of none is reported.
fn zone_of(faults: &mut Faults, zone: &Entry) -> Option<u32> {
    let number = if zone.key == "0" {
        Some(0)
    } else {
        count_of(zone.key)
    };
    if let Some(number) = number
        && number < MOST_ZONES as usize
    {
        return Some(number as u32);
    }
    let form = "{} is no zone: they are numbered from 0 to 15";
    tell_in(faults, zone, zone.key, form);
    None
}

// Puts a point into a zone, if it is in none.
fn put(zones: &mut [Option<u32>], at: usize, zone: u32) -> bool {
    if zones.len() <= at || zones[at].is_some() {
        return false;
    }
    zones[at] = Some(zone);
    true
}

/// The greatest zone of a point.
pub(crate) fn greatest(zones: &[Option<u32>]) -> u32 {
    let mut most = 0u32;
    for zone in zones {
        most = most.max(zone.unwrap_or(0));
    }
    most
}

// Whether a point is in this zone, which it is in 0 if it is put into none.
fn has_point(zones: &[Option<u32>], number: u32) -> bool {
    for zone in zones {
        if zone.unwrap_or(0) == number {
            return true;
        }
    }
    false
}

// Tells each zone that has no point, of those below the greatest.
fn check_gaps(faults: &mut Faults, zones: &[Option<u32>]) {
    let most = greatest(zones);
    for zone in 0..most.min(MOST_ZONES) {
        if !has_point(zones, zone) {
            let parts = [Part::Number(zone as i64), Part::Number(most as i64)];
            let form = "zone {} has no point, and zone {} has";
            faults.tell(&Entry::part(Kind::Zones, None), form, &parts);
        }
    }
}

impl<'t> Ground<'t> {
    /// Nothing is named yet.
    pub fn new(alloc: Global) -> Ground<'t> {
        Ground {
            trains: Vec::new(alloc),
            points: Vec::new(alloc),
            links: Vec::new(alloc),
            zones: Vec::new(alloc),
        }
    }

    /// The zone of a point: 0, if it is put into none.
    pub fn zone(&self, point: usize) -> u32 {
        match self.zones.get(point) {
            Some(Some(zone)) => *zone,
            _ => 0,
        }
    }

    // Tells a train whose name is none, or is taken.
    fn check_train<'x>(&self, faults: &mut Faults, train: &Entry<'x>, name: &'x str) {
        if is_name(name) && is_known(&self.trains, name) {
            let form = "{} is the name of an earlier train too";
            tell_of(faults, train, "name", name, form);
        }
        check_name(faults, train, "name", name);
    }

    // Adds the name of a train; empty for one that has none.
    fn add_train(&mut self, faults: &mut Faults, train: &Entry<'t>) {
        match train.text("name") {
            Some(name) => {
                self.check_train(faults, train, name);
                push(faults, &mut self.trains, name);
            }
            None => push(faults, &mut self.trains, ""),
        }
    }

    /// Adds the names of the trains.
    pub fn add_trains(&mut self, faults: &mut Faults, trains: &Entries<'t>) {
        let count = trains.values.len();
        for index in 0..count.min(MOST_TRAINS) {
            self.add_train(faults, &trains.entry(index));
        }
        if count == 0 && faults.is_empty() {
            faults.tell(&Entry::part(Kind::Top, None), "there is no train", &[]);
        }
        let form = "this is one train too many: 32 are the most";
        check_count(faults, trains, MOST_TRAINS, form);
    }

    // Adds a point, in no zone, unless it is there.
    fn add_point(
        &mut self,
        faults: &mut Faults,
        entry: &Entry<'t>,
        key: &'static str,
        name: &'t str,
    ) {
        let count = self.points.len();
        if is_known(&self.points, name) || KEPT_POINTS <= count {
            return;
        }
        check_name(faults, entry, key, name);
        if count == MOST_POINTS {
            let form = "{} is one point too many: 512 are the most";
            tell_of(faults, entry, key, name, form);
        }
        push(faults, &mut self.points, name);
        push(faults, &mut self.zones, None);
    }

    // Adds the link to a point from the one before it, unless it is there.
    fn add_link(
        &mut self,
        faults: &mut Faults,
        entry: &Entry<'t>,
        key: &'static str,
        one: &'t str,
        other: &'t str,
    ) {
        let count = self.links.len();
        if one == other {
            tell_of(faults, entry, key, other, "{} comes twice in a row");
        } else if count <= MOST_LINKS && !is_linked(&self.links, one, other) {
            if count == MOST_LINKS {
                let form = "{} has one link too many: 2048 are the most";
                tell_of(faults, entry, key, other, form);
            }
            push(faults, &mut self.links, Link { one, other });
        }
    }

    // Adds points, and the links of each to the next.
    fn add_chain(
        &mut self,
        faults: &mut Faults,
        entry: &Entry<'t>,
        key: &'static str,
        chain: &'t [Value],
    ) {
        let mut before = None;
        for value in chain {
            let name = text_of(value);
            self.add_point(faults, entry, key, name);
            if let Some(before) = before {
                self.add_link(faults, entry, key, before, name);
            }
            before = Some(name);
        }
    }

    // Adds the points and links of the routes of some trains.
    fn add_routes(&mut self, faults: &mut Faults, trains: &Entries<'t>) {
        for index in 0..trains.values.len() {
            let train = trains.entry(index);
            if let Some(route) = train.names("route") {
                self.add_chain(faults, &train, "route", route);
            }
        }
    }

    // Adds the points and links of the lines of a plan.
    fn add_lines(&mut self, faults: &mut Faults, top: &Entry<'t>) {
        for line in top.values("lines") {
            if let Some(points) = names_of(line) {
                self.add_chain(faults, top, "lines", points);
            }
        }
    }

    /// Adds the points and links of a plan: those of its lines, and then those of its routes, unless these have to keep to the lines.
    pub fn add_points(&mut self, faults: &mut Faults, top: &Entry<'t>) {
        self.add_lines(faults, top);
        if lines_of(top).is_empty() {
            self.add_routes(faults, &top.list(Kind::Train));
            let tables = top.list(Kind::Table);
            for index in 0..tables.values.len() {
                self.add_routes(faults, &tables.entry(index).list(Kind::Train));
            }
        }
    }

    // Puts a point into the zone at whose key it stands; one that is in a zone already is reported.
    fn put_one<'x>(&mut self, faults: &mut Faults, at: &Entry<'x>, name: &'x str, zone: u32) {
        match number_of(&self.points, name) {
            Some(place) => if !put(&mut self.zones, place, zone) {
                tell_in(faults, at, name, "{} is in a zone already");
            },
            None => tell_no(faults, &at.of(name), "point", name, &self.points),
        }
    }

    // Puts the points that a value names into the zone that is its key.
    fn put_all<'x>(&mut self, faults: &mut Faults, key: &'x str, value: &'x Value) {
        let at = Entry::part(Kind::Zones, None).at(key);
        if let Some(points) = names_of(value)
            && let Some(zone) = zone_of(faults, &at)
        {
            for point in points {
                self.put_one(faults, &at, text_of(point), zone);
            }
        }
    }

    /// Puts the points into their zones. Those that the plan puts into none are in zone 0.
    pub fn add_zones(&mut self, faults: &mut Faults, top: &Entry) {
        if let Some(Value::Table(zones)) = top.value("zones") {
            for (zone, value) in zones {
                self.put_all(faults, zone.as_str(), value);
            }
        }
        if faults.is_empty() {
            check_gaps(faults, &self.zones);
        }
    }
}
