// All that is wrong with the patterns, counts and ways of a plan.
use crate::lengths::Ways;
use crate::names::{check_name, check_once, names_of};
use crate::ways::name_in;
use crate::writing::base_of;
use plan_entries::{Entries, Entry, Faults, Kind, Origins, Part};
use plan_keys::{check_counts, check_patterns};
use toml::{Table, Value};

// How many trains a plan and each of its tables may have, and so an entry may stand for.
const MOST_TRAINS: i64 = 32;
// How many patterns, and how many ways, a plan may have.
const MOST_NAMED: usize = 256;

// The value at a key of an entry, or else of the patterns that it rests on.
fn value_in<'t>(keys: &'t Table, patterns: &'t [Value], key: &str) -> Option<&'t Value> {
    let mut here = keys;
    for _ in 0..patterns.len() {
        if let Some(value) = here.get(key) {
            return Some(value);
        }
        here = base_of(patterns, here)?;
    }
    here.get(key)
}

// Tells that an entry rests on itself, by the patterns that it rests on.
fn check_ends(faults: &mut Faults, entry: &Entry, patterns: &[Value]) {
    let Some(keys) = entry.keys else {
        return;
    };
    let mut here = keys;
    for _ in 0..patterns.len() {
        match base_of(patterns, here) {
            Some(base) => here = base,
            None => return,
        }
    }
    if base_of(patterns, here).is_some() {
        faults.tell(
            &entry.at("pattern"),
            "a pattern that it rests on rests on itself",
            &[],
        );
    }
}

// Tells a count that is out of range.
fn check_range(faults: &mut Faults, entry: &Entry) {
    if let Some(count) = entry.number("count")
        && (count < 1 || MOST_TRAINS < count)
    {
        let parts = [Part::Number(MOST_TRAINS), Part::Number(count)];
        faults.tell(
            &entry.at("count"),
            "\"count\" goes from 1 to {}, and this is {}",
            &parts,
        );
    }
}

// Tells what is wrong with the pattern and the count of an entry.
fn check_entry(faults: &mut Faults, entry: &Entry, patterns: &[Value], names: &[&str]) {
    check_counts(faults, entry);
    check_range(faults, entry);
    if let Some(name) = entry.text("pattern") {
        check_name(
            faults,
            &entry.at("pattern").of(name),
            "pattern",
            name,
            names,
        );
    }
    check_ends(faults, entry, patterns);
}

// Tells that a train has no name of its own, or that its name doesn't say which of several trains it is.
fn check_train_name(faults: &mut Faults, entry: &Entry, patterns: &[Value]) {
    let Some(keys) = entry.keys else {
        return;
    };
    match entry.text("name") {
        Some(name) => if value_in(keys, patterns, "count").is_some() && !name.contains("{}") {
            let form = "it has a \"count\", so its name needs {} for the number";
            faults.tell(&entry.at("name"), form, &[Part::Words("{}")]);
        },
        None => if keys.get("pattern").is_some() {
            faults.tell(entry, "\"name\" is missing", &[]);
        },
    }
}

// Tells each way in a route, in a plan that has none.
fn check_no_ways<'x>(faults: &mut Faults, at: &Entry<'x>, route: &'x [Value]) {
    for item in route {
        if let Some(name) = name_in(item) {
            let form = "no way {}: the plan has no \"ways\"";
            faults.tell(&at.of(name), form, &[Part::Name(name)]);
        }
    }
}

// Tells what is wrong with the ways in the route of an entry.
fn check_route(faults: &mut Faults, entry: &Entry, ways: &Ways) {
    let Some(route) = entry.names("route") else {
        return;
    };
    let at = entry.at("route");
    if 0 < ways.count() {
        ways.check_items(faults, &at, route);
    } else {
        check_no_ways(faults, &at, route);
    }
}

// The number of trains that an entry stands for.
fn trains_in(entry: &Entry, patterns: &[Value]) -> usize {
    let Some(keys) = entry.keys else {
        return 1;
    };
    let Some(count) = value_in(keys, patterns, "count") else {
        return 1;
    };
    let count = count.as_integer().unwrap_or(1).max(1).min(MOST_TRAINS);
    usize::try_from(count).unwrap_or(1)
}

// Tells the first entry with which there are too many trains.
fn check_total(faults: &mut Faults, trains: &Entries, patterns: &[Value]) {
    let mut room = 32usize;
    for index in 0..trains.values.len() {
        let entry = trains.entry(index);
        let more = trains_in(&entry, patterns);
        if room < more {
            let form = "with these there are more than {} trains";
            faults.tell(&entry, form, &[Part::Number(MOST_TRAINS)]);
            return;
        }
        room -= more;
    }
}

// Tells what is wrong with the patterns, counts and ways of some trains.
fn check_trains(
    faults: &mut Faults,
    trains: &Entries,
    patterns: &[Value],
    names: &[&str],
    ways: &Ways,
) {
    let mut is_plain = true;
    for index in 0..trains.values.len() {
        let entry = trains.entry(index);
        check_entry(faults, &entry, patterns, names);
        check_train_name(faults, &entry, patterns);
        check_route(faults, &entry, ways);
        is_plain = is_plain && entry.value("pattern").is_none() && entry.value("count").is_none();
    }
    if !is_plain || 0 < ways.count() {
        check_total(faults, trains, patterns);
    }
}

// Tells what is wrong with the patterns themselves.
fn check_bases(faults: &mut Faults, bases: &Entries, names: &[&str], ways: &Ways) {
    check_once(faults, bases, names);
    for index in 0..bases.values.len() {
        let entry = bases.entry(index);
        check_entry(faults, &entry, bases.values, names);
        check_route(faults, &entry, ways);
    }
}

// Tells that there are too many patterns or ways; whether there are.
fn are_too_many(faults: &mut Faults, bases: &Entries, ways: Option<&Table>) -> bool {
    let ways = match ways {
        Some(ways) => ways.len(),
        None => 0,
    };
    if MOST_NAMED < bases.values.len() {
        let form = "this is one pattern too many: {} are the most";
        faults.tell(&bases.entry(MOST_NAMED), form, &[Part::Count(MOST_NAMED)]);
    }
    if MOST_NAMED < ways {
        let at = Entry::part(Kind::Ways, None);
        let parts = [Part::Count(ways), Part::Count(MOST_NAMED)];
        faults.tell(&at.at("ways"), "there are {} ways; {} are the most", &parts);
    }
    MOST_NAMED < bases.values.len() || MOST_NAMED < ways
}

// Tells what is wrong with the trains of a plan and of its further tables.
fn check_all_trains(
    faults: &mut Faults,
    top: &Entry,
    patterns: &[Value],
    names: &[&str],
    ways: &Ways,
) {
    check_trains(faults, &top.list(Kind::Train), patterns, names, ways);
    let tables = top.list(Kind::Table);
    for index in 0..tables.values.len() {
        let own = tables.entry(index).list(Kind::Train);
        check_trains(faults, &own, patterns, names, ways);
    }
}

// Tells what is wrong with the ways of a table, and with what rests on these patterns.
fn check_parts(faults: &mut Faults, top: &Entry, bases: &Entries, table: Option<&Table>) {
    let ways = Ways::new(faults, table);
    let names = names_of(faults, bases);
    ways.check(faults);
    check_bases(faults, bases, &names, &ways);
    check_all_trains(faults, top, bases.values, &names, &ways);
}

/// Tells all that is wrong with the patterns, counts and ways of a plan. If there is no memory for a part of it, the faults say so.
pub(crate) fn check(faults: &mut Faults, top: &Entry) {
    check_patterns(faults, top);
    let bases = top.list(Kind::Pattern);
    let ways = ways_in(top);
    if !are_too_many(faults, &bases, ways) {
        check_parts(faults, top, &bases, ways);
    }
}

// The table of the ways, if there is one.
fn ways_in<'t>(top: &Entry<'t>) -> Option<&'t Table> {
    match top.value("ways") {
        Some(ways) => ways.as_table(),
        None => None,
    }
}

// Adds an entry as often as it stands for a train.
fn push_times(faults: &mut Faults, origins: &mut Vec<usize>, entry: usize, trains: usize) {
    for _ in 0..trains {
        if origins.push(entry).is_err() {
            faults.lose();
        }
    }
}

// For each train of a list, the entry that stands for it.
fn origins_in(faults: &mut Faults, trains: &Entries, patterns: &[Value]) -> Vec<usize> {
    let mut origins = Vec::new(faults.alloc());
    for index in 0..trains.values.len() {
        let count = trains_in(&trains.entry(index), patterns);
        push_times(faults, &mut origins, index, count);
    }
    origins
}

// Adds the entries that stand for the trains of a list.
fn add_origins(faults: &mut Faults, origins: &mut Origins, trains: &Entries, patterns: &[Value]) {
    let list = origins_in(faults, trains, patterns);
    if origins.push(list).is_err() {
        faults.lose();
    }
}

/// For each train of a plan, and of its further tables, the entry that stands for it. If there is no memory for one, the faults say so.
pub(crate) fn origins_of(faults: &mut Faults, top: &Entry) -> Origins {
    let patterns = top.values("pattern");
    let mut origins = Origins::new(faults.alloc());
    add_origins(faults, &mut origins, &top.list(Kind::Train), patterns);
    let tables = top.list(Kind::Table);
    for index in 0..tables.values.len() {
        let own = tables.entry(index).list(Kind::Train);
        add_origins(faults, &mut origins, &own, patterns);
    }
    origins
}
