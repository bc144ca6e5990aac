// All that is wrong with the shapes of entries: keys that are unknown or missing, and values of wrong types.
use plan_entries::{Entry, Faults, Kind, Part, first_other};
use toml::{Table, Value};

// What the keys of lists of entries take, in words.
const TABLES: &str = "a list of tables";

// What the value of a key is.
#[derive(Clone, Copy)]
enum Takes {
    Name,
    Number,
    Flag,
    Names,
    // A number for all, or a table of them by names.
    Numbers,
    // A name for all, or a table of them by names.
    Places,
    // A table of tables of numbers.
    Shares,
    // A list of lists of names.
    Lists,
    // A table of lists of names.
    Ways,
}

impl Takes {
    // What a key takes, in words.
    fn words(self) -> &'static str {
        match self {
            Takes::Name => "a name",
            Takes::Number => "a whole number",
            Takes::Flag => "true or false",
            Takes::Names => "a list of names",
            Takes::Numbers => "a whole number, or a table of them",
            Takes::Places => "a name, or a table of them",
            Takes::Shares => "a table of tables of whole numbers",
            Takes::Lists => "a list of lists of names",
            Takes::Ways => "a table of lists of names",
        }
    }

    // Whether a value, which isn't a list or a table, is what a key takes.
    fn fits(self, value: &Value) -> bool {
        match self {
            Takes::Name | Takes::Places => value.is_str(),
            Takes::Number | Takes::Numbers => value.is_integer(),
            Takes::Flag => value.is_bool(),
            Takes::Names | Takes::Shares | Takes::Lists | Takes::Ways => false,
        }
    }
}

// Tells that a value has the wrong type.
fn tell_type(faults: &mut Faults, at: &Entry, wanted: &'static str, value: &Value) {
    let parts = [
        Part::Words(at.key),
        Part::Words(wanted),
        Part::Words(value.type_str()),
    ];
    faults.tell(at, "\"{}\" takes {}, and this is of type {}", &parts);
}

// Tells that a key is missing.
fn tell_missing(faults: &mut Faults, at: &Entry, key: &str) {
    faults.tell(at, "\"{}\" is missing", &[Part::Words(key)]);
}

// Whether a key is one of these.
fn is_known(known: &[&str], key: &str) -> bool {
    known.contains(&key)
}

// Tells a key that isn't among these.
fn tell_unknown<'x>(
    faults: &mut Faults,
    at: &Entry<'x>,
    key: &'x str,
    known: &'static [&'static str],
) {
    let parts = [Part::Name(key), Part::List(known)];
    faults.tell(&at.at(key).of(key), "no key {}; the keys are {}", &parts);
}

// Tells each key of a table that isn't among these.
fn check_keys<'x>(
    faults: &mut Faults,
    at: &Entry<'x>,
    keys: &'x Table,
    known: &'static [&'static str],
) {
    for key in keys.keys() {
        let key = key.as_str();
        if !is_known(known, key) {
            tell_unknown(faults, at, key, known);
        }
    }
}

// Tells each value of a table that isn't what it takes.
fn check_each(faults: &mut Faults, at: &Entry, takes: Takes, table: &Table) {
    let wanted = match takes {
        Takes::Numbers => "whole numbers",
        _ => "names",
    };
    for (_, value) in table {
        if !takes.fits(value) {
            tell_type(faults, at, wanted, value);
        }
    }
}

// Tells each value of a table that isn't a table of numbers, and each that isn't a number in one that is.
fn check_shares(faults: &mut Faults, at: &Entry, table: &Table) {
    for (_, value) in table {
        match value.as_table() {
            Some(numbers) => check_each(faults, at, Takes::Numbers, numbers),
            None => tell_type(faults, at, Takes::Shares.words(), value),
        }
    }
}

// Tells the first value of a list that is no name, or what isn't a list.
fn check_names(faults: &mut Faults, at: &Entry, value: &Value) {
    let other = match value.as_array() {
        Some(values) => first_other(values.as_slice()),
        None => Some(value),
    };
    if let Some(other) = other {
        tell_type(faults, at, Takes::Names.words(), other);
    }
}

// Tells each value of a list that isn't a list of names.
fn check_chains(faults: &mut Faults, at: &Entry, values: &[Value]) {
    for value in values {
        check_names(faults, at, value);
    }
}

// Tells each value of a table that isn't a list of names.
fn check_chains_of(faults: &mut Faults, at: &Entry, table: &Table) {
    for (_, value) in table {
        check_names(faults, at, value);
    }
}

// Tells what is wrong with lists of names, in a list or in a table.
fn check_in(faults: &mut Faults, at: &Entry, takes: Takes, value: &Value) {
    match value {
        Value::Array(values) if matches!(takes, Takes::Lists) => check_chains(
            faults,
            at,
            values.as_slice(),
        ),
        Value::Table(table) if matches!(takes, Takes::Ways) => check_chains_of(faults, at, table),
        _ => tell_type(faults, at, takes.words(), value),
    }
}

// Tells a value of the wrong type.
fn check_value(faults: &mut Faults, at: &Entry, takes: Takes, value: &Value) {
    match takes {
        Takes::Names => return check_names(faults, at, value),
        Takes::Lists | Takes::Ways => return check_in(faults, at, takes, value),
        Takes::Numbers | Takes::Places => if let Some(table) = value.as_table() {
            return check_each(faults, at, takes, table);
        },
        Takes::Shares => if let Some(table) = value.as_table() {
            return check_shares(faults, at, table);
        },
        _ => {}
    }
    if !takes.fits(value) {
        tell_type(faults, at, takes.words(), value);
    }
}

// The keys of an entry, in the order in which they are looked at.
fn known_keys(kind: Kind, is_further: bool) -> &'static [&'static str] {
    match kind {
        Kind::Top | Kind::Zones | Kind::Ways => &[
            "lines",
            "open",
            "switches",
            "zones",
            "ways",
            "pattern",
            "train",
            "section",
            "connection",
            "crossing",
            "scissors",
            "ladder",
            "table",
        ],
        Kind::Train if is_further => &[
            "name", "pattern", "count", "route", "exit", "times", "dwell",
        ],
        Kind::Train | Kind::Pattern => &[
            "name", "pattern", "count", "route", "start", "exit", "times", "dwell",
        ],
        Kind::Section => &[
            "name", "limit", "points", "weight", "only", "from", "to", "holds",
        ],
        Kind::Connection => &["train", "leaves", "after", "reached"],
        Kind::Crossing => &["name", "ways", "parallel"],
        Kind::Scissors => &["name", "tracks"],
        Kind::Ladder => &["name", "leads", "roads"],
        Kind::Table => &["after", "train", "section", "connection"],
    }
}

// What a key of an entry takes.
fn taken_by(kind: Kind, key: &str) -> Takes {
    match kind {
        Kind::Connection => Takes::Name,
        _ => match key {
            "name" | "pattern" | "start" => Takes::Name,
            "count" | "limit" | "after" => Takes::Number,
            "exit" | "open" => Takes::Flag,
            "times" | "dwell" | "weight" => Takes::Numbers,
            "from" | "to" => Takes::Places,
            "holds" => Takes::Shares,
            "ways" => Takes::Ways,
            "parallel" | "tracks" => Takes::Lists,
            _ => Takes::Names,
        },
    }
}

// Whether an entry has to have a key.
fn is_needed(kind: Kind, key: &str) -> bool {
    match kind {
        Kind::Connection => true,
        Kind::Train | Kind::Pattern => key == "name",
        Kind::Section => key == "limit",
        Kind::Table => key == "after",
        Kind::Crossing => key == "ways",
        Kind::Scissors => key == "tracks",
        Kind::Ladder => true,
        Kind::Top | Kind::Zones | Kind::Ways => false,
    }
}

// Tells a key of an entry that is missing, or has a value of the wrong type.
fn check_key(faults: &mut Faults, entry: &Entry, key: &'static str) {
    match entry.value(key) {
        Some(value) => {
            check_value(faults, &entry.at(key), taken_by(entry.kind, key), value);
        }
        None => if is_needed(entry.kind, key) {
            tell_missing(faults, entry, key);
        },
    }
}

// Tells that an entry lacks its points. A train of a further table has those of the first.
fn check_points(faults: &mut Faults, entry: &Entry) {
    match entry.kind {
        Kind::Train => if entry.table.is_none() && entry.value("route").is_none() {
            tell_missing(faults, entry, "route");
        },
        Kind::Section => {
            if entry.value("points").is_none()
                && entry.value("from").is_none()
                && entry.value("to").is_none()
                && entry.value("holds").is_none()
            {
                tell_missing(faults, entry, "points");
            }
        }
        _ => {}
    }
}

// Tells what is wrong with the values of an entry, but for lists of entries.
fn check_values(faults: &mut Faults, entry: &Entry) {
    let keys = match entry.kind {
        Kind::Table => &["after"],
        kind => known_keys(kind, false),
    };
    for key in keys {
        check_key(faults, entry, key);
    }
}

// Tells what is wrong with the shape of an entry.
fn check_entry(faults: &mut Faults, entry: &Entry) {
    match entry.keys {
        Some(keys) => {
            let known = known_keys(entry.kind, entry.table.is_some());
            check_keys(faults, entry, keys, known);
            check_points(faults, entry);
            check_values(faults, entry);
        }
        None => faults.tell(entry, "this is no table of keys", &[]),
    }
}

// Tells what isn't a list of what is wanted, at a key that has a value.
fn check_list(faults: &mut Faults, entry: &Entry, key: &'static str, wanted: &'static str) {
    if let Some(value) = entry.value(key)
        && !value.is_array()
    {
        tell_type(faults, &entry.at(key), wanted, value);
    }
}

// Tells what is wrong with the shapes of the entries of a kind.
fn check_entries(faults: &mut Faults, above: &Entry, kind: Kind) {
    check_list(faults, above, kind.word(), TABLES);
    let entries = above.list(kind);
    for index in 0..entries.values.len() {
        check_entry(faults, &entries.entry(index));
    }
}

// Tells what is wrong with the shapes of the trains, sections and connections of the plan, or of a further table.
fn check_lists(faults: &mut Faults, above: &Entry) {
    check_entries(faults, above, Kind::Train);
    check_entries(faults, above, Kind::Section);
    check_entries(faults, above, Kind::Connection);
}

// Tells what is wrong with the shapes of the further tables.
fn check_tables(faults: &mut Faults, top: &Entry) {
    check_list(faults, top, Kind::Table.word(), TABLES);
    let tables = top.list(Kind::Table);
    for index in 0..tables.values.len() {
        let table = tables.entry(index);
        check_entry(faults, &table);
        check_lists(faults, &table);
    }
}

// Tells what is wrong with the shapes of the chains of points.
fn check_lines(faults: &mut Faults, top: &Entry) {
    check_list(faults, top, "lines", "a list of lists of points");
    for line in top.values("lines") {
        check_names(faults, &top.at("lines"), line);
    }
}

// Tells each zone that isn't a list of names.
fn check_each_zone(faults: &mut Faults, zones: &Table) {
    for (zone, points) in zones {
        let at = Entry::part(Kind::Zones, None);
        check_names(faults, &at.at(zone.as_str()), points);
    }
}

// Tells what is wrong with the shapes of the zones.
fn check_zones(faults: &mut Faults, top: &Entry) {
    match top.value("zones") {
        Some(Value::Table(zones)) => check_each_zone(faults, zones),
        Some(_) => {
            let at = Entry::part(Kind::Zones, None);
            faults.tell(
                &at.at("zones"),
                "\"zones\" takes a table of lists of points",
                &[],
            );
        }
        None => {}
    }
}

// Tells each way that isn't a list of names.
fn check_each_way(faults: &mut Faults, ways: &Table) {
    for (way, points) in ways {
        let at = Entry::part(Kind::Ways, None);
        check_names(faults, &at.at(way.as_str()), points);
    }
}

// Tells what is wrong with the shapes of the ways.
fn check_ways(faults: &mut Faults, top: &Entry) {
    match top.value("ways") {
        Some(Value::Table(ways)) => check_each_way(faults, ways),
        Some(_) => {
            let at = Entry::part(Kind::Ways, None);
            faults.tell(
                &at.at("ways"),
                "\"ways\" takes a table of lists of points",
                &[],
            );
        }
        None => {}
    }
}

/// Tells what is wrong with the shapes of a plan's patterns and ways.
pub fn check_patterns(faults: &mut Faults, top: &Entry) {
    check_entries(faults, top, Kind::Pattern);
    check_ways(faults, top);
}

/// Tells what is wrong with a train's pattern and its count, if it has them.
pub fn check_counts(faults: &mut Faults, train: &Entry) {
    check_key(faults, train, "pattern");
    check_key(faults, train, "count");
}

/// Tells what is wrong with the shapes of a plan's entries.
pub fn check_types(faults: &mut Faults, top: &Entry) {
    if let Some(keys) = top.keys {
        check_keys(faults, top, keys, known_keys(Kind::Top, false));
    }
    check_lines(faults, top);
    check_key(faults, top, "open");
    check_key(faults, top, "switches");
    check_zones(faults, top);
    check_lists(faults, top);
    check_entries(faults, top, Kind::Crossing);
    check_entries(faults, top, Kind::Scissors);
    check_entries(faults, top, Kind::Ladder);
    check_tables(faults, top);
}
