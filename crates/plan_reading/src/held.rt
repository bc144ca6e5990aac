// Whether a section of a plan is what its entry in the text says.
ghost use Rattle.std.specs.Prelude.{◌≡◌, pos, codes, option_and_then, option_copied, option_map};
ghost use Rattle.std.specs.Ordering.{int_eq};
ghost use Rattle.toml.specs.Data.{as_table};
ghost use Rattle.toml.specs.View.{items_view, table_view, view};
ghost use Rattle.plan_reading.specs.Agreeing.{is_number as is_number_of, number_at as number_of, seen};
ghost use Rattle.plan_reading.specs.Held as spec;

use crate::matching::{has_name, number_at};
use crate::placed::{is_place, place_of};
use plan_document::{SectionPlan, TablePlan, point_at, share_at};
use plan_entries::{Entry, Kind};
use toml::{Table, Value};

// A stretch of a route: from a place until before another. It has no places if it begins nowhere, and goes on to the end of the route if
// it ends nowhere.
#[derive(Clone, Copy)]
struct Stretch {
    from: Option<usize>,
    until: Option<usize>,
}

// The entry that a value is.
fn entry_of(value: &Value) -> Entry<'_>
    ensures { option_map (λ keys. table_view keys.now) result.keys ≡ as_table (view value.now) }
{
    Entry {
        kind: Kind::Section,
        table: None,
        index: 0,
        keys: value.as_table(),
        key: "",
        name: "",
    }
}

// The names of the list at a key of an entry, if it has one.
fn names_at<'t>(entry: &'t Value, key: &str) -> Option<&'t [Value]>
    ensures { option_map (λ names. items_view names.now) result ≡ spec.names_at key.now (view entry.now) }
{
    entry_of(entry).names(key)
}

// The place that an entry says at a key for a train, if it says one.
fn place_for<'t>(entry: &'t Value, key: &str, train: &str) -> Option<&'t str>
    ensures { option_copied result ≡ spec.place_for key.now (view entry.now) train.now }
{
    entry_of(entry).place_for(key, train)
}

// The weight that an entry has for a name, if it has one.
fn weight_at(entry: &Value, name: &str) -> Option<i64>
    ensures { result ≡ spec.weight_at (view entry.now) name.now }
{
    entry_of(entry).number_for("weight", name)
}

// Whether an entry has a place or a table of places at a key.
fn says_places(entry: &Value, key: &str) -> bool
    ensures { result ≡ spec.says_places key.now (view entry.now) }
{
    entry_of(entry).has_places(key)
}

// The weight for all other trains in a table of weights: 1, if none is given.
fn other_weight(entry: &Value) -> i64
    ensures { result ≡ spec.other_weight (view entry.now) }
{
    match weight_at(entry, "default") {
        Some(weight) => weight,
        None => weight_at(entry, "").unwrap_or(1),
    }
}

// The weight for all trains that have none of their own.
fn usual_weight(entry: &Value) -> i64
    ensures { result ≡ spec.usual_weight (view entry.now) }
{
    match number_at(entry, "weight") {
        Some(weight) => weight,
        None => other_weight(entry),
    }
}

// The weight of a train: its own, or that for all.
fn weight_for(entry: &Value, train: &str) -> i64
    ensures { result ≡ spec.weight_for (view entry.now) train.now }
{
    match weight_at(entry, train) {
        Some(weight) => weight,
        None => usual_weight(entry),
    }
}

// Whether a train is one of those that a section is only for, if it is only for some.
fn is_meant(entry: &Value, train: &String) -> bool
    ensures { result ≡ spec.is_meant (spec.names_at (codes "only") (view entry.now)) train.now }
{
    match names_at(entry, "only") {
        Some(only) => has_name(only, train),
        None => true,
    }
}

// The weight that a train takes: none, if the section isn't for it.
fn weight_taken(entry: &Value, train: &String) -> i64
    ensures { result ≡ spec.weight_taken (view entry.now) train.now }
{
    if is_meant(entry, train) {
        weight_for(entry, train.as_str())
    } else {
        0
    }
}

// Where a stretch of a route begins.
fn begin_of(said: Option<&str>, route: &[String]) -> Option<usize>
    ensures { result ≡ spec.begin_of (option_copied said.entry) route.now }
{
    match said {
        Some(said) => place_of(said, route),
        None => Some(0),
    }
}

// Where a stretch of a route ends.
fn end_of(said: Option<&str>, route: &[String]) -> Option<usize>
    ensures { result ≡ spec.end_of (option_copied said.entry) route.now }
{
    match said {
        Some(said) => place_of(said, route),
        None => None,
    }
}

// The stretch of a train's route that an entry says.
fn stretch_of(entry: &Value, train: &str, route: &[String]) -> Stretch
    ensures { result ≡ spec.stretch_of (view entry.now) train.now route.now }
{
    Stretch {
        from: begin_of(place_for(entry, "from", train), route),
        until: end_of(place_for(entry, "to", train), route),
    }
}

// Whether there is a place to come to, and a train at this place has come to it.
fn has_come(there: Option<usize>, place: usize) -> bool
    ensures { result ≡ spec.has_come there place }
{
    match there {
        Some(there) => there <= place,
        None => false,
    }
}

// Whether a place lies in a stretch.
fn lies_in(stretch: Stretch, place: usize) -> bool
    ensures { result ≡ spec.lies_in stretch place }
{
    has_come(stretch.from, place) && !has_come(stretch.until, place)
}

// Whether a point is one of a section's.
fn has_point(entry: &Value, point: &String) -> bool
    ensures { result ≡ spec.has_point (spec.names_at (codes "points") (view entry.now)) (view entry.now) point.now }
{
    match names_at(entry, "points") {
        Some(names) => has_name(names, point),
        None => says_places(entry, "from") || says_places(entry, "to"),
    }
}

// Whether there is a point, and it is one of a section's.
fn is_there(entry: &Value, point: Option<&String>) -> bool
    ensures { result ≡ spec.is_there (view entry.now) (option_copied point.entry) }
{
    match point {
        Some(point) => has_point(entry, point),
        None => false,
    }
}

// What a train with this weight takes of a section at a place of its route.
fn weighed_at(entry: &Value, weight: i64, stretch: Stretch, route: &[String], place: usize) -> i64
    ensures { result ≡ spec.weighed_at (view entry.now) weight stretch route.now place }
{
    if lies_in(stretch, place) && is_there(entry, point_at(route, place)) {
        weight
    } else {
        0
    }
}

// Whether a share is the one that is said.
fn is_share(said: i64, share: u8) -> bool
    ensures { result ≡ int_eq said (pos share) }
{
    said == i64::from(share)
}

// Whether these are the shares of a train with this weight.
fn are_by_weight(
    entry: &Value,
    weight: i64,
    stretch: Stretch,
    route: &[String],
    shares: &[u8],
) -> bool
    ensures { result ≡ spec.are_said (spec.weighed_at (view entry.now) weight stretch route.now) shares.now }
{
    (0..shares.len()).all(|place| {
        let said = weighed_at(entry, weight, stretch, route, place);
        is_share(said, share_at(shares, place))
    })
}

// Whether these are the shares of a train by its weight.
fn are_weighed(entry: &Value, train: &String, route: &[String], shares: &[u8]) -> bool
    ensures { result ≡ spec.are_said (spec.weighed (view entry.now) train.now route.now) shares.now }
{
    let weight = weight_taken(entry, train);
    let stretch = stretch_of(entry, train.as_str(), route);
    are_by_weight(entry, weight, stretch, route, shares)
}

// What a table of shares has at the first of its names that names this place of a route.
fn named_in<'t>(keys: &'t Table, route: &[String], place: usize) -> Option<&'t Value>
    ensures { seen result ≡ spec.named_in (table_view keys.now) route.now place }
{
    for (name, value) in keys.iter() {
        if is_place(name.as_str(), route, place) {
            return Some(value);
        }
    }
    None
}

// The keys of a table that is said.
fn keys_of(said: Option<&Value>) -> Option<&Table>
    ensures { option_map (λ keys. table_view keys.now) result ≡ option_and_then as_table (seen said.entry) }
{
    match said {
        Some(said) => said.as_table(),
        None => None,
    }
}

// The number that is said for this place of a route, if its name is there.
fn number_named(said: Option<&Value>, route: &[String], place: usize) -> Option<i64>
    ensures { result ≡ spec.number_named (seen said.entry) route.now place }
{
    match keys_of(said) {
        Some(keys) => match named_in(keys, route, place) {
            Some(number) => number.as_integer(),
            None => None,
        },
        None => None,
    }
}

// The number that is said under a name that is no place's: `start`, or `-` for after the exit; 0, if none is.
fn number_under(said: Option<&Value>, name: &str) -> i64
    ensures { result ≡ spec.number_under name.now (seen said.entry) }
{
    match said {
        Some(said) => number_at(said, name).unwrap_or(0),
        None => 0,
    }
}

// The number that is said for the last of the first so many places of a route that is named; that at `start`, if none of them is named.
fn held(said: Option<&Value>, route: &[String], places: usize) -> i64
    ensures { result ≡ spec.held (seen said.entry) route.now places }
{
    if places == 0 {
        return number_under(said, "start");
    }
    match number_named(said, route, places - 1) {
        Some(number) => number,
        None => held(said, route, places - 1),
    }
}

// What a train has by the numbers that are said for its places: at a place of its route, or after it.
fn held_at(said: Option<&Value>, route: &[String], place: usize) -> i64
    ensures { result ≡ spec.held_at (seen said.entry) route.now place }
{
    if place < route.len() {
        held(said, route, place + 1)
    } else {
        number_under(said, "-")
    }
}

// Whether these are the shares of a train by the numbers that are said for its places.
fn are_held(said: Option<&Value>, route: &[String], shares: &[u8]) -> bool
    ensures { result ≡ spec.are_said (spec.held_at (seen said.entry) route.now) shares.now }
{
    (0..shares.len()).all(|place| is_share(held_at(said, route, place), share_at(shares, place)))
}

// Whether these are the shares of a train by what is said in `holds`, if anything is, or else by weights.
fn are_by(
    holds: Option<&Value>,
    entry: &Value,
    train: &String,
    route: &[String],
    shares: &[u8],
) -> bool
    ensures { result ≡ spec.are_said (spec.share_by (seen holds.entry) (view entry.now) train.now route.now) shares.now }
{
    match holds {
        Some(holds) => are_held(holds.get(train.as_str()), route, shares),
        None => are_weighed(entry, train, route, shares),
    }
}

// How many places a route has, with the one after an exit.
fn places(route: &[String], exits: bool) -> usize
    ensures { result ≡ spec.places route.now exits }
{
    if exits { route.len() + 1 } else { route.len() }
}

// Whether these are the shares that an entry says for a train at all its places, and no more.
fn has_shares(entry: &Value, train: &String, route: &[String], exits: bool, shares: &[u8]) -> bool
    ensures { result ≡ spec.has_shares (view entry.now) train.now route.now exits shares.now }
{
    shares.len() == places(route, exits) && are_by(entry.get("holds"), entry, train, route, shares)
}

// Whether there are shares for each train, and they are what an entry says of it.
fn are_shares(entry: &Value, trains: &[String], table: &TablePlan, shares: &[Vec<u8>]) -> bool
    ensures { result ≡ spec.are_shares (view entry.now) trains.now table.now.routes.items table.now.exits.items shares.now }
{
    let rows = table.routes.iter().zip(table.exits.iter().zip(shares));
    shares.len() == trains.len()
        && trains.iter().zip(rows).all(|(train, (route, (exits, shares)))| has_shares(
            entry, train, route, *exits, shares,
        ))
}

// Whether a section has the limit of an entry.
fn has_limit(entry: &Value, section: &SectionPlan) -> bool
    ensures { result ≡ is_number_of (number_of (codes "limit") (view entry.now)) section.now.limit }
{
    match number_at(entry, "limit") {
        Some(limit) => limit == i64::from(section.limit),
        None => false,
    }
}

/// Whether a section has the limit and the shares of its entry, in a plan with these trains, and a table with their routes and exits.
pub(crate) fn is_section(
    trains: &[String],
    table: &TablePlan,
    entry: &Value,
    section: &SectionPlan,
) -> bool
    ensures { result ≡ spec.is_section trains.now table.now.routes.items table.now.exits.items (view entry.now) section.now }
{
    has_limit(entry, section) && are_shares(entry, trains, table, &section.shares)
}
