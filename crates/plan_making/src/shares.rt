// The shares that trains have of a section: by their weights, or as `holds` says.
use crate::lists::push;
use crate::names::{find, is_known, tell_of, text_of};
use crate::ranges::Range;
use crate::routes::{Scope, check_comes, is_place_name, place_if_there, point_of};
use plan_entries::{Entry, Faults, Part};
use toml::{Table, Value};

pub(crate) const WEIGHTS: Range = Range {
    least: 0,
    most: 4,
    form: "a weight is 0 to 4, and this is {}",
};

const SHARES: Range = Range {
    least: 0,
    most: 4,
    form: "a share is 0 to 4, and this is {}",
};

/// The name in a table of weights that is for all other trains, as an empty one is.
pub(crate) const OTHERS: &str = "default";

// The name in a table of shares that is for after the exit.
const AFTER_EXIT: &str = "-";

// The name in a table of shares that is for the first place.
const START: &str = "start";

// What a train takes of a section at the section's points: its weight, from one place of its route until before another.
#[derive(Clone, Copy)]
struct Holding {
    weight: u8,
    from: usize,
    until: usize,
}

// What a train takes of a section that doesn't concern it.
const NOTHING: Holding = Holding {
    weight: 0,
    from: 0,
    until: 0,
};

/// Whether a section concerns a train.
pub(crate) fn is_concerned(entry: &Entry, train: &str) -> bool {
    let Some(only) = entry.names("only") else {
        return true;
    };
    for name in only {
        if text_of(name) == train {
            return true;
        }
    }
    false
}

// The weight for all trains: 1, if none is given.
fn usual_weight(entry: &Entry) -> i64 {
    match entry.number("weight") {
        Some(number) => number,
        None => {
            let others = entry.number_for("weight", OTHERS);
            others.or(entry.number_for("weight", "")).unwrap_or(1)
        }
    }
}

// The weight of a train: its own, or that for all.
fn weight_of(entry: &Entry, train: &str) -> u8 {
    let own = entry.number_for("weight", train);
    let number = own.unwrap_or(usual_weight(entry));
    u8::try_from(WEIGHTS.number(number).unwrap_or(0)).unwrap_or(0)
}

// Where an end of a stretch is on a train's route, if one is given for the train and is there.
fn end_of(
    faults: &mut Faults,
    entry: &Entry,
    key: &'static str,
    scope: &Scope,
    train: usize,
) -> Option<usize> {
    match entry.place_for(key, scope.train(train)) {
        Some(place) => place_if_there(faults, entry, key, place, scope, train),
        None => None,
    }
}

// What a train takes of a section. Its stretch goes from its place at `from` until before its place at
// `to`: without a `from` it begins with the route, and without a `to`, or where the train doesn't come to it, it ends with
// the route. A train that the section doesn't concern, or that doesn't come to `from`, takes nothing.
fn holding_of(faults: &mut Faults, entry: &Entry, scope: &Scope, train: usize) -> Holding {
    let name = scope.train(train);
    if !is_concerned(entry, name) {
        return NOTHING;
    }
    let from = end_of(faults, entry, "from", scope, train);
    let until = end_of(faults, entry, "to", scope, train);
    if from.is_none() && entry.place_for("from", name).is_some() {
        return NOTHING;
    }
    Holding {
        weight: weight_of(entry, name),
        from: from.unwrap_or(0),
        until: until.unwrap_or(scope.plan.route(train).len()),
    }
}

// Whether a point is one of a section's: of its list, or any, if only its stretch is given.
fn has_point(entry: &Entry, point: &str) -> bool {
    let Some(points) = entry.names("points") else {
        return entry.has_places("from") || entry.has_places("to");
    };
    for name in points {
        if text_of(name) == point {
            return true;
        }
    }
    false
}

// The share of a train by its weight at a place whose point is this one.
fn weighed(entry: &Entry, holding: Holding, place: usize, point: &str) -> u8 {
    if holding.from <= place && place < holding.until && has_point(entry, point) {
        holding.weight
    } else {
        0
    }
}

// The shares of a train by its weight, with the one after its exit.
fn weighed_shares(faults: &mut Faults, entry: &Entry, scope: &Scope, train: usize) -> Vec<u8> {
    let holding = holding_of(faults, entry, scope, train);
    let mut shares = Vec::new(faults.alloc());
    for (place, point) in scope.plan.route(train).iter().enumerate() {
        let share = weighed(entry, holding, place, point.as_str());
        push(faults, &mut shares, share);
    }
    if scope.plan.exits_at(train) {
        push(faults, &mut shares, 0);
    }
    shares
}

// A number as a share; 0, in place of one that isn't right.
fn share(number: i64) -> u8 {
    u8::try_from(SHARES.number(number).unwrap_or(0)).unwrap_or(0)
}

// The shares that are said for a train, by the names of places.
fn said_for<'t>(entry: &Entry<'t>, train: &str) -> Option<&'t Table> {
    entry.value("holds")?.get(train)?.as_table()
}

// No share is said for any place of a train's route.
fn no_marks(faults: &mut Faults, scope: &Scope, train: usize) -> Vec<Option<u8>> {
    let mut marks = Vec::new(faults.alloc());
    for _ in scope.plan.route(train) {
        push(faults, &mut marks, None);
    }
    marks
}

// Marks a place with its share; false, if it has one.
fn mark(marks: &mut [Option<u8>], place: usize, share: u8) -> bool {
    if marks.len() <= place || marks[place].is_some() {
        return false;
    }
    marks[place] = Some(share);
    true
}

// The place of a name of a train's route, if it is one.
fn place_named(
    faults: &mut Faults,
    entry: &Entry,
    name: &str,
    scope: &Scope,
    train: usize,
) -> Option<usize> {
    if name == START {
        return Some(0);
    }
    place_if_there(faults, entry, "holds", name, scope, train)
}

// The shares that are said for places of a train's route. A place that is named twice is reported.
fn marks_of<'x>(
    faults: &mut Faults,
    entry: &Entry<'x>,
    scope: &Scope,
    train: usize,
    said: &'x Table,
) -> Vec<Option<u8>> {
    let mut marks = no_marks(faults, scope, train);
    for (name, value) in said {
        if let Some(number) = value.as_integer()
            && name.as_str() != AFTER_EXIT
        {
            let name = name.as_str();
            let place = place_named(faults, entry, name, scope, train);
            if let Some(place) = place
                && !mark(&mut marks, place, share(number))
            {
                let form = "{} is a place that has another name here too";
                tell_of(faults, entry, "holds", name, form);
            }
        }
    }
    marks
}

// The shares of a train as `holds` says, with the one after its exit.
fn held_shares(
    faults: &mut Faults,
    entry: &Entry,
    scope: &Scope,
    train: usize,
    said: &Table,
) -> Vec<u8> {
    let mut shares = Vec::new(faults.alloc());
    let mut now = 0u8;
    for mark in &marks_of(faults, entry, scope, train, said) {
        now = mark.unwrap_or(now);
        push(faults, &mut shares, now);
    }
    if scope.plan.exits_at(train) {
        let behind = said.get(AFTER_EXIT).and_then(Value::as_integer);
        push(faults, &mut shares, share(behind.unwrap_or(0)));
    }
    shares
}

// No share at any place of a train's route, and none after its exit.
fn no_shares(faults: &mut Faults, scope: &Scope, train: usize) -> Vec<u8> {
    let mut shares = Vec::new(faults.alloc());
    for _ in scope.plan.route(train) {
        push(faults, &mut shares, 0);
    }
    if scope.plan.exits_at(train) {
        push(faults, &mut shares, 0);
    }
    shares
}

/// The shares that a train has of a section: at each place of its route, and after its exit.
pub(crate) fn shares(faults: &mut Faults, entry: &Entry, scope: &Scope, train: usize) -> Vec<u8> {
    if entry.value("holds").is_none() {
        return weighed_shares(faults, entry, scope, train);
    }
    match said_for(entry, scope.train(train)) {
        Some(said) => held_shares(faults, entry, scope, train, said),
        None => no_shares(faults, scope, train),
    }
}

// Tells a place that a train doesn't come to. On its route of a further table it need not, nor have an exit.
fn check_place<'x>(
    faults: &mut Faults,
    entry: &Entry<'x>,
    place: &'x str,
    scope: &Scope,
    train: usize,
) {
    if place == AFTER_EXIT {
        if scope.table == 0 && !scope.plan.exits_at(train) {
            let parts = [Part::Name(AFTER_EXIT), Part::Name(scope.train(train))];
            let form = "{} without an exit: train {} stays where its route ends";
            faults.tell(&entry.at("holds").of(place), form, &parts);
        }
    } else if place == START {
        if is_known(scope.points, START) {
            let form =
                "{} is for the first place, and is the name of a point too: write #1, #2 .. behind the point";
            tell_of(faults, entry, "holds", place, form);
        }
    } else if scope.table == 0
        || !is_known(scope.points, point_of(place))
        || !is_place_name(place)
    {
        check_comes(faults, entry, "holds", place, scope, train);
    }
}

// Tells what is wrong with the shares that are said for a train.
fn check_said<'x>(
    faults: &mut Faults,
    entry: &Entry<'x>,
    scope: &Scope,
    train: usize,
    said: &'x Table,
) {
    for (place, value) in said {
        if let Some(number) = value.as_integer() {
            let place = place.as_str();
            check_place(faults, entry, place, scope, train);
            SHARES.check(faults, entry, "holds", place, number);
        }
    }
}

/// Tells what is wrong with the shares that are said for trains.
pub(crate) fn check_holds(faults: &mut Faults, entry: &Entry, scope: &Scope) {
    let Some(Value::Table(holds)) = entry.value("holds") else {
        return;
    };
    for (name, value) in holds {
        let train = find(faults, entry, "holds", name.as_str(), "train", scope.trains);
        if let Some(train) = train
            && let Value::Table(said) = value
        {
            check_said(faults, entry, scope, train, said);
        }
    }
}
