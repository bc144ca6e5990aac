// Places on routes, by the names of their points.
use crate::names::find;
use plan_document::TablePlan;
use plan_entries::{Entry, Faults, Part};

/// What the names in a table stand for: points, trains, and what the table says of the trains.
#[derive(Clone, Copy)]
pub(crate) struct Scope<'a> {
    pub points: &'a [&'a str],
    pub trains: &'a [&'a str],
    pub plan: &'a TablePlan,
    // Counted from 0.
    pub table: usize,
}

/// Where on a route a name is.
#[derive(Clone, Copy)]
pub(crate) enum Spot {
    At(usize),
    Nowhere,
    Several,
}

impl<'a> Scope<'a> {
    /// The name of a train; empty for one that isn't there.
    pub fn train(&self, train: usize) -> &'a str {
        match self.trains.get(train) {
            Some(name) => name,
            None => "",
        }
    }
}

// The place of a point on a route, by how many times it has come before.
fn nth_place(route: &[String], point: &str, before: usize) -> Option<usize> {
    let mut seen = 0usize;
    for (place, name) in route.iter().enumerate() {
        if name.as_str() == point {
            if seen == before {
                return Some(place);
            }
            seen = seen.saturating_add(1);
        }
    }
    None
}

/// The point of a name: what comes before `#`.
pub(crate) fn point_of(name: &str) -> &str {
    match name.split_once("#") {
        Some((point, _)) => point,
        None => name,
    }
}

/// A count in decimal, from 1 on, with no sign and no leading zero.
pub(crate) fn count_of(text: &str) -> Option<usize> {
    match text.as_bytes() {
        [b'1'..=b'9', ..] => text.parse::<usize>().ok(),
        _ => None,
    }
}

/// Whether what a name has after a `#`, if it has one, is a count.
pub(crate) fn is_place_name(name: &str) -> bool {
    match name.split_once("#") {
        Some((_, count)) => count_of(count).is_some(),
        None => true,
    }
}

/// Where a name is on a route: a point, or with `#2` after it the second time that it comes.
pub(crate) fn find_place(route: &[String], name: &str) -> Spot {
    let Some((point, count)) = name.split_once("#") else {
        return match nth_place(route, name, 0) {
            Some(place) => match nth_place(route, name, 1) {
                None => Spot::At(place),
                Some(_) => Spot::Several,
            },
            None => Spot::Nowhere,
        };
    };
    if let Some(count) = count_of(count)
        && let Some(place) = nth_place(route, point, count.saturating_sub(1))
    {
        Spot::At(place)
    } else {
        Spot::Nowhere
    }
}

// Tells something of a name, which stands at a key, and of a train's route.
fn tell_on<'x>(
    faults: &mut Faults,
    at: &Entry,
    name: &'x str,
    scope: &Scope<'x>,
    train: usize,
    form: &'static str,
) {
    let parts = [
        Part::Name(name),
        Part::Name(scope.train(train)),
        Part::InTable(scope.table),
    ];
    faults.tell(at, form, &parts);
}

/// Tells a name, which stands at a key, that is nowhere on a train's route.
pub(crate) fn check_comes<'x>(
    faults: &mut Faults,
    entry: &Entry<'x>,
    key: &'static str,
    name: &'x str,
    scope: &Scope,
    train: usize,
) {
    if matches!(find_place(scope.plan.route(train), name), Spot::Nowhere)
        && find(faults, entry, key, point_of(name), "point", scope.points).is_some()
    {
        let form = "{} is not on the route of train {}{}";
        tell_on(faults, &entry.at(key).of(name), name, scope, train, form);
    }
}

/// The place of a name, which stands at a key, on a train's route, if it is one; a point that comes more than once is reported.
pub(crate) fn place_if_there<'x>(
    faults: &mut Faults,
    entry: &Entry<'x>,
    key: &'static str,
    name: &'x str,
    scope: &Scope,
    train: usize,
) -> Option<usize> {
    match find_place(scope.plan.route(train), name) {
        Spot::At(place) => Some(place),
        Spot::Nowhere => None,
        Spot::Several => {
            let form =
                "{} comes more than once on the route of train {}{}: write #1, #2 .. behind it";
            tell_on(faults, &entry.at(key).of(name), name, scope, train, form);
            None
        }
    }
}

/// The place of a name, which stands at a key, on a train's route; a name that isn't one place is reported.
pub(crate) fn place_of<'x>(
    faults: &mut Faults,
    entry: &Entry<'x>,
    key: &'static str,
    name: &'x str,
    scope: &Scope,
    train: usize,
) -> Option<usize> {
    check_comes(faults, entry, key, name, scope, train);
    place_if_there(faults, entry, key, name, scope, train)
}
