// Who waits for whom in a table.
use crate::lists::push;
use crate::names::{check_count, find, tell_key, tell_of};
use crate::routes::{Scope, place_of};
use plan_document::Wait;
use plan_entries::{Entries, Entry, Faults};

const MOST_CONNECTIONS: usize = 32;

/// A number as a document has it: 0, in place of one that isn't right.
pub(crate) fn number(of: Option<usize>) -> u32 {
    u32::try_from(of.unwrap_or(0)).unwrap_or(0)
}

// The train at a key; one that isn't there is reported.
fn train_at(faults: &mut Faults, entry: &Entry, key: &'static str, scope: &Scope) -> Option<usize> {
    match entry.text(key) {
        Some(name) => find(faults, entry, key, name, "train", scope.trains),
        None => None,
    }
}

// The place at a key on the route of a train; one that isn't there is reported.
fn place_at(
    faults: &mut Faults,
    entry: &Entry,
    key: &'static str,
    scope: &Scope,
    train: Option<usize>,
) -> Option<usize> {
    if let Some(train) = train
        && let Some(name) = entry.text(key)
    {
        place_of(faults, entry, key, name, scope, train)
    } else {
        None
    }
}

// Tells a place that a train doesn't leave, since its route ends there.
fn check_leaves(faults: &mut Faults, entry: &Entry, scope: &Scope, train: usize, place: usize) {
    if scope.plan.route(train).len() <= place.saturating_add(1)
        && !scope.plan.exits_at(train)
        && let Some(name) = entry.text("leaves")
    {
        let form = "{} is never left: the route of the train ends there";
        tell_of(faults, entry, "leaves", name, form);
    }
}

// A connection of a table; what is wrong with it is reported.
fn wait(faults: &mut Faults, entry: &Entry, scope: &Scope) -> Wait {
    let train = train_at(faults, entry, "train", scope);
    let after = train_at(faults, entry, "after", scope);
    if train.is_some() && train == after {
        tell_key(faults, entry, "after", "a train doesn't wait for itself");
    }
    let leaves = place_at(faults, entry, "leaves", scope, train);
    if let Some(train) = train
        && let Some(place) = leaves
    {
        check_leaves(faults, entry, scope, train, place);
    }
    let reached = place_at(faults, entry, "reached", scope, after);
    Wait {
        train: number(train),
        leaves: number(leaves),
        after: number(after),
        reached: number(reached),
    }
}

/// The connections of a table; what is wrong with them is reported.
pub(crate) fn waits_of(faults: &mut Faults, entries: &Entries, scope: &Scope) -> Vec<Wait> {
    let mut waits = Vec::new(faults.alloc());
    for index in 0..entries.values.len().min(MOST_CONNECTIONS) {
        let wait = wait(faults, &entries.entry(index), scope);
        push(faults, &mut waits, wait);
    }
    let form = "this is one connection too many: 32 are the most of a table";
    check_count(faults, entries, MOST_CONNECTIONS, form);
    waits
}
