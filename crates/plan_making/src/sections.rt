// The sections of a table.
use crate::lists::{owned, push};
use crate::names::{check_count, check_names, find, is_known, tell_of};
use crate::ranges::Range;
use crate::routes::{Scope, Spot, check_comes, find_place, is_place_name, point_of};
use crate::shares::{OTHERS, WEIGHTS, check_holds, is_concerned, shares};
use plan_document::{SectionPlan, share_at};
use plan_entries::{Entries, Entry, Faults, Part};
use toml::{Table, Value};

const MOST_SECTIONS: usize = 64;

const LIMITS: Range = Range {
    least: 0,
    most: 128,
    form: "a limit is 0 to 128, and this is {}",
};

// The keys of a section whose shares are said by weights.
const WEIGHING: [&str; 5] = ["points", "weight", "only", "from", "to"];

// Tells a weight for all other trains that is said twice, or whose name is that of a train.
fn check_others(faults: &mut Faults, entry: &Entry, weights: &Table, trains: &[&str]) {
    if !weights.contains_key(OTHERS) {
        return;
    }
    if weights.contains_key("") {
        let form = "the weight for all others is said twice, as {} and as {}";
        let parts = [Part::Name(OTHERS), Part::Name("")];
        faults.tell(&entry.at("weight"), form, &parts);
    }
    if is_known(trains, OTHERS) {
        let form =
            "{} is for all others, and is the name of a train too: write \"\" for all others";
        tell_of(faults, entry, "weight", OTHERS, form);
    }
}

// Tells what is wrong with the weights of trains. A weight at `default` or without a name is for all others.
fn check_weights<'x>(faults: &mut Faults, entry: &Entry<'x>, weights: &'x Table, trains: &[&str]) {
    for (name, value) in weights {
        if let Some(number) = value.as_integer() {
            let name = name.as_str();
            if !name.is_empty() && name != OTHERS {
                find(faults, entry, "weight", name, "train", trains);
            }
            WEIGHTS.check(faults, entry, "weight", name, number);
        }
    }
    check_others(faults, entry, weights, trains);
}

// Tells what is wrong with the weight of a section.
fn check_section_weight(faults: &mut Faults, entry: &Entry, trains: &[&str]) {
    match entry.value("weight") {
        Some(Value::Integer(number)) => WEIGHTS.check(faults, entry, "weight", "", *number),
        Some(Value::Table(weights)) => check_weights(faults, entry, weights, trains),
        _ => {}
    }
}

// Whether a train of the section comes to a place.
fn has_comer(entry: &Entry, name: &str, scope: &Scope) -> bool {
    for train in 0..scope.trains.len() {
        let comes = !matches!(find_place(scope.plan.route(train), name), Spot::Nowhere);
        if comes && is_concerned(entry, scope.train(train)) {
            return true;
        }
    }
    false
}

// Tells an end of a stretch to which no train of the section comes.
fn check_end<'x>(
    faults: &mut Faults,
    entry: &Entry<'x>,
    key: &'static str,
    name: &'x str,
    scope: &Scope,
) {
    let point = find(faults, entry, key, point_of(name), "point", scope.points);
    if point.is_some() && !has_comer(entry, name, scope) {
        tell_of(
            faults,
            entry,
            key,
            name,
            "no train of this section comes to {}",
        );
    }
}

// Tells an end of one train's stretch to which it doesn't come. On its route of a further table it need not.
fn check_own_end<'x>(
    faults: &mut Faults,
    entry: &Entry<'x>,
    key: &'static str,
    train: &'x str,
    place: &'x str,
    scope: &Scope,
) {
    let may_be_elsewhere = is_known(scope.points, point_of(place)) && is_place_name(place);
    if let Some(train) = find(faults, entry, key, train, "train", scope.trains)
        && (scope.table == 0 || !may_be_elsewhere)
    {
        check_comes(faults, entry, key, place, scope, train);
    }
}

// Tells what is wrong with the ends of trains' stretches.
fn check_own_ends<'x>(
    faults: &mut Faults,
    entry: &Entry<'x>,
    key: &'static str,
    ends: &'x Table,
    scope: &Scope,
) {
    for (train, value) in ends {
        if let Some(place) = value.as_str() {
            check_own_end(faults, entry, key, train.as_str(), place, scope);
        }
    }
}

// Tells what is wrong with an end of the stretches of a section.
fn check_ends(faults: &mut Faults, entry: &Entry, key: &'static str, scope: &Scope) {
    match entry.value(key) {
        Some(Value::String(name)) => check_end(faults, entry, key, name.as_str(), scope),
        Some(Value::Table(ends)) => check_own_ends(faults, entry, key, ends, scope),
        _ => {}
    }
}

// Tells each key that has no use beside `holds`.
fn check_alone_holds(faults: &mut Faults, entry: &Entry) {
    if entry.value("holds").is_none() {
        return;
    }
    for key in WEIGHING {
        if entry.value(key).is_some() {
            let form = "{} says all of it; leave out {}";
            let parts = [Part::Name("holds"), Part::Name(key)];
            faults.tell(&entry.at(key), form, &parts);
        }
    }
}

// The shares of a train; none, if there are none.
fn shares_of(section: &SectionPlan, train: usize) -> &[u8] {
    match section.shares.get(train) {
        Some(shares) => shares.as_slice(),
        None => &[],
    }
}

// The greatest share of a train.
fn most_share(section: &SectionPlan, train: usize) -> u8 {
    let mut most = 0u8;
    for share in shares_of(section, train) {
        most = most.max(*share);
    }
    most
}

// Tells each train that alone takes more of a section than its limit.
fn check_alone(faults: &mut Faults, entry: &Entry, section: &SectionPlan, scope: &Scope) {
    for train in 0..scope.trains.len() {
        let share = most_share(section, train) as u32;
        if section.limit < share {
            let parts = [
                Part::Name(scope.train(train)),
                Part::Number(share as i64),
                Part::Number(section.limit as i64),
            ];
            let form = "train {} alone takes {} of {}";
            faults.tell(&entry.at("limit"), form, &parts);
        }
    }
}

// Fills in a section of a table; what is wrong with it is reported.
fn fill(faults: &mut Faults, entry: &Entry, scope: &Scope, section: &mut SectionPlan) {
    check_section_weight(faults, entry, scope.trains);
    check_names(faults, entry, "only", "train", scope.trains);
    check_ends(faults, entry, "from", scope);
    check_ends(faults, entry, "to", scope);
    check_names(faults, entry, "points", "point", scope.points);
    check_alone_holds(faults, entry);
    check_holds(faults, entry, scope);
    section.limit = LIMITS.number_or(faults, entry, "limit", 128);
    for train in 0..scope.trains.len() {
        let shares = shares(faults, entry, scope, train);
        push(faults, &mut section.shares, shares);
    }
    check_alone(faults, entry, section, scope);
}

// A section of a table; what is wrong with it is reported.
fn section(faults: &mut Faults, entry: &Entry, scope: &Scope) -> SectionPlan {
    let mut section = SectionPlan {
        limit: 0,
        shares: Vec::new(faults.alloc()),
    };
    fill(faults, entry, scope, &mut section);
    section
}

/// The sections of a table; what is wrong with them is reported.
pub(crate) fn sections_of(
    faults: &mut Faults,
    entries: &Entries,
    scope: &Scope,
) -> Vec<SectionPlan> {
    let mut sections = Vec::new(faults.alloc());
    for index in 0..entries.values.len().min(MOST_SECTIONS) {
        let section = section(faults, &entries.entry(index), scope);
        push(faults, &mut sections, section);
    }
    let form = "this is one section too many: 64 are the most of a table";
    check_count(faults, entries, MOST_SECTIONS, form);
    sections
}

// What a train takes of a section at its start.
fn share_of(section: &SectionPlan, train: usize, starts: &[Option<usize>]) -> u8 {
    match starts.get(train) {
        Some(Some(start)) => share_at(shares_of(section, train), *start),
        _ => 0,
    }
}

// What the trains take of a section at their starts.
fn taken_at(section: &SectionPlan, scope: &Scope, starts: &[Option<usize>]) -> u32 {
    let mut taken = 0u32;
    for train in 0..scope.trains.len() {
        let share = share_of(section, train, starts);
        taken = taken.saturating_add(u32::from(share));
    }
    taken
}

// Adds the name and the share of each train that takes something of a section at its start: places for them to a form, and the parts.
fn push_taken<'x>(
    faults: &mut Faults,
    form: &mut String,
    parts: &mut Vec<Part<'x>>,
    section: &SectionPlan,
    scope: &Scope<'x>,
    starts: &[Option<usize>],
) {
    for train in 0..scope.trains.len() {
        let share = share_of(section, train, starts);
        if 0 < share {
            if form.push_str(", {} {}").is_err() {
                faults.lose();
            }
            push(faults, parts, Part::Name(scope.train(train)));
            push(faults, parts, Part::Number(share as i64));
        }
    }
}

// Tells that a section is over its limit where the trains start, and what each of them takes there.
fn tell_taken(
    faults: &mut Faults,
    entry: &Entry,
    section: &SectionPlan,
    scope: &Scope,
    starts: &[Option<usize>],
    taken: u32,
) {
    let mut form = owned(faults, "at the start {} of {} are taken");
    let mut parts = Vec::new(faults.alloc());
    push(faults, &mut parts, Part::Number(taken as i64));
    push(faults, &mut parts, Part::Number(section.limit as i64));
    push_taken(faults, &mut form, &mut parts, section, scope, starts);
    faults.tell(&entry.at("limit"), form.as_str(), &parts);
}

// Tells that a section is over its limit where the trains start, if it is.
fn check_limit(
    faults: &mut Faults,
    entry: &Entry,
    section: &SectionPlan,
    scope: &Scope,
    starts: &[Option<usize>],
) {
    let taken = taken_at(section, scope, starts);
    if section.limit < taken {
        tell_taken(faults, entry, section, scope, starts, taken);
    }
}

/// Tells each section that is over its limit where the trains start.
pub(crate) fn check_taken(
    faults: &mut Faults,
    entries: &Entries,
    scope: &Scope,
    starts: &[Option<usize>],
) {
    for (index, section) in scope.plan.sections.iter().enumerate() {
        check_limit(faults, &entries.entry(index), section, scope, starts);
    }
}
