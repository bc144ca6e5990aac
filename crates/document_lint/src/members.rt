// Members that are ignored: of unknown names, of later versions, and given again; and numbers that look like shares.
use document_facts::{MAX_PLACES, MemberFact, Object, look_like_shares};
use json::Value;
use std::alloc::Global;

const DOCUMENT_MEMBERS: [&str; 7] = [
    "version", "points", "links", "zones", "trains", "start", "tables",
];

const TABLE_MEMBERS: [&str; 7] = [
    "missions",
    "exits",
    "sections",
    "connections",
    "certificate",
    "times",
    "after",
];

const SECTION_MEMBERS: [&str; 2] = ["limit", "changes"];

// This many unknown members of one object are named.
const NAMED: usize = 8;

// More tables, sections or trains than these are refused.
const MAX_TABLES: usize = 16;

const MAX_SECTIONS: usize = 64;

const MAX_TRAINS: usize = 32;

/// What is to be said of members, in the order in which it is found; and whether there was no memory for some of it.
#[derive(Drop)]
pub(crate) struct MemberFacts {
    pub list: Vec<MemberFact>,
    pub is_short: bool,
}

impl MemberFacts {
    // Adds a fact, if it holds.
    fn add_if(&mut self, holds: bool, what: MemberFact) {
        if holds && self.list.push(what).is_err() {
            self.is_short = true;
        }
    }
}

/// The members of an object in the order of the text, with those that are given again; none of another value.
pub(crate) fn members_of<'v, 'a>(value: &'v Value<'a>) -> &'v [(&'a str, Value<'a>)] {
    match value {
        Value::Object(members) => members.as_slice(),
        _ => &[],
    }
}

/// The items of an array; none of another value.
pub(crate) fn items_of<'v, 'a>(value: &'v Value<'a>) -> &'v [Value<'a>] {
    match value {
        Value::Array(items) => items.as_slice(),
        _ => &[],
    }
}

/// The items of a list that is a member of a value, if there is one.
pub(crate) fn items_in<'v, 'a>(value: &'v Value<'a>, list: &str) -> Option<&'v [Value<'a>]> {
    match value.get(list) {
        Some(items) => Some(items_of(items)),
        None => None,
    }
}

/// The names of the members that are read of an object.
pub(crate) fn known_of(object: Object) -> &'static [&'static str] {
    match object {
        Object::Document => &DOCUMENT_MEMBERS,
        Object::Table { .. } => &TABLE_MEMBERS,
        Object::Section { .. } => &SECTION_MEMBERS,
    }
}

// Whether a name is among these.
fn is_known(known: &[&str], name: &str) -> bool {
    known.contains(&name)
}

// Finds which members of an object have unknown names.
fn find_unknown(facts: &mut MemberFacts, object: Object, members: &[(&str, Value)]) {
    let known = known_of(object);
    let mut count: usize = 0;
    for number in 0..members.len() {
        if !is_known(known, members[number].0) {
            facts.add_if(count < NAMED, MemberFact::Unknown { object, number });
            count = count.saturating_add(1);
        }
    }
    let more = count.saturating_sub(NAMED);
    facts.add_if(0 < more, MemberFact::MoreUnknown { object, more });
}

/// How often an object has a member.
pub(crate) fn times_given(members: &[(&str, Value)], name: &str) -> usize {
    let mut count: usize = 0;
    for member in members {
        if member.0 == name {
            count = count.saturating_add(1);
        }
    }
    count
}

// Finds which known members an object has more than once.
fn find_repeated(facts: &mut MemberFacts, object: Object, members: &[(&str, Value)]) {
    let names = known_of(object);
    for known in 0..names.len() {
        let is_repeated = 1 < times_given(members, names[known]);
        facts.add_if(is_repeated, MemberFact::Repeated { object, known });
    }
}

// Finds which members of an object are unknown or repeated.
fn find_of_object(facts: &mut MemberFacts, object: Object, value: &Value) {
    let members = members_of(value);
    find_unknown(facts, object, members);
    find_repeated(facts, object, members);
}

// Finds that a table has a member, if it has.
fn find_given(facts: &mut MemberFacts, table: &Value, member: &str, what: MemberFact) {
    facts.add_if(table.get(member).is_some(), what);
}

// Finds which members a table has that only later versions read.
fn find_later(facts: &mut MemberFacts, number: usize, table: &Value, version: u64) {
    if version < 2 {
        find_given(
            facts,
            table,
            "exits",
            MemberFact::ExitsIgnored { table: number },
        );
    }
    if version < 3 {
        find_given(
            facts,
            table,
            "connections",
            MemberFact::ConnectionsIgnored { table: number },
        );
    }
}

// Finds what is to be said of the members of a table and of its sections.
fn find_of_table(facts: &mut MemberFacts, number: usize, table: &Value, version: u64) {
    find_of_object(facts, Object::Table { table: number }, table);
    find_later(facts, number, table, version);
    let Some(sections) = items_in(table, "sections") else {
        return;
    };
    for section in 0..sections.len().min(MAX_SECTIONS) {
        let object = Object::Section {
            table: number,
            section,
        };
        find_of_object(facts, object, &sections[section]);
    }
}

/// The version that a document says it has; 3, the last one, if it says none.
pub(crate) fn version_of(document: &Value) -> u64 {
    match document.get("version") {
        Some(version) => version.as_u64().unwrap_or(3),
        None => 3,
    }
}

// Finds what is to be said of the members of a document, of its tables and of their sections.
fn find_of_document(facts: &mut MemberFacts, document: &Value) {
    find_of_object(facts, Object::Document, document);
    let version = version_of(document);
    let Some(tables) = items_in(document, "tables") else {
        return;
    };
    for number in 0..tables.len().min(MAX_TABLES) {
        find_of_table(facts, number, &tables[number], version);
    }
}

// The change that a value is; none, if it is something else.
fn change_in(value: &Value) -> Option<i32> {
    match value.as_i64() {
        Some(number) => i32::try_from(number).ok(),
        None => None,
    }
}

/// The changes of a train, for each of its places.
#[derive(Clone, Copy)]
pub(crate) struct Numbers {
    numbers: [i32; MAX_PLACES],
    count: usize,
}

impl Numbers {
    pub(crate) fn as_slice(&self) -> &[i32] {
        match self.numbers.get(..self.count) {
            Some(numbers) => numbers,
            None => &[],
        }
    }
}

/// The changes that items are; none, if something else is among them, or more than a train can have.
pub(crate) fn changes_in(items: &[Value]) -> Option<Numbers> {
    let mut numbers: [i32; MAX_PLACES] = [0; MAX_PLACES];
    let count = items.len();
    if MAX_PLACES < count {
        return None;
    }
    for place in 0..count {
        match change_in(&items[place]) {
            Some(change) => numbers[place] = change,
            None => return None,
        }
    }
    Some(Numbers { numbers, count })
}

// Whether the items of an array look like shares.
fn are_suspect(items: &[Value], version: u64) -> bool {
    match changes_in(items) {
        Some(changes) => look_like_shares(changes.as_slice(), version),
        None => false,
    }
}

// Finds which trains' changes of a section look like shares.
fn find_suspects_of_section(
    facts: &mut MemberFacts,
    table: usize,
    section: usize,
    value: &Value,
    version: u64,
) {
    let Some(trains) = items_in(value, "changes") else {
        return;
    };
    for train in 0..trains.len().min(MAX_TRAINS) {
        facts.add_if(
            are_suspect(items_of(&trains[train]), version),
            MemberFact::MayBeShares {
                table,
                section,
                train,
            },
        );
    }
}

// Finds which changes of a table's sections look like shares.
fn find_suspects_of_table(facts: &mut MemberFacts, table: usize, value: &Value, version: u64) {
    let Some(sections) = items_in(value, "sections") else {
        return;
    };
    for section in 0..sections.len().min(MAX_SECTIONS) {
        find_suspects_of_section(facts, table, section, &sections[section], version);
    }
}

// Finds which changes of a document look like shares.
fn find_suspects(facts: &mut MemberFacts, document: &Value) {
    let version = version_of(document);
    let Some(tables) = items_in(document, "tables") else {
        return;
    };
    for table in 0..tables.len().min(MAX_TABLES) {
        find_suspects_of_table(facts, table, &tables[table], version);
    }
}

/// What is to be said of the members of a document, and, if this is asked for, which of its changes look like shares.
pub(crate) fn member_facts(alloc: Global, document: &Value, with_suspects: bool) -> MemberFacts {
    let mut facts = MemberFacts {
        list: Vec::new(alloc),
        is_short: false,
    };
    find_of_document(&mut facts, document);
    if with_suspects {
        find_suspects(&mut facts, document);
    }
    facts
}
