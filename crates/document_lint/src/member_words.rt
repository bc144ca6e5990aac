// The words of what is said of the members of a text.
use crate::members::{
    changes_in, items_in, items_of, known_of, members_of, times_given, version_of,
};
use crate::place::{say_item, say_member};
use crate::text::Text;
use document_facts::{MemberFact, Object};
use json::Value;
use rail_model::is_name;
use std::alloc::Global;
use strsim::osa_distance;

// This many characters of a name are shown.
const SHOWN: usize = 40;

// The item of a number of a list that is a member of a value.
fn item_of<'v, 'a>(value: &'v Value<'a>, list: &str, number: usize) -> Option<&'v Value<'a>> {
    match items_in(value, list) {
        Some(items) => items.get(number),
        None => None,
    }
}

// An object of a document.
fn value_of<'v, 'a>(document: &'v Value<'a>, object: Object) -> Option<&'v Value<'a>> {
    match object {
        Object::Document => Some(document),
        Object::Table { table } => item_of(document, "tables", table),
        Object::Section { table, section } => match item_of(document, "tables", table) {
            Some(table) => item_of(table, "sections", section),
            None => None,
        },
    }
}

// The name of a member of an object.
fn name_of<'a>(value: &Value<'a>, number: usize) -> &'a str {
    match members_of(value).get(number) {
        Some(member) => member.0,
        None => "",
    }
}

// The name of a member of an object of a document.
fn name_at<'a>(document: &Value<'a>, object: Object, number: usize) -> &'a str {
    match value_of(document, object) {
        Some(value) => name_of(value, number),
        None => "",
    }
}

// How often an object of a document has a member.
fn times_at(document: &Value, object: Object, name: &str) -> usize {
    match value_of(document, object) {
        Some(value) => times_given(members_of(value), name),
        None => 0,
    }
}

// The name of a member that is read of an object.
fn known_at(object: Object, known: usize) -> &'static str {
    match known_of(object).get(known) {
        Some(name) => name,
        None => "",
    }
}

// How many edits there are between two names; the greatest number, where there is no memory to find out.
fn edits_between(words: &mut Text, name: &str, candidate: &str) -> usize {
    match osa_distance(*words.words.allocator(), name, candidate) {
        Ok(edits) => edits,
        Err(_) => {
            words.is_short = true;
            usize::MAX
        }
    }
}

// The known name that a name is like: at most one edit away for every three letters. None is empty.
fn nearest<'k>(words: &mut Text, name: &str, known: &[&'k str]) -> &'k str {
    let mut found = "";
    let mut most = name.len() / 3;
    for candidate in known {
        let edits = edits_between(words, name, candidate);
        if edits <= most {
            most = edits.saturating_sub(1);
            found = *candidate;
        }
    }
    found
}

// The first characters of a name, as many as are shown.
fn shown(name: &str) -> &str {
    match name.char_indices().nth(SHOWN) {
        Some(next) => name.get(..next.0).unwrap_or(name),
        None => name,
    }
}

// Adds the name of a member, in quotes where it isn't a plain word.
fn say_called(text: &mut Text, name: &str) {
    if is_name(name) {
        text.say(name);
    } else {
        text.quote(shown(name));
    }
}

// Adds which known name a name is like, if it is like one.
fn say_meant(words: &mut Text, meant: &str) {
    if !meant.is_empty() {
        words.say_name("; did you mean \"", meant, "\"?");
    }
}

// Adds that a member is unknown, and which known name its name is like.
fn say_unknown(words: &mut Text, name: &str, known: &[&str]) {
    words.say("unknown, so it is ignored");
    if name.len() <= SHOWN {
        let meant = nearest(words, name, known);
        say_meant(words, meant);
    }
}

/// Adds that a train's numbers in a section look like shares, and the changes that make these shares, as a document has them.
pub(crate) fn say_shares(words: &mut Text, shares: &[i32]) {
    words.say("these look like shares; changes say how much the share rises at each place: ");
    let mut before: i32 = 0;
    let mut comma = "[";
    for share in shares {
        words.say_share(comma, share.saturating_sub(before), "");
        before = *share;
        comma = ",";
    }
    words.say("]");
}

// Adds that numbers look like shares.
fn say_changes(words: &mut Text, items: &[Value]) {
    match changes_in(items) {
        Some(numbers) => say_shares(words, numbers.as_slice()),
        None => {}
    }
}

// Adds that numbers of a train in a section of a document look like shares.
fn say_suspects(words: &mut Text, document: &Value, section: Object, train: usize) {
    let Some(section) = value_of(document, section) else {
        return;
    };
    match item_of(section, "changes", train) {
        Some(changes) => say_changes(words, items_of(changes)),
        None => {}
    }
}

// Adds that a member counts only from a version on.
fn say_later(words: &mut Text, version: u64, since: u64) {
    words.say_number("ignored in version ", version, "; ");
    words.say_number("it counts from version ", since, " on");
}

/// Adds the place of members.
pub(crate) fn say_member_place(place: &mut Text, document: &Value, what: MemberFact) {
    match what {
        MemberFact::Unknown { object, number } => {
            say_member(place, object, "");
            say_called(place, name_at(document, object, number));
        }
        MemberFact::MoreUnknown { object, .. } => say_member(place, object, "*"),
        MemberFact::Repeated { object, known } => say_member(
            place,
            object,
            known_at(object, known),
        ),
        MemberFact::ExitsIgnored { table } => say_member(place, Object::Table { table }, "exits"),
        MemberFact::ConnectionsIgnored { table } => {
            say_member(place, Object::Table { table }, "connections")
        }
        MemberFact::MayBeShares {
            table,
            section,
            train,
        } => say_item(place, Object::Section { table, section }, "changes", train),
    }
}

/// Adds what is to be said of members.
pub(crate) fn say_of_members(words: &mut Text, document: &Value, what: MemberFact) {
    match what {
        MemberFact::Unknown { object, number } => {
            say_unknown(words, name_at(document, object, number), known_of(object))
        }
        MemberFact::MoreUnknown { more, .. } => {
            words.say_number(
                "",
                more as u64,
                " more unknown members, which are ignored too",
            )
        }
        MemberFact::Repeated { object, known } => {
            let count = times_at(document, object, known_at(object, known));
            words.say_number("given ", count as u64, " times; the last one counts");
        }
        MemberFact::ExitsIgnored { .. } => say_later(words, version_of(document), 2),
        MemberFact::ConnectionsIgnored { .. } => say_later(words, version_of(document), 3),
        MemberFact::MayBeShares {
            table,
            section,
            train,
        } => say_suspects(words, document, Object::Section { table, section }, train),
    }
}
