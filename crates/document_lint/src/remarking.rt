// Remarks on facts.
ghost use Rattle.std.specs.Prelude.{◌≡◌, IfOk};
ghost use Rattle.document_lint.specs.Told.{facts_of};

use crate::member_words::{say_member_place, say_of_members};
use crate::place::{say_item, say_member};
use crate::remark::Remark;
use crate::section_words::say_gone;
use crate::subject::subject_of;
use crate::text::Text;
use crate::words::say_fact;
use document_facts::{Fact, MemberFact, Object};
use document_json::{Doc, DocRefused, Kept};
use refusal_lines::push_document;
use std::alloc::{AllocError, Global};

// Adds the place of an item of a list of a table.
fn say_in_table(place: &mut Text, table: u32, list: &str, number: u32) {
    let table = table as usize;
    say_item(place, Object::Table { table }, list, number as usize);
}

// Adds the place of a train's changes of a section.
fn say_changes(place: &mut Text, table: u32, section: u32, train: u32) {
    let table = table as usize;
    let section = section as usize;
    say_item(
        place,
        Object::Section { table, section },
        "changes",
        train as usize,
    );
}

// Adds the place of what a fact of a table is about.
fn say_place_in_table(place: &mut Text, fact: Fact) {
    match fact {
        Fact::EndsAsEarlier { table, train, .. } => say_in_table(place, table, "missions", train),
        Fact::LikeShares {
            table,
            section,
            train,
        } => say_changes(place, table, section, train),
        Fact::SectionUnused { table, section }
        | Fact::SectionIdle { table, section }
        | Fact::SectionRepeated { table, section, .. }
        | Fact::Overfilled { table, section, .. }
        | Fact::KeptForGood { table, section, .. }
        | Fact::OverfullAtEnd { table, section }
        | Fact::SectionLost { table, section } => say_in_table(place, table, "sections", section),
        Fact::ConnectionMet { table, connection } | Fact::ConnectionPassed { table, connection } =>
            { say_in_table(place, table, "connections", connection) }
        Fact::NeverDue { table } => {
            let table = table as usize;
            say_member(place, Object::Table { table }, "after");
        }
        _ => {}
    }
}

// Adds the place of members, if they were read.
fn say_read_place(place: &mut Text, read: &Kept, what: MemberFact) {
    match &read.value {
        Some(value) => say_member_place(place, value, what),
        None => {}
    }
}

// Adds the place of what a fact is about.
fn say_place(place: &mut Text, read: &Kept, fact: Fact) {
    match fact {
        Fact::Refused => place.say("document"),
        Fact::FormerRefused => place.say("former document"),
        Fact::Member { what } => say_read_place(place, read, what),
        Fact::PointUnused { point } => say_item(place, Object::Document, "points", point as usize),
        Fact::LinkUnused { link } => say_item(place, Object::Document, "links", link),
        Fact::MoreLinksUnused { .. } => place.say("links"),
        Fact::ZoneUnused { .. } => place.say("zones"),
        _ => say_place_in_table(place, fact),
    }
}

// Adds of which document the place is, if it isn't the one that the remarks are on.
fn say_whose(place: &mut Text, fact: Fact) {
    match fact {
        Fact::SectionLost { .. } => place.say(" of the former document"),
        _ => {}
    }
}

// Adds why a document is refused, if it is.
fn say_refused(words: &mut Text, read: &Result<Doc, DocRefused>) {
    match read {
        Ok(_) => {}
        Err(refused) => {
            words.say("ats refuses it: ");
            let written = push_document(&mut words.words, refused);
            words.note(written);
        }
    }
}

// Adds that a section of the former document is gone.
fn say_lost(words: &mut Text, former: &Result<Doc, DocRefused>, table: u32, section: u32) {
    let Ok(former) = former else {
        return;
    };
    match subject_of(former, table) {
        Some(subject) => say_gone(words, &subject, section),
        None => {}
    }
}

// Adds what is to be said of the former document.
fn say_of_former(words: &mut Text, former: &Result<Doc, DocRefused>, fact: Fact) {
    match fact {
        Fact::SectionLost { table, section } => say_lost(words, former, table, section),
        _ => say_refused(words, former),
    }
}

// Adds what a fact says of members, if they were read.
fn say_read(words: &mut Text, read: &Kept, what: MemberFact) {
    match &read.value {
        Some(value) => say_of_members(words, value, what),
        None => {}
    }
}

// Adds what a fact says of a document.
fn say_of_document(
    words: &mut Text,
    read: &Result<Doc, DocRefused>,
    names: &[Vec<String>],
    fact: Fact,
) {
    match read {
        Ok(doc) => say_fact(words, doc, names, fact),
        Err(_) => {}
    }
}

// Adds what a fact says.
fn say_words(
    words: &mut Text,
    read: &Kept,
    former: Option<&Result<Doc, DocRefused>>,
    names: &[Vec<String>],
    fact: Fact,
) {
    match fact {
        Fact::Refused => say_refused(words, &read.document),
        Fact::FormerRefused | Fact::SectionLost { .. } => match former {
            Some(former) => say_of_former(words, former, fact),
            None => {}
        },
        Fact::Member { what } => say_read(words, read, what),
        _ => say_of_document(words, &read.document, names, fact),
    }
}

// A remark of a fact, its place and its words, if there was memory for them.
fn remark_of(fact: Fact, place: Text, words: Text) -> Result<Remark, AllocError>
    ensures { IfOk result (λ remark. remark.fact ≡ fact) }
{
    if place.is_short || words.is_short {
        return Err(AllocError);
    }
    Ok(Remark {
        fact,
        place: place.words,
        words: words.words,
    })
}

// The remark on a fact.
fn remark_on(
    alloc: Global,
    read: &Kept,
    former: Option<&Result<Doc, DocRefused>>,
    names: &[Vec<String>],
    fact: Fact,
) -> Result<Remark, AllocError>
    ensures { IfOk result (λ remark. remark.fact ≡ fact) }
{
    let mut place = Text::new(alloc);
    say_place(&mut place, read, fact);
    say_whose(&mut place, fact);
    let mut words = Text::new(alloc);
    say_words(&mut words, read, former, names, fact);
    remark_of(fact, place, words)
}

/// The remarks on facts, in order, by what was read of the bytes and of the former ones, and by the names of the sections of each table.
pub(crate) fn remarks_on(
    alloc: Global,
    read: &Kept,
    former: Option<&Result<Doc, DocRefused>>,
    names: &[Vec<String>],
    facts: &[Fact],
) -> Result<Vec<Remark>, AllocError>
    ensures { IfOk result (λ remarks. facts_of remarks.items ≡ facts.now) }
{
    let mut remarks = Vec::new(alloc);
    for fact in facts {
        remarks.push(remark_on(alloc, read, former, names, *fact)?)?;
    }
    Ok(remarks)
}
