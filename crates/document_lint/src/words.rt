// The words of what is so of a document.
ghost use Rattle.std.specs.Prelude.{◌<◌, length};

use crate::section_words::say_section;
use crate::subject::{Subject, point_name, subject_of};
use crate::text::Text;
use document_facts::Fact;
use document_json::{Doc, after_of, layout_of, start_of, table_of, tables_of};
use legal_state::remaining;
use rail_model::{Connection, last_of};

// Adds that neither a mission nor a link leads to a point.
fn say_point(words: &mut Text, doc: &Doc, point: u32) {
    let name = point_name(layout_of(doc), point);
    words.say_name("no mission comes to ", name, ", and no link leads there");
}

// Adds that no mission goes along a link.
fn say_link(words: &mut Text, doc: &Doc, link: usize) {
    let layout = layout_of(doc);
    let Some(link) = layout.links().get(link) else {
        return;
    };
    words.say_name(
        "no mission goes from ",
        point_name(layout, link.first()),
        "",
    );
    words.say_name(" to ", point_name(layout, link.second()), " or back");
}

// Adds that a train ends where an earlier one ends.
fn say_end(words: &mut Text, subject: &Subject, train: u32, earlier: u32) {
    if !subject.has_train(train) {
        return;
    }
    words.say_name("", subject.train(train), " ends at ");
    words.say(subject.point(train, last_of(subject.table, train)));
    words.say_name(
        ", as ",
        subject.train(earlier),
        " does, and neither leaves the layout: they can never both arrive",
    );
}

// A connection of a table.
fn connection_of<'a>(subject: &Subject<'a>, connection: u32) -> Option<&'a Connection> {
    subject.table.connections().get(connection as usize)
}

// Adds that a connection is met at the start.
fn say_met(words: &mut Text, subject: &Subject, connection: u32) {
    let Some(connection) = connection_of(subject, connection) else {
        return;
    };
    words.say_name("never holds ", subject.train(connection.train()), ": ");
    words.say_name(
        "",
        subject.train(connection.other()),
        " has already reached place ",
    );
    words.say_number(
        "",
        u64::from(connection.reached()),
        " of its mission at the start",
    );
}

// Adds that a connection is passed at the start.
fn say_passed(words: &mut Text, subject: &Subject, connection: u32) {
    let Some(connection) = connection_of(subject, connection) else {
        return;
    };
    words.say_name("never holds ", subject.train(connection.train()), ", ");
    words.say_number(
        "which starts past place ",
        u64::from(connection.place()),
        " of its mission",
    );
}

// The most moves that are made before all trains have arrived under a table before this one.
fn most_moves(doc: &Doc, table: u32) -> u64
    requires { table < length doc.now.tables }
{
    let mut most: u64 = 0;
    for earlier in 0..table {
        most = most.max(remaining(table_of(doc, earlier), start_of(doc)));
    }
    most
}

// Adds that a table is due only once all trains have arrived.
fn say_after(words: &mut Text, doc: &Doc, table: u32) {
    if tables_of(doc) <= table {
        return;
    }
    words.say_number(
        "",
        u64::from(after_of(doc, table)),
        " moves are never made: ",
    );
    words.say_number(
        "all trains have arrived after ",
        most_moves(doc, table),
        " at most, and this table comes only then",
    );
}

// The names of the sections of a table.
fn names_at(names: &[Vec<String>], table: u32) -> &[String] {
    match names.get(table as usize) {
        Some(names) => names.as_slice(),
        None => &[],
    }
}

// Adds what is so of a train, a section or a connection of a table.
fn say_of_table(words: &mut Text, subject: &Subject, names: &[String], fact: Fact) {
    match fact {
        Fact::EndsAsEarlier { train, earlier, .. } => say_end(words, subject, train, earlier),
        Fact::ConnectionMet { connection, .. } => say_met(words, subject, connection),
        Fact::ConnectionPassed { connection, .. } => say_passed(words, subject, connection),
        Fact::LikeShares { section, .. }
        | Fact::SectionUnused { section, .. }
        | Fact::SectionIdle { section, .. }
        | Fact::SectionRepeated { section, .. }
        | Fact::Overfilled { section, .. }
        | Fact::KeptForGood { section, .. }
        | Fact::OverfullAtEnd { section, .. } => say_section(words, subject, names, section, fact),
        _ => {}
    }
}

// The table that a fact is about, if it is about one.
fn table_in(fact: Fact) -> Option<u32> {
    match fact {
        Fact::EndsAsEarlier { table, .. }
        | Fact::ConnectionMet { table, .. }
        | Fact::ConnectionPassed { table, .. }
        | Fact::LikeShares { table, .. }
        | Fact::SectionUnused { table, .. }
        | Fact::SectionIdle { table, .. }
        | Fact::SectionRepeated { table, .. }
        | Fact::Overfilled { table, .. }
        | Fact::KeptForGood { table, .. }
        | Fact::OverfullAtEnd { table, .. } => Some(table),
        _ => None,
    }
}

// Adds what is so in a table.
fn say_in_table(words: &mut Text, doc: &Doc, names: &[Vec<String>], fact: Fact) {
    let Some(table) = table_in(fact) else {
        return;
    };
    let Some(subject) = subject_of(doc, table) else {
        return;
    };
    say_of_table(words, &subject, names_at(names, table), fact);
}

/// Adds what is so of a document, whose sections have these names, table by table.
pub(crate) fn say_fact(words: &mut Text, doc: &Doc, names: &[Vec<String>], fact: Fact) {
    match fact {
        Fact::PointUnused { point } => say_point(words, doc, point),
        Fact::LinkUnused { link } => say_link(words, doc, link),
        Fact::MoreLinksUnused { more } => {
            words.say_number("", more as u64, " more along which no mission goes")
        }
        Fact::ZoneUnused { zone } => {
            words.say_number("no mission comes to a point of zone ", u64::from(zone), "")
        }
        Fact::NeverDue { table } => say_after(words, doc, table),
        _ => say_in_table(words, doc, names, fact),
    }
}
