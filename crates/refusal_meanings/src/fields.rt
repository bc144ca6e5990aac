// Where a refusal is: its fields, with names for their numbers.

use crate::field::Field;
use crate::names::{Names, Rows, no_rows, rows_of};
use crate::section_points::write_section_points;
use crate::shapes::shape_of;
use crate::text::Text;
use rail_model::{Connection, Node};

/// What the fields of a refusal are read with: names, and the table and the train that it speaks of.
#[derive(Clone, Copy)]
pub(crate) struct Scope<'a> {
    names: Names<'a>,
    rows: Rows<'a>,
    train: Option<usize>,
}

/// The scope of a refusal with these words and fields. One without a table speaks of table 0 if there is no other, and
/// if it is of a start.
pub(crate) fn scope_of<'a>(names: Names<'a>, words: &str, fields: &[Field]) -> Scope<'a> {
    let is_sole = names.tables.len() == 1 || words.starts_with("112 ");
    let rows = match table_among(fields) {
        Some(table) => rows_of(names.tables, table),
        None => if is_sole {
            rows_of(names.tables, 0)
        } else {
            no_rows()
        },
    };
    Scope {
        names,
        rows,
        train: train_among(fields),
    }
}

fn table_among(fields: &[Field]) -> Option<usize> {
    for field in fields {
        if let Field::Table(table) = *field {
            return Some(table);
        }
    }
    None
}

fn train_among(fields: &[Field]) -> Option<usize> {
    for field in fields {
        if let Field::Train(train) = *field {
            return Some(train);
        }
    }
    None
}

/// Adds where a refusal is: its fields.
pub(crate) fn write_where(out: &mut Text, scope: &Scope, fields: &[Field]) {
    for (index, field) in fields.iter().enumerate() {
        out.say(if index == 0 { "Where: " } else { ", " });
        write_field(out, scope, *field);
    }
    if !fields.is_empty() {
        out.say(".\n");
    }
}

// Adds a field with the names that its number stands for.
fn write_field(out: &mut Text, scope: &Scope, field: Field) {
    match field {
        Field::Table(table) => write_numbered(out, "table", table),
        Field::Train(train) | Field::Another(train) => write_named(
            out,
            "train",
            train,
            scope.names.train(train),
        ),
        Field::Point(point) => write_named(out, "point", point, scope.names.point(point)),
        Field::Place(place) => write_place(out, &scope.rows, scope.train, place),
        Field::Section(section) => write_section(out, &scope.rows, section),
        Field::Connection(connection) => write_connection(out, scope, connection),
        Field::Link(link) => write_link(out, scope.names.links, link),
        Field::Node(node) => write_node(out, scope, node),
        Field::Line(line) => {
            write_numbered(out, "line", line);
            out.say(" of the journal");
        }
        Field::Zone(zone) => write_numbered(out, "zone", zone),
        Field::Count(count) => write_numbered(out, "count", count),
        Field::Limit(limit) => write_numbered(out, "limit", limit),
        Field::Value(value) => out.say_value(value),
        Field::Member(member) => write_member(out, member),
        Field::What(what) => out.say(what),
        Field::Other { key, value } => {
            out.say(key);
            out.say(" ");
            out.say(value);
        }
    }
}

// Adds a number after what it is called.
fn write_numbered(out: &mut Text, word: &str, number: usize) {
    out.say(word);
    out.say(" ");
    out.say_number(number as u64);
}

// Adds a number after what it is called, and the name that it stands for, if there is one.
fn write_named(out: &mut Text, word: &str, number: usize, name: Option<&str>) {
    write_numbered(out, word, number);
    write_name(out, name);
}

// Adds a member and its shape.
fn write_member(out: &mut Text, member: &str) {
    out.say(member);
    if let Some(shape) = shape_of(member) {
        out.say(" (");
        out.say(shape);
        out.say(")");
    }
}

// Adds the name, if there is one.
fn write_name(out: &mut Text, name: Option<&str>) {
    if let Some(name) = name {
        out.say(" (");
        out.quote(name);
        out.say(")");
    }
}

// Adds a section, and the points at which trains have shares of it.
fn write_section(out: &mut Text, rows: &Rows, section: usize) {
    write_numbered(out, "section", section);
    if let Some(section) = rows.sections.get(section) {
        write_section_points(out, section, rows);
    }
}

// Adds a link, and the names of the points that it joins.
fn write_link(out: &mut Text, links: &[(String, String)], link: usize) {
    write_numbered(out, "link", link);
    if let Some((first, second)) = links.get(link) {
        out.say(" (");
        out.quote(first.as_str());
        out.say(", ");
        out.quote(second.as_str());
        out.say(")");
    }
}

// Adds a place, and the name of its point on the way of a train, or that the train is out of the layout.
fn write_place(out: &mut Text, rows: &Rows, train: Option<usize>, place: usize) {
    write_numbered(out, "place", place);
    if let Some(train) = train {
        write_point(out, rows, train, place);
    }
}

// Adds the name of the point at a place of a train, or that the train is out of the layout.
fn write_point(out: &mut Text, rows: &Rows, train: usize, place: usize) {
    let name = rows.point(train, place);
    if name.is_none() && rows.last_place(train) == Some(place) {
        out.say(" (out of the layout)");
    } else {
        write_name(out, name);
    }
}

// Adds a node, and what it says.
fn write_node(out: &mut Text, scope: &Scope, node: usize) {
    write_numbered(out, "node", node);
    if let Some(node) = scope.rows.nodes.get(node) {
        out.say(" (");
        write_claim(out, scope.names, *node);
        out.say(")");
    }
}

// Adds what a node says.
fn write_claim(out: &mut Text, names: Names, node: Node) {
    match node {
        Node::Split { train, place } => {
            write_train_of(out, names, train);
            out.say(" up to place ");
            out.say_number(u64::from(place));
            out.say(", or beyond it");
        }
        Node::Clash { first, second } => {
            write_train_of(out, names, first);
            out.say(" and ");
            write_train_of(out, names, second);
            out.say(" are at the same point");
        }
        Node::Overfull { section } => {
            out.say("section ");
            out.say_number(u64::from(section));
            out.say(" is overfull");
        }
        Node::Arrived => out.say("all trains have arrived"),
        Node::Move { train } => {
            write_train_of(out, names, train);
            out.say(" has a move");
        }
    }
}

// Adds a connection, and what it says.
fn write_connection(out: &mut Text, scope: &Scope, connection: usize) {
    write_numbered(out, "connection", connection);
    if let Some(rule) = scope.rows.connections.get(connection) {
        out.say(" (");
        write_rule(out, scope, rule);
        out.say(")");
    }
}

// Adds what a connection says.
fn write_rule(out: &mut Text, scope: &Scope, rule: &Connection) {
    let (train, other) = (rule.train(), rule.other());
    write_train_of(out, scope.names, train);
    out.say(" leaves ");
    write_place(
        out,
        &scope.rows,
        Some(train as usize),
        rule.place() as usize,
    );
    out.say(" after ");
    write_train_of(out, scope.names, other);
    out.say(" has reached ");
    write_place(
        out,
        &scope.rows,
        Some(other as usize),
        rule.reached() as usize,
    );
}

// Adds the name of a train, or its number where it has no name.
fn write_train_of(out: &mut Text, names: Names, train: u32) {
    match names.train(train as usize) {
        Some(name) => out.say(name),
        None => {
            out.say("train ");
            out.say_number(u64::from(train));
        }
    }
}
