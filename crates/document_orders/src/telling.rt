// What is told of the orders of a document: a line for each section, and for each order that was left out.
use crate::OrderedDoc;
use document_json::{Doc, layout_of, names_of, table_of, tables_of};
use order_sections::{Chain, Order, Step, Two};
use rail_model::{Layout, Names, Table, point_of, sections_of, trains_of};
use std::alloc::{AllocError, Global};

// The name of a train.
fn train_name(names: &Names, train: u32) -> &str {
    if (train as usize) < names.trains() {
        names.train(train)
    } else {
        "?"
    }
}

fn point_name(layout: &Layout, point: u32) -> &str {
    match layout.points().get(point as usize) {
        Some(point) => point.name(),
        None => "?",
    }
}

// A table of a document with the names of its trains and points.
#[derive(Clone, Copy)]
struct Told<'a> {
    names: &'a Names,
    layout: &'a Layout,
    table: &'a Table,
    number: u32,
}

impl<'a> Told<'a> {
    // The point of a train at a place, or that it has left.
    fn point(&self, train: u32, place: u32) -> &'a str {
        if train >= trains_of(self.table) {
            return "?";
        }
        match point_of(self.table, train, place) {
            Some(point) => point_name(self.layout, point),
            None => "its exit",
        }
    }
}

// Where the train that follows must wait for the one that leads.
fn push_step(line: &mut String, told: Told<'_>, trains: Two, step: Step) -> Result<(), AllocError> {
    let from = told.point(trains.second, step.follower);
    let until = told.point(trains.first, step.leader);
    let Step { leader, follower } = step;
    write!(
        line,
        " to {from} (place {follower}) after {until} (place {leader})"
    )?;
    Ok(())
}

// Which of two trains goes behind the other, and where it must wait.
fn push_order(
    line: &mut String,
    told: Told<'_>,
    order: &Order,
    steps: &[Step],
) -> Result<(), AllocError> {
    let trains = Two {
        first: order.first(),
        second: order.second(),
    };
    let leader = train_name(told.names, trains.first);
    let follower = train_name(told.names, trains.second);
    let whose = if order.is_of_run() {
        ", in this run"
    } else {
        ""
    };
    write!(line, " {follower} goes behind {leader}{whose}:")?;
    for (count, step) in steps.iter().enumerate() {
        if count > 0 {
            line.push_str(",")?;
        }
        push_step(line, told, trains, *step)?;
    }
    Ok(())
}

// The line of a section: the orders of its chain, one after the other.
fn push_section(
    lines: &mut String,
    told: Told<'_>,
    orders: &[Order],
    section: u32,
    chain: &Chain,
) -> Result<(), AllocError> {
    let number = told.number;
    write!(lines, "tables[{number}].sections[{section}]:")?;
    for (count, link) in chain.links.iter().enumerate() {
        if count > 0 {
            lines.push_str(";")?;
        }
        if let Some(order) = orders.get(link.order) {
            push_order(lines, told, order, &link.steps)?;
        }
    }
    lines.push_str("\n")
}

// The lines of the sections that were added to a table.
fn push_table(
    lines: &mut String,
    told: Told<'_>,
    made: &OrderedDoc,
    chains: &[Chain],
) -> Result<(), AllocError> {
    let mut section = sections_of(told.table);
    for chain in chains {
        push_section(lines, told, &made.orders, section, chain)?;
        section = section.saturating_add(1);
    }
    Ok(())
}

// Why an order is left out, and what would help.
const NO_ROOM: &str =
    "since there is no room for all its sections; where several points share a section (a block), fewer are needed";

fn push_left_out(lines: &mut String, names: &Names, left_out: &[Two]) -> Result<(), AllocError> {
    for trains in left_out {
        let leader = train_name(names, trains.first);
        let follower = train_name(names, trains.second);
        write!(
            lines,
            "{follower} goes behind {leader}: left out, {NO_ROOM}\n"
        )?;
    }
    Ok(())
}

/// A line for each section that was added, with the places to which each train that follows comes only after the one that leads; and one
/// for each order that was left out. The only error is that there is no memory.
pub fn lines_of(alloc: Global, doc: &Doc, made: &OrderedDoc) -> Result<String, AllocError> {
    let mut lines = String::new(alloc);
    for number in 0..tables_of(doc) {
        let told = Told {
            names: names_of(doc),
            layout: layout_of(doc),
            table: table_of(doc, number),
            number,
        };
        if let Some(chains) = made.chains.get(number as usize) {
            push_table(&mut lines, told, made, chains.as_slice())?;
        }
    }
    push_left_out(&mut lines, names_of(doc), &made.left_out)?;
    Ok(lines)
}
