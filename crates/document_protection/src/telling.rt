// What is told of the guards of a document: a line for each, and why there is no certificate.
ghost use Rattle.std.specs.Prelude.{◌≡◌, ◌<◌, ◌≤◌, ◌++◌, All, IfOk, OnOk, length, string_bytes};
ghost use Rattle.forbidden_states.specs.Forbid.{AreStays};
ghost use Rattle.rail_model.specs.Table.{trains};
ghost use Rattle.rail_model.specs.Names.{train_name};
ghost use Rattle.state_sentences.specs.Named.{HasNames, name_at};
ghost use Rattle.document_protection.specs.Protected.{HasGuards, HasNone, HaveGuards, IsProtected};
ghost use Rattle.document_protection.specs.Words as spec;

use crate::{Guards, ProtectedDoc, Unprotected, Why};
use document_json::{Doc, names_of, table_of};
use forbidden_states::{Stay, Stays};
use rail_model::{Names, State, Table, point_of, sections_of};
use refusal_lines::push_stuck;
use std::alloc::{AllocError, Global};

const FULL: &str = "; the table has 64 sections, and there is no room for one more\n";

const SPENT: &str = "; no more rounds are made\n";

const TRY: &str =
    "try `planner order` first, or a greater --budget or --rounds; or write a section where these trains meet, or give an exit to a train that ends in the way of others\n";

const START: &str =
    "table 0: the start is one of these states, and from it not all trains can arrive; change the start, the routes or the sections\n";

// A table with the names of its trains and points.
#[derive(Clone, Copy)]
struct NamedTable<'a> {
    names: &'a Names,
    table: &'a Table,
    ghost named: { HasNames names.now table.now },
}

impl<'a> NamedTable<'a> {
    // The name of a train.
    fn train(&self, train: u32) -> &'a str
        requires { train < trains self.now.table.now }
        ensures { result.now ≡ train_name self.now.names.now train }
    {
        self.names.train(train)
    }

    // The point of a train at a place, or that it has left.
    fn point(&self, train: u32, place: u32) -> &'a str
        requires { train < trains self.now.table.now }
        ensures { result.now ≡ spec.point_words (name_at self.now.names.now self.now.table.now train place) }
    {
        match point_of(self.table, train, place) {
            Some(point) => self.names.point(point),
            None => "its exit",
        }
    }
}

// Adds a train at a place.
fn push_place(out: &mut String, train: &str, point: &str, place: u32) -> Result<(), AllocError>
    ensures { OnOk result (string_bytes out.new ≡ string_bytes out.old ++ spec.place_words train.now point.now place) }
{
    write!(out, "{train} at {point} (place {place})")
}

// Adds from where to where a train may be.
fn push_way(out: &mut String, train: &str, first: &str, last: &str) -> Result<(), AllocError>
    ensures { OnOk result (string_bytes out.new ≡ string_bytes out.old ++ spec.way_words train.now first.now last.now) }
{
    write!(out, "{train} from {first} to {last}")
}

// Adds a range of places.
fn push_places(out: &mut String, low: u32, high: u32) -> Result<(), AllocError>
    ensures { OnOk result (string_bytes out.new ≡ string_bytes out.old ++ spec.places_words low high) }
{
    write!(out, " (places {low} to {high})")
}

// Adds a train in a range of places.
fn push_range(
    out: &mut String,
    train: &str,
    first: &str,
    last: &str,
    low: u32,
    high: u32,
) -> Result<(), AllocError>
    ensures { OnOk result (string_bytes out.new ≡ string_bytes out.old
        ++ spec.range_words train.now first.now last.now low high) }
{
    push_way(out, train, first, last)?;
    push_places(out, low, high)
}

// Adds where a train is in a stay.
fn push_stay(out: &mut String, told: &NamedTable<'_>, stay: Stay) -> Result<(), AllocError>
    requires { stay.train < trains told.now.table.now }
    ensures { OnOk result (string_bytes out.new ≡ string_bytes out.old
        ++ spec.stay_words told.now.names.now told.now.table.now stay) }
{
    let train = told.train(stay.train());
    let low = stay.span().lo();
    let high = stay.span().hi();
    let first = told.point(stay.train(), low);
    let last = told.point(stay.train(), high);
    if low == high {
        push_place(out, train, first, low)
    } else {
        push_range(out, train, first, last, low, high)
    }
}

// Adds where the trains of a guard are.
fn push_stays(out: &mut String, told: &NamedTable<'_>, stays: &[Stay]) -> Result<(), AllocError>
    requires { AreStays (trains told.now.table.now) stays.now }
    ensures { OnOk result (string_bytes out.new ≡ string_bytes out.old
        ++ spec.stays_words told.now.names.now told.now.table.now stays.now) }
{
    let Some((first, others)) = stays.split_first() else {
        return Ok(());
    };
    push_stay(out, told, *first)?;
    for stay in others {
        out.push_str(", ")?;
        push_stay(out, told, *stay)?;
    }
    Ok(())
}

// Adds which section of which table a line speaks of.
fn push_section(out: &mut String, number: u32, section: u32) -> Result<(), AllocError>
    ensures { OnOk result (string_bytes out.new ≡ string_bytes out.old ++ spec.section_words number section) }
{
    write!(
        out,
        "tables[{number}].sections[{section}]: never all at once: "
    )
}

// Adds the line of a guard, which is this section of the table with this number.
fn push_guard(
    out: &mut String,
    told: &NamedTable<'_>,
    number: u32,
    section: u32,
    stays: &[Stay],
) -> Result<(), AllocError>
    requires { AreStays (trains told.now.table.now) stays.now }
    ensures { OnOk result (string_bytes out.new ≡ string_bytes out.old
        ++ spec.guard_words told.now.names.now told.now.table.now number section stays.now) }
{
    push_section(out, number, section)?;
    push_stays(out, told, stays)?;
    out.push_str("\n")
}

// Adds the lines of the guards of a table.
fn push_guards(
    out: &mut String,
    told: &NamedTable<'_>,
    number: u32,
    guards: &[Stays],
) -> Result<(), AllocError>
    requires stays { All (AreStays (trains told.now.table.now)) guards.now }
    requires few { length guards.now ≤ 64 }
    ensures { OnOk result (string_bytes out.new ≡ string_bytes out.old
        ++ spec.guards_words told.now.names.now told.now.table.now number guards.now) }
{
    let own = sections_of(told.table);
    for (count, stays) in guards.iter().enumerate() {
        push_guard(out, told, number, own + count as u32, stays.as_slice())?;
    }
    Ok(())
}

// Adds a state that is stuck with the guards, and why there is no guard against it.
fn push_stuck_at(out: &mut String, number: u32, at: &State, because: &str) -> Result<(), AllocError>
    ensures { OnOk result (string_bytes out.new ≡ string_bytes out.old
        ++ spec.stuck_at_words number at.now because.now) }
{
    out.push_str("with these sections: ")?;
    push_stuck(out, number, at)?;
    out.push_str(because)
}

// Adds why the table with this number has no certificate.
fn push_why(out: &mut String, number: u32, why: &Why) -> Result<(), AllocError>
    ensures { OnOk result (string_bytes out.new ≡ string_bytes out.old ++ spec.why_words number why.now) }
{
    match why {
        Why::GaveUp { nodes } => write!(
            out,
            "table {number}: gave up after {nodes} nodes; whether it has a certificate with these sections isn't known\n"
        ),
        Why::Full { at } => push_stuck_at(out, number, at, FULL),
        Why::Spent { at } => push_stuck_at(out, number, at, SPENT),
    }
}

// Adds the lines of the guards of a document's first tables.
fn push_tables(out: &mut String, doc: &Doc, guards: &[Guards]) -> Result<(), AllocError>
    requires { HaveGuards doc.now guards.now }
    ensures { OnOk result (string_bytes out.new ≡ string_bytes out.old ++ spec.tables_words doc.now guards.now) }
{
    let names = names_of(doc);
    for (count, some) in guards.iter().enumerate() {
        let number = count as u32;
        let table = table_of(doc, number);
        push_guards(out, &NamedTable { names, table }, number, some.as_slice())?;
    }
    Ok(())
}

// Adds what may help.
fn push_try(out: &mut String) -> Result<(), AllocError>
    ensures { OnOk result (string_bytes out.new ≡ string_bytes out.old ++ spec.try_words) }
{
    out.push_str(TRY)
}

// Adds the guards that were found, and why those of this table aren't enough.
fn push_uncertified(
    out: &mut String,
    doc: &Doc,
    table: u32,
    guards: &[Guards],
    why: &Why,
) -> Result<(), AllocError>
    requires { HaveGuards doc.now guards.now }
    ensures { OnOk result (string_bytes out.new ≡ string_bytes out.old
        ++ spec.uncertified_words doc.now table guards.now why.now) }
{
    push_tables(out, doc, guards)?;
    push_why(out, table, why)?;
    push_try(out)
}

// Adds the guards of the first table, and that they forbid the start.
fn push_start(out: &mut String, doc: &Doc, guards: &Guards) -> Result<(), AllocError>
    requires { HasGuards doc.now 0 guards.now }
    ensures { OnOk result (string_bytes out.new ≡ string_bytes out.old ++ spec.start_words doc.now guards.now) }
{
    let names = names_of(doc);
    let table = table_of(doc, 0);
    push_guards(out, &NamedTable { names, table }, 0, guards.as_slice())?;
    out.push_str(START)
}

/// A line for each guard: the trains that it keeps from being in these places all at once, by names. The only error is
/// that there is no memory.
pub fn lines_of(alloc: Global, doc: &Doc, made: &ProtectedDoc) -> Result<String, AllocError>
    requires { IsProtected doc.now made.now.guards.items made.now.text.items }
    ensures { IfOk result (λ lines. string_bytes lines ≡ spec.tables_words doc.now made.now.guards.items) }
{
    let mut lines = String::new(alloc);
    push_tables(&mut lines, doc, &made.guards)?;
    Ok(lines)
}

/// The lines that say why a document isn't protected: the guards that were found, why they aren't enough, and what to
/// try. The only error is that there is no memory.
pub fn lines_of_why(alloc: Global, doc: &Doc, why: &Unprotected) -> Result<String, AllocError>
    requires { HasNone doc.now why.now }
    ensures { IfOk result (λ lines. string_bytes lines ≡ spec.unprotected_words doc.now why.now) }
{
    let mut lines = String::new(alloc);
    match why {
        Unprotected::Memory => return Err(AllocError),
        Unprotected::Uncertified { table, guards, why } => {
            push_uncertified(&mut lines, doc, *table, guards, why)?
        }
        Unprotected::Start { guards } => push_start(&mut lines, doc, &guards[0])?,
    }
    Ok(lines)
}
