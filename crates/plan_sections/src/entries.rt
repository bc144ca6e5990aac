// The entries of sections.
use crate::holds::push_holds;
use document_json::{Doc, table_of, tables_of};
use rail_model::Section;
use std::alloc::{AllocError, Global};

/// The command that added sections: its entries are named after what it adds.
#[derive(Clone, Copy)]
pub enum Adder {
    /// `planner order`: `order 1`, `order 2`, ..
    Order,
    /// `planner protect`: `guard 1`, `guard 2`, ..
    Protect,
}

// What the names of entries begin with.
fn label_of(adder: Adder) -> &'static str {
    match adder {
        Adder::Order => "order ",
        Adder::Protect => "guard ",
    }
}

// The line above the entries.
fn comment_of(adder: Adder) -> &'static str {
    match adder {
        Adder::Order => "# Added by planner order:\n",
        Adder::Protect => "# Added by planner protect:\n",
    }
}

// The number in a name with this label; 0, if it is none.
fn number_in(name: &str, label: &str) -> u32 {
    match name.strip_prefix(label) {
        Some(number) => number.parse::<u32>().unwrap_or(0),
        None => 0,
    }
}

// The greatest number in names of a table with this label, from one on.
fn greatest_in(names: &[String], label: &str, least: u32) -> u32 {
    let mut greatest = least;
    for name in names {
        greatest = greatest.max(number_in(name.as_str(), label));
    }
    greatest
}

// The greatest number in names with this label.
fn greatest_number(names: &[Vec<String>], label: &str) -> u32 {
    let mut greatest = 0;
    for table in names {
        greatest = greatest_in(table, label, greatest);
    }
    greatest
}

// The sections of the first table.
fn sections_of(doc: &Doc) -> &[Section] {
    if tables_of(doc) == 0 {
        &[]
    } else {
        table_of(doc, 0).sections()
    }
}

// The sections that the first table of a document has behind those of a plan, whose own document this is.
fn added<'d>(doc: &'d Doc, own: &Doc) -> &'d [Section] {
    let first = sections_of(own).len();
    sections_of(doc).get(first..).unwrap_or(&[])
}

// Adds the entry of a section.
fn push_entry(
    out: &mut String,
    doc: &Doc,
    label: &str,
    number: u32,
    section: &Section,
) -> Result<(), AllocError> {
    let limit = section.limit();
    write!(
        out,
        "[[section]]\nname = \"{label}{number}\"\nlimit = {limit}\nholds = "
    )?;
    push_holds(out, doc, section.all_changes())?;
    out.push_str("\n")
}

// The entries of sections that are named from the number after this one on.
fn entries_after(
    alloc: Global,
    doc: &Doc,
    sections: &[Section],
    adder: Adder,
    number: u32,
) -> Result<Vec<u8>, AllocError> {
    let mut out = String::new(alloc);
    let mut number = number;
    let mut before = comment_of(adder);
    for section in sections {
        number = number.saturating_add(1);
        out.push_str(before)?;
        push_entry(&mut out, doc, label_of(adder), number, section)?;
        before = "\n";
    }
    Ok(out.into_bytes())
}

/// The entries of the sections that the first table of a document has behind those of a plan, whose own document and names of sections
/// these are.
pub(crate) fn entries_of(
    alloc: Global,
    doc: &Doc,
    own: &Doc,
    names: &[Vec<String>],
    adder: Adder,
) -> Result<Vec<u8>, AllocError> {
    let number = greatest_number(names, label_of(adder));
    entries_after(alloc, doc, added(doc, own), adder, number)
}
