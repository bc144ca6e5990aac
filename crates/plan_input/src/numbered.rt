// Names by a word and a number, for sections that have none of their own.
ghost use Rattle.std.specs.Prelude.{◌≡◌, ◌<◌, ◌≤◌, ◌-◌, ◌++◌, [], IfOk, length, map, slice_index_or, string_bytes};
ghost use Rattle.document_shapes.specs.Seen.{names_seen};
ghost use Rattle.plan_input.specs.Numbered.{all_names, numbered, numbered_name, with_numbered};

use document_json::{Doc, table_of, tables_of};
use rail_model::sections_of;
use std::alloc::{AllocError, Global};

/// Sections that have no names of their own: what they are called, and where they are.
#[derive(Clone, Copy)]
pub(crate) enum Further {
    /// Those of crossings: before the others.
    Crossing,
    /// Those that were added: behind the others.
    Added,
}

// What a section is called by a word and its number, counted from 1.
fn numbered_name(alloc: Global, word: &str, number: u32) -> Result<String, AllocError>
    requires { number < 64 }
    ensures { IfOk result (λ name. string_bytes name ≡ numbered_name word.now number) }
{
    let number = number + 1;
    format!(in alloc; "{word} {number}")
}

// The same names once more.
fn copied(alloc: Global, names: &[String]) -> Result<Vec<String>, AllocError>
    ensures { IfOk result (λ copied. names_seen copied ≡ map string_bytes names.now) }
{
    let mut copied = Vec::new(alloc);
    for name in names {
        copied.push(String::from_str(alloc, name.as_str())?)?;
    }
    Ok(copied)
}

// The names of so many sections.
fn numbered(alloc: Global, word: &str, count: u32) -> Result<Vec<String>, AllocError>
    requires { count ≤ 64 }
    ensures { IfOk result (λ names. names_seen names ≡ numbered word.now count) }
{
    let mut names = Vec::new(alloc);
    for number in 0..count {
        names.push(numbered_name(alloc, word, number)?)?;
    }
    Ok(names)
}

// How many sections have no name, of this many in all.
fn unnamed(names: &[String], count: u32) -> u32
    requires { count ≤ 64 }
    ensures few { result ≤ 64 }
    ensures unnamed { result ≡ count - length names.now }
{
    (count as usize).saturating_sub(names.len()) as u32
}

// Names behind others.
fn joined(first: Vec<String>, names: Vec<String>) -> Result<Vec<String>, AllocError>
    ensures { IfOk result (λ all. names_seen all ≡ names_seen first ++ names_seen names) }
{
    let mut all = first;
    let mut names = names;
    all.append(&mut names)?;
    Ok(all)
}

// Names, and those of the sections beside them, of which there are this many in all.
fn with_numbered(
    alloc: Global,
    further: Further,
    names: &[String],
    count: u32,
) -> Result<Vec<String>, AllocError>
    requires { count ≤ 64 }
    ensures { IfOk result (λ all. names_seen all ≡ with_numbered further (map string_bytes names.now) count) }
{
    let unnamed = unnamed(names, count);
    let named = copied(alloc, names)?;
    match further {
        Further::Crossing => joined(numbered(alloc, "crossing", unnamed)?, named),
        Further::Added => joined(named, numbered(alloc, "added", unnamed)?),
    }
}

// The names of a table; none, if there is no such table.
fn names_at(names: &[Vec<String>], table: u32) -> &[String]
    ensures { map string_bytes result.now ≡ slice_index_or (map names_seen names.now) table [] }
{
    match names.get(table as usize) {
        Some(names) => names.as_slice(),
        None => &[],
    }
}

/// The names of the sections of each table of a document, of which some have these, and the others have none of their own.
pub(crate) fn all_names(
    alloc: Global,
    further: Further,
    doc: &Doc,
    names: &[Vec<String>],
) -> Result<Vec<Vec<String>>, AllocError>
    ensures { IfOk result (λ all. map names_seen all.items ≡ all_names further doc.now (map names_seen names.now)) }
{
    let mut all = Vec::new(alloc);
    for table in 0..tables_of(doc) {
        let count = sections_of(table_of(doc, table));
        all.push(with_numbered(alloc, further, names_at(names, table), count)?)?;
    }
    Ok(all)
}
