// The names of the sections of a plan.
ghost use Rattle.std.specs.Prelude.{◌≡◌, ◌∷◌, [], codes, IfOk, Some, map, option_copied, string_bytes};
ghost use Rattle.document_shapes.specs.Seen.{names_seen};
ghost use Rattle.plan_reading.specs.Agreeing.{text_at};
ghost use Rattle.plan_reading.specs.Said.{entries_at as entries_in_text, entries_in};
ghost use Rattle.toml.specs.View.{items_view, table_view, view};
ghost use Rattle.plan_input.specs.Named.{AreNames, further_names, name_in, names_in, section_names as names_of_sections};

use std::alloc::{AllocError, Global};
use toml::{Table, Value};

// The entries of the list at a key of a text.
fn entries_at<'t>(text: &'t Table, key: &str) -> &'t [Value]
    ensures { items_view result.now ≡ entries_in_text key.now (table_view text.now) }
{
    match text.get(key) {
        Some(value) => match value.as_array() {
            Some(values) => values.as_slice(),
            None => &[],
        },
        None => &[],
    }
}

// The sections that hold in a further table: its own, or else those of the text.
fn sections_in<'t>(text: &'t Table, own: &'t Value) -> &'t [Value]
    ensures { items_view result.now ≡ entries_in (codes "section") (table_view text.now) (Some (view own.now)) }
{
    match own.get("section") {
        Some(value) => match value.as_array() {
            Some(values) => values.as_slice(),
            None => entries_at(text, "section"),
        },
        None => entries_at(text, "section"),
    }
}

// The text at the key of names.
fn name_at<'t>(entry: &'t Value) -> Option<&'t str>
    ensures { option_copied result ≡ text_at (codes "name") (view entry.now) }
{
    match entry.get("name") {
        Some(name) => name.as_str(),
        None => None,
    }
}

// The name of an entry; empty, if it has none.
fn name_of(alloc: Global, entry: &Value) -> Result<String, AllocError>
    ensures { IfOk result (λ name. string_bytes name ≡ name_in (view entry.now)) }
{
    match name_at(entry) {
        Some(name) => String::from_str(alloc, name),
        None => Ok(String::new(alloc)),
    }
}

// The names of entries, in order.
fn names_of(alloc: Global, entries: &[Value]) -> Result<Vec<String>, AllocError>
    ensures { IfOk result (λ names. names_seen names ≡ names_in (items_view entries.now)) }
{
    let mut names = Vec::new(alloc);
    for entry in entries {
        names.push(name_of(alloc, entry)?)?;
    }
    Ok(names)
}

// The names of the sections of the first table, and of these further ones.
fn names_in_tables(
    alloc: Global,
    text: &Table,
    further: &[Value],
) -> Result<Vec<Vec<String>>, AllocError>
    ensures { IfOk result (λ names. map names_seen names.items
        ≡ names_in (entries_in_text (codes "section") (table_view text.now)) ∷ further_names (table_view text.now) (items_view further.now)) }
{
    let mut names = Vec::new(alloc);
    names.push(names_of(alloc, entries_at(text, "section"))?)?;
    for own in further {
        names.push(names_of(alloc, sections_in(text, own))?)?;
    }
    Ok(names)
}

// The names of the sections of each table of a text.
fn names_of_text(alloc: Global, text: &Table) -> Result<Vec<Vec<String>>, AllocError>
    ensures { IfOk result (λ names. map names_seen names.items ≡ names_of_sections (table_view text.now)) }
{
    names_in_tables(alloc, text, entries_at(text, "table"))
}

/// The names of the sections of each table of a plan in this text; a section without a name has an empty one. No names are found of a text
/// that isn't TOML.
pub fn section_names(alloc: Global, text: &[u8]) -> Result<Vec<Vec<String>>, AllocError>
    ensures { IfOk result (λ names. AreNames text.now names.items) }
{
    match toml::table_from_slice(alloc, text) {
        Ok(table) => names_of_text(alloc, &table),
        Err(_) => Err(AllocError),
    }
}
