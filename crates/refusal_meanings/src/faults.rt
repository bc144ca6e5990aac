// Why a document has no such state.

use crate::causes::cause_of;
use crate::meanings::write_meaning;
use crate::names::{members_in, names_of};
use crate::text::Text;
use document_json::DocRefused;
use document_shapes::DocMembers;
use json::Value;
use refusal_lines::push_document;
use std::alloc::{AllocError, Global};

// The members of a document that is refused. One that is refused for its shape has none.
fn members_of_refused(
    alloc: Global,
    value: &Option<Value>,
    refused: &DocRefused,
) -> Result<Option<DocMembers>, AllocError> {
    match (value, refused) {
        (None, _) | (_, DocRefused::Shape(_)) => Ok(None),
        (Some(value), _) => members_in(alloc, value),
    }
}

/// Why `ats` refuses a document: its line, and what that means, with the names that are in the value of its text.
///
/// # Errors
///
/// Out of memory.
pub fn no_document_text(
    alloc: Global,
    value: &Option<Value>,
    refused: &DocRefused,
) -> Result<String, AllocError> {
    let mut line = String::new(alloc);
    push_document(&mut line, refused)?;
    let cause = cause_of(alloc, refused)?;
    let members = members_of_refused(alloc, value, refused)?;
    let mut text = Text::new(alloc);
    text.say("ats refuses the document: ");
    text.say(line.as_str());
    text.say("\n");
    write_meaning(&mut text, names_of(&members), cause.words, &cause.fields);
    text.into_result()
}

/// That the document has only this many tables.
///
/// # Errors
///
/// Out of memory.
pub fn no_table_text(alloc: Global, table: u32, tables: u32) -> Result<String, AllocError> {
    let mut text = Text::new(alloc);
    text.say("There is no table ");
    text.say_number(u64::from(table));
    if tables == 1 {
        text.say(": the document has table 0 only.\n");
    } else {
        text.say(": the document has tables 0 to ");
        text.say_number(u64::from(tables.saturating_sub(1)));
        text.say(".\n");
    }
    text.into_result()
}
