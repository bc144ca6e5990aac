// What a refusal means, where it is, and what to do about it.

use crate::field::Field;
use crate::fields::{scope_of, write_where};
use crate::lines::{fields_of, words_of};
use crate::names::{Names, members_of, names_of};
use crate::refusals::{Refusal, refusal_of};
use crate::text::Text;
use std::alloc::{AllocError, Global};

/// What a line of `ats` means for a document, in two or three lines; `None` if it isn't one of its lines.
///
/// # Errors
///
/// Out of memory.
pub fn meaning_of(
    alloc: Global,
    document: &[u8],
    line: &str,
) -> Result<Option<String>, AllocError> {
    let words = words_of(alloc, line)?;
    let Some(refusal) = refusal_of(words.as_str()) else {
        return Ok(None);
    };
    let fields = fields_of(alloc, words.as_str(), line)?;
    let members = members_of(alloc, document)?;
    let mut text = Text::new(alloc);
    write_lines(
        &mut text,
        names_of(&members),
        words.as_str(),
        &fields,
        refusal,
    );
    Ok(Some(text.into_result()?))
}

/// Adds what a refusal with these words and fields means for a document, in two or three lines.
pub(crate) fn write_meaning(out: &mut Text, names: Names, words: &str, fields: &[Field]) {
    if let Some(refusal) = refusal_of(words) {
        write_lines(out, names, words, fields, refusal);
    }
}

// Adds what a refusal means, where it is, and what to do about it.
fn write_lines(out: &mut Text, names: Names, words: &str, fields: &[Field], refusal: Refusal) {
    out.say(refusal.meaning);
    out.say("\n");
    write_where(out, &scope_of(names, words, fields), fields);
    out.say(refusal.advice);
    out.say("\n");
}
