// A line of `ats`: its words, and its fields, as `train=2`.

use crate::field::{Field, field_of};
use std::alloc::{AllocError, Global};

/// The words of a line that are no fields, with spaces between them.
pub(crate) fn words_of(alloc: Global, line: &str) -> Result<String, AllocError> {
    let mut words = String::new(alloc);
    for word in line.split_whitespace() {
        if word.split_once('=').is_none() {
            push_word(&mut words, word)?;
        }
    }
    Ok(words)
}

fn push_word(words: &mut String, word: &str) -> Result<(), AllocError> {
    if !words.is_empty() {
        words.push_str(" ")?;
    }
    words.push_str(word)
}

/// The fields of a line with these words.
pub(crate) fn fields_of<'a>(
    alloc: Global,
    words: &str,
    line: &'a str,
) -> Result<Vec<Field<'a>>, AllocError> {
    let are_points = words == "2 DoubleName";
    let mut fields = Vec::new(alloc);
    for word in line.split_whitespace() {
        if let Some((key, value)) = word.split_once('=') {
            fields.push(field_of(key, value, are_points))?;
        }
    }
    Ok(fields)
}
