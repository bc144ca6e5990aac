// What a line of `ats` is explained with.
ghost use Rattle.std.specs.Prelude.{IfOk};
ghost use Rattle.refusal_sentences.specs.ExplainedLines.{ExplainsLine};
ghost use Rattle.refusal_sentences.specs.StateLines.{IsLineOf};

use crate::state_lines::state_of;
use crate::{Explained, explain_state};
use refusal_meanings::meaning_of;
use std::alloc::{AllocError, Global};

// The words of a line, without the name of the program.
fn words_of(line: &str) -> &str
    ensures { IsLineOf line.now result.now }
{
    match line.strip_prefix("ats: ") {
        Some(words) => words,
        None => line,
    }
}

// That a line is none of `ats`.
fn no_line_text(alloc: Global, line: &str) -> Result<String, AllocError> {
    let mut text = String::new(alloc);
    write!(
        text,
        "This is no line of ats: {line:?}. A line of ats is like 206 Stuck table=0 at=1,1.\n"
    )?;
    Ok(text)
}

/// What a line of `ats` says of a document. The line may begin with `ats: ` or with its number. One that names a state
/// is explained as [`explain_state`] does it, by the names of the sections of each table; of any other it says what it means,
/// where, and what to do about it.
pub fn explain_line(
    alloc: Global,
    bytes: &[u8],
    names: &[Vec<String>],
    line: &str,
) -> Result<Explained, AllocError>
    ensures { IfOk result (ExplainsLine bytes.now names.now line.now) }
{
    let words = words_of(line);
    match state_of(alloc, words)? {
        Some(at) => explain_state(alloc, bytes, names, at.table, at.state.as_slice()),
        None => match meaning_of(alloc, bytes, words)? {
            Some(text) => Ok(Explained::Refusal(text)),
            None => Ok(Explained::NoLine(no_line_text(alloc, line)?)),
        },
    }
}
