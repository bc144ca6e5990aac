// The reader of a text.
ghost use Rattle.std.specs.Prelude.{◌≡◌, ℕ, List};
ghost use Rattle.rail_model.specs.Journal.{Journal as JournalValue};
ghost use Rattle.rail_model.specs.Names.{Names as NamesValue, IsNames};
ghost use Rattle.move_journal.specs.declared.lines.Part.{Part as PartValue};
ghost use Rattle.move_journal.specs.Answers.{ReadsJournal, AnswersPrefix, GivesValue, IsTextPart, IsTextOf};
ghost use Rattle.move_journal.specs.Heads.{IsHead, IsContent};

use crate::words::{end_of, numbered_of, split_once};
use crate::{BadText, Journal, Part};
use rail_model::{Line, Names};
use std::alloc::Global;

/// The journal that the bytes are the text of.
///
/// # Errors
///
/// The first fault of the bytes, from the front: a line of no form, a line whose number isn't its place, bytes
/// after the end line, or no end line. `Memory` where memory runs out, whatever the bytes are.
pub fn read(alloc: Global, names: &Names, bytes: &[u8]) -> Result<Journal, BadText>
    // The text of a journal, or its first fault.
    ensures exact { ReadsJournal names.now bytes.now result }
    // What was written is read again, unless memory runs out.
    ensures again { (J : JournalValue) → IsTextOf names.now bytes.now J → GivesValue J result }
{
    whole(read_prefix(alloc, names, bytes))
}

/// The journal that the bytes are the text of, or the front of one, where the end line is missing.
///
/// # Errors
///
/// Those of `read` but `NoEnd`: the missing end line is no fault here.
pub fn read_prefix(alloc: Global, names: &Names, bytes: &[u8]) -> Result<Part, BadText>
    // A text or its front, or the first fault.
    ensures exact { AnswersPrefix names.now bytes.now result }
    // What was written is read again, unless memory runs out.
    ensures again { (part : PartValue) → IsTextPart names.now bytes.now part → GivesValue part result }
    ensures formed { IsNames names.now }
{
    // Read for the proof: the names are well formed.
    let _trains = names.trains();
    lines_from(alloc, names, bytes)
}

// A text that lacks its end line is no text.
fn whole(part: Result<Part, BadText>) -> Result<Journal, BadText>
    ensures { (N : NamesValue) (bytes : List ℕ) → AnswersPrefix N bytes part → ReadsJournal N bytes result }
{
    match part {
        Ok(Part::Whole(journal)) => Ok(journal),
        Ok(Part::Open(_)) => Err(BadText::NoEnd),
        Err(fault) => Err(fault),
    }
}

// Line after line, up to an end line or the end of the bytes.
fn lines_from(alloc: Global, names: &Names, bytes: &[u8]) -> Result<Part, BadText>
    requires { IsNames names.now }
    ensures { AnswersPrefix names.now bytes.now result }
{
    let mut lines = Vec::new(alloc);
    let mut rest = bytes;
    let mut wanted: u64 = 1;
    while !rest.is_empty() {
        let (head, later) = head_of(names, rest);
        match head {
            Head::Numbered { number, line } => {
                if u64::from(number) != wanted {
                    return Err(BadText::Number { line: wanted });
                }
                lines.push(line)?;
                wanted += 1;
                rest = later;
            }
            Head::End { moves, tables } => {
                if !later.is_empty() {
                    return Err(BadText::After);
                }
                return Ok(Part::Whole(Journal::new(lines, moves, tables)));
            }
            Head::Other => return Err(BadText::Line { line: wanted }),
        }
    }
    Ok(Part::Open(Journal::from_lines(lines)))
}

// What a line is: a line with its number, an end line, or neither.
#[derive(Clone, Copy)]
enum Head {
    Numbered { number: u32, line: Line },
    End { moves: u32, tables: u32 },
    Other,
}

// The first line, and what follows it.
fn head_of<'a>(names: &Names, rest: &'a [u8]) -> (Head, &'a [u8])
    requires { IsNames names.now }
    ensures { IsHead names.now rest.entry.now result.0 result.1.now }
{
    match split_once(rest, b'\n') {
        Some((content, later)) => (content_of(names, content), later),
        None => (Head::Other, rest),
    }
}

// What the bytes before a newline are.
fn content_of(names: &Names, content: &[u8]) -> Head
    ensures { IsContent names.now content.now result }
{
    if let Some((number, line)) = numbered_of(names, content) {
        return Head::Numbered { number, line };
    }
    if let Some((moves, tables)) = end_of(content) {
        return Head::End { moves, tables };
    }
    Head::Other
}
