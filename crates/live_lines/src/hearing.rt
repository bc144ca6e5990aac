// What a line is.
ghost use Rattle.std.specs.Prelude.{◌≡◌, ◌≤◌, ℕ, Result, length, List, IsTrue, ◌↔◌};
ghost use Rattle.std.specs.List.{list_all, position};
ghost use Rattle.live_lines.specs.Hearing as spec;
ghost use Rattle.live_lines.specs.Verbs.{call_of as call_in};
ghost use Rattle.move_journal.specs.Words.{word_list};

use crate::verbs::call_of;
use crate::words::split_word;
use crate::{Call, Fault, Heard};
use rail_model::Names;

/// The most bytes of a line.
pub const MOST_BYTES: usize = 256;

// Where the first byte stands that no line may have.
fn foreign_byte(line: &[u8]) -> Option<usize>
    ensures { result ≡ position spec.is_foreign line.now }
{
    line.iter().position(|byte| *byte < 32 || 126 < *byte)
}

// Whether a word begins with `#`.
fn is_marked(word: &[u8]) -> bool
    ensures { result ≡ spec.is_marked word.now }
{
    word.first() == Some(&b'#')
}

// Whether a byte may stand in a tag.
fn is_tag_byte(byte: u8) -> bool
    ensures { result ≡ spec.is_tag_byte byte }
{
    byte.is_ascii_alphanumeric() || byte == b'_' || byte == b'.' || byte == b':' || byte == b'-'
}

// Whether all bytes may stand in a tag.
fn are_tag_bytes(bytes: &[u8]) -> bool
    ensures { result ≡ list_all spec.is_tag_byte bytes.now }
{
    bytes.iter().all(|byte| is_tag_byte(*byte))
}

// Whether a word is a tag.
#[tactic(auto, unfolding(crate::specs::Hearing::is_tag))]
fn is_tag(word: &[u8]) -> bool
    ensures { result ≡ spec.is_tag word.now }
{
    is_marked(word) && 1 < word.len() && word.len() <= 33 && are_tag_bytes(&word[1..])
}

// A request, or why it is none, under a tag.
fn under(tag: usize, call: Result<Call, Fault>) -> Heard
    ensures { result ≡ spec.under tag call }
{
    match call {
        Ok(call) => Heard::Asked { tag, call },
        Err(fault) => Heard::Refused { tag, fault },
    }
}

// What the words of a line are.
#[tactic(auto, using(crate::proofs::WordCounts::no_call), unfolding(crate::specs::Hearing::heard_words))]
fn hear_words(names: &Names, reports: bool, line: &[u8]) -> Heard
    ensures { result ≡ spec.heard_words names.now reports (word_list line.now) }
{
    let (first, rest) = split_word(line);
    if is_tag(first) {
        return match rest {
            Some(rest) => under(first.len(), call_of(names, reports, rest)),
            None => under(first.len(), Err(Fault::Verb)),
        };
    }
    if is_marked(first) {
        return Heard::Refused {
            tag: 0,
            fault: Fault::Tag,
        };
    }
    under(0, call_of(names, reports, line))
}

/// What a line is, without its newline and the carriage return before it: nothing where it is empty; else the first
/// fault of its length, its bytes, its tag and its words; else a request.
#[tactic(auto, unfolding(crate::specs::Hearing::heard))]
pub fn hear(names: &Names, reports: bool, line: &[u8]) -> Heard
    ensures { result ≡ spec.heard names.now reports line.now }
{
    if line.is_empty() {
        return Heard::Empty;
    }
    if MOST_BYTES < line.len() {
        return Heard::Refused {
            tag: 0,
            fault: Fault::Long,
        };
    }
    match foreign_byte(line) {
        Some(at) => Heard::Refused {
            tag: 0,
            fault: Fault::Byte { at },
        },
        None => hear_words(names, reports, line),
    }
}
