// Bytes in two parts.
ghost use Rattle.std.specs.Prelude.{◌≡◌, ◌++◌, ◌∷◌, IfSome};
ghost use Rattle.timed_reading.specs.Reads.{mark};

use memchr::{memchr, memmem};

const MARK: &[u8] = b"\njournal\n";

/// The document and the journal of an input: what comes before its first line `journal`, and what follows that.
pub fn cut(input: &[u8]) -> Option<(&[u8], &[u8])>
    ensures { IfSome result (λ parts. input.now ≡ parts.0.now ++ mark ++ parts.1.now) }
{
    let Some(place) = memmem::find(input, MARK) else {
        return None;
    };
    Some((&input[..place], &input[place + MARK.len()..]))
}

/// What comes before the first such byte, and what follows it.
pub(crate) fn split_once(bytes: &[u8], at: u8) -> Option<(&[u8], &[u8])>
    ensures { IfSome result (λ parts. bytes.now ≡ parts.0.now ++ at ∷ parts.1.now) }
{
    let Some(place) = memchr(at, bytes) else {
        return None;
    };
    Some((&bytes[..place], &bytes[place + 1..]))
}
