// Inputs that are a document and a journal.
ghost use Rattle.std.specs.Prelude.{◌≡◌, ℕ, MatchOption};
ghost use Rattle.ats_answers.specs.Journals.{IsCutAt, HasNoCut, document_part, journal_part};

use memchr::memmem;

const MARK: &[u8] = b"\njournal\n";

/// The document and the journal of an input, at the first line between them.
pub fn cut(input: &[u8]) -> Option<(&[u8], &[u8])>
    ensures { MatchOption result (HasNoCut input.now) (λ parts. (k : ℕ) × IsCutAt input.now k
        × (parts.0.now ≡ document_part input.now k) × (parts.1.now ≡ journal_part input.now k)) }
{
    let Some(place) = memmem::find(input, MARK) else {
        return None;
    };
    Some((&input[..place], &input[place + MARK.len()..]))
}
