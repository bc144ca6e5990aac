// Words that differ in one letter.
ghost use Rattle.std.specs.Prelude.{◌≡◌};
ghost use Rattle.plan_suspects.specs.Letters as spec;

// Whether two letters aren't two digits.
fn is_no_count(one: u8, other: u8) -> bool
    ensures { result ≡ spec.is_no_count one other }
{
    !(one.is_ascii_digit() && other.is_ascii_digit())
}

// Whether two words are the same but for their first letters, which aren't two digits.
fn is_changed(one: &[u8], other: &[u8]) -> bool
    ensures { result ≡ spec.is_changed one.now other.now }
{
    0 < one.len() && 0 < other.len() && one[1..] == other[1..] && is_no_count(one[0], other[0])
}

// Whether two words are the same but for the order of their first two letters, which aren't two digits.
fn is_swapped(one: &[u8], other: &[u8]) -> bool
    ensures { result ≡ spec.is_swapped one.now other.now }
{
    1 < one.len()
        && 1 < other.len()
        && one[2..] == other[2..]
        && one[0] == other[1]
        && one[1] == other[0]
        && is_no_count(one[0], one[1])
}

// Whether a word is another one with a letter more before it.
fn is_longer(one: &[u8], other: &[u8]) -> bool
    ensures { result ≡ spec.is_longer one.now other.now }
{
    0 < one.len() && &one[1..] == other
}

// Whether two words are the same but for one letter at their beginning.
fn is_off_here(one: &[u8], other: &[u8]) -> bool
    ensures { result ≡ spec.is_off_here one.now other.now }
{
    is_changed(one, other)
        || is_swapped(one, other)
        || is_longer(one, other)
        || is_longer(other, one)
}

// Whether two words are the same up to a place, and but for one letter there.
fn is_off_at(one: &[u8], other: &[u8], place: usize) -> bool
    ensures { result ≡ spec.is_off_at one.now other.now place }
{
    place <= one.len()
        && place <= other.len()
        && one[..place] == other[..place]
        && is_off_here(&one[place..], &other[place..])
}

// Whether two words are the same but for one letter, somewhere.
fn is_off_somewhere(one: &[u8], other: &[u8]) -> bool
    ensures { result ≡ spec.is_off_somewhere one.now other.now }
{
    (0..one.len() + 1).any(|place| is_off_at(one, other, place))
}

/// Whether two words differ in one letter: one word has another there, or has it swapped with the next, or has one more. Words of one
/// letter have nothing in common, and two digits are two numbers.
#[tactic(auto, unfolding(crate::specs::Letters::is_one_letter_off))]
pub fn is_one_letter_off(one: &[u8], other: &[u8]) -> bool
    ensures { result ≡ spec.is_one_letter_off one.now other.now }
{
    (1 < one.len() || 1 < other.len()) && is_off_somewhere(one, other)
}
