// The words after a verb.
ghost use Rattle.std.specs.Prelude.{◌≡◌, ◌≢◌, [], ◌∷◌, ◌++◌, All, MatchOption};
ghost use Rattle.std.specs.Char.{is_ascii_digit};
ghost use Rattle.std.specs.List.{list_all};
ghost use Rattle.live_lines.specs.Words as spec;
ghost use Rattle.move_journal.specs.Words.{called, word_list, HasMore};

use crate::Fault;
use decimal_number::number_of;
use rail_model::Names;

// What comes before the first space, and what follows it.
fn split_at_space(bytes: &[u8]) -> Option<(&[u8], &[u8])>
    ensures { MatchOption result (All (λ b. b ≢ 32) bytes.now)
        (λ parts. (bytes.now ≡ parts.0.now ++ 32 ∷ parts.1.now) × All (λ b. b ≢ 32) parts.0.now) }
{
    for i in 0..bytes.len() {
        if bytes[i] == b' ' {
            return Some((&bytes[..i], &bytes[i + 1..]));
        }
    }
    None
}

/// The first word, and what follows the space after it.
pub(crate) fn split_word(bytes: &[u8]) -> (&[u8], Option<&[u8]>)
    ensures { MatchOption result.1 (word_list bytes.now ≡ result.0.now ∷ [])
        (λ later. word_list bytes.now ≡ result.0.now ∷ word_list later.now) }
{
    match split_at_space(bytes) {
        Some((word, later)) => (word, Some(later)),
        None => (bytes, None),
    }
}

/// The only word.
pub(crate) fn last_word(bytes: &[u8]) -> Option<&[u8]>
    ensures { MatchOption result (HasMore bytes.now) (λ word. word_list bytes.now ≡ word.now ∷ []) }
{
    match split_at_space(bytes) {
        Some(_) => None,
        None => Some(bytes),
    }
}

/// A train, and a place where one was named.
#[derive(Clone, Copy)]
pub(crate) struct Named {
    pub(crate) train: u32,
    pub(crate) place: Option<u32>,
}

// The train that is called so, if there is one.
fn train_of(names: &Names, word: &[u8]) -> Option<u32>
    ensures { result ≡ called names.now.trains word.now }
{
    names.train_called(word)
}

/// The train that is called so.
pub(crate) fn train_word(names: &Names, word: &[u8]) -> Result<u32, Fault>
    ensures { result ≡ spec.train_word names.now word.now }
{
    train_of(names, word).ok_or(Fault::Train)
}

// Whether all bytes are digits.
fn are_digits(word: &[u8]) -> bool
    ensures { result ≡ list_all is_ascii_digit word.now }
{
    word.iter().all(|byte| byte.is_ascii_digit())
}

// Whether a word is ten digits, of which the first isn't 0.
fn has_ten_digits(word: &[u8]) -> bool
    ensures { result ≡ spec.has_ten_digits word.now }
{
    word.len() == 10 && word[0] != b'0' && are_digits(word)
}

/// A whole number. Ten digits that are above 4,294,967,295 are read as that.
#[tactic(auto, unfolding(crate::specs::Words::number_word))]
pub(crate) fn number_word(word: &[u8]) -> Result<u32, Fault>
    ensures { result ≡ spec.number_word word.now }
{
    if let Some(number) = number_of(word) {
        return Ok(number);
    }
    if has_ten_digits(word) {
        Ok(u32::MAX)
    } else {
        Err(Fault::Words)
    }
}

/// The only word, a train.
pub(crate) fn only_train(names: &Names, rest: &[u8]) -> Result<u32, Fault>
    ensures { result ≡ spec.only_train names.now (word_list rest.now) }
{
    let train = last_word(rest).ok_or(Fault::Words)?;
    train_word(names, train)
}

/// The only word, a number.
pub(crate) fn only_number(rest: &[u8]) -> Result<u32, Fault>
    ensures { result ≡ spec.only_number (word_list rest.now) }
{
    let number = last_word(rest).ok_or(Fault::Words)?;
    number_word(number)
}

/// A train, and maybe a place.
pub(crate) fn train_and_place(names: &Names, rest: &[u8]) -> Result<Named, Fault>
    ensures { result ≡ spec.train_and_place names.now (word_list rest.now) }
{
    let (train, later) = split_word(rest);
    let Some(later) = later else {
        let train = train_word(names, train)?;
        return Ok(Named { train, place: None });
    };
    let place = last_word(later).ok_or(Fault::Words)?;
    let train = train_word(names, train)?;
    let place = number_word(place)?;
    Ok(Named {
        train,
        place: Some(place),
    })
}
