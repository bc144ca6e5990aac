// The places of all trains, as a line writes them.
ghost use Rattle.std.specs.Prelude.{◌≡◌, ℕ, List, IfOk, IfSome, IfNone};
ghost use Rattle.refusal_lines.specs.Makers.{places_words};
ghost use Rattle.refusal_sentences.specs.Places.{ArePlaces};

use decimal_number::number_of;
use std::alloc::{AllocError, Global};

/// The places of which the words are the text, as in `3,4,2`: decimal numbers with commas between them. `None` if they
/// aren't such a text.
pub fn places_of(alloc: Global, words: &str) -> Result<Option<Vec<u32>>, AllocError>
    ensures read { IfOk result (λ found. IfSome found (λ places. words.now ≡ places_words places.items)) }
    ensures none { IfOk result (λ found. IfNone found ((p : List ℕ) → ArePlaces p → words.now ≡ places_words p → ⊥)) }
{
    let mut places = Vec::new(alloc);
    for word in words.split(',') {
        match number_of(word.as_bytes()) {
            Some(place) => places.push(place)?,
            None => return Ok(None),
        }
    }
    Ok(Some(places))
}
