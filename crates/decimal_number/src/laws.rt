// What holds of every word: laws of the definition, with no code.
ghost use Rattle.std.specs.Prelude.{◌≡◌, ℕ, ◌^◌, ◌<◌, List, Some};
ghost use Rattle.std.specs.Fmt.{decimal};
ghost use Rattle.decimal_number.specs.Decimal.{number_of as number_in};

/// A word is read as a number only where it is that number's own text, and the text of each number
/// below 2 ^ 32 is read as it. So no number has two words, and no word two numbers.
pub fn each_number_has_one_word()
    ensures written { (word : List ℕ) (n : ℕ) → number_in word ≡ Some n → (n < 2 ^ 32) × (word ≡ decimal n) }
    ensures read { (n : ℕ) → n < 2 ^ 32 → number_in (decimal n) ≡ Some n }
{}
