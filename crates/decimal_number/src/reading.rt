// Reading a word as a number.
ghost use Rattle.std.specs.Prelude.{◌≡◌};
ghost use Rattle.std.specs.Char.{is_ascii_digit};
ghost use Rattle.std.specs.List.{list_all};
ghost use Rattle.decimal_number.specs.Decimal as decimal;

/// The number that the bytes are the decimal text of, from 0 to 4,294,967,295: digits with no sign,
/// no leading zero and nothing else. `None` for any other bytes.
pub fn number_of(bytes: &[u8]) -> Option<u32>
    ensures { result ≡ decimal.number_of bytes.now }
{
    if !is_decimal(bytes) {
        return None;
    }
    match std::str::from_utf8(bytes) {
        Ok(digits) => digits.parse::<u32>().ok(),
        Err(_) => None,
    }
}

// Whether these are digits, with no zero before another one.
fn is_decimal(bytes: &[u8]) -> bool
    ensures { result ≡ decimal.is_decimal bytes.now }
{
    match bytes {
        [] => false,
        [b'0', _, ..] => false,
        _ => are_digits(bytes),
    }
}

fn are_digits(bytes: &[u8]) -> bool
    ensures { result ≡ list_all is_ascii_digit bytes.now }
{
    bytes.iter().all(|byte| byte.is_ascii_digit())
}
