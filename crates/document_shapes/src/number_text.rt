// The integers that texts of numbers are.
ghost use Rattle.std.specs.Prelude.{◌≡◌, ◌∷◌, IfSome, Some};
ghost use Rattle.document_shapes.specs.Shape as shape;
ghost use Rattle.document_shapes.specs.Taken.{number_read};

/// The integer from 0 to 4,294,967,295 that the text is, where it is written in digits alone.
pub(crate) fn whole_of(text: &str) -> Option<u32>
    ensures { IfSome result (λ n. number_read shape.whole text.now ≡ Some n) }
{
    match text.as_bytes() {
        // Most numbers have one digit.
        &[digit @ b'0'..=b'9'] => Some(u32::from(digit - b'0')),
        digits => decimal_number::number_of(digits),
    }
}

/// The integer from -2,147,483,647 to 2,147,483,647 that the text is, where it is written in digits, perhaps after a
/// minus, and is no `-0`.
pub(crate) fn change_of(text: &str) -> Option<i32>
    ensures { IfSome result (λ z. number_read shape.change text.now ≡ Some z) }
{
    match text.as_bytes() {
        [b'-', digits @ ..] => below_zero(digits),
        digits => not_below_zero(digits),
    }
}

fn not_below_zero(digits: &[u8]) -> Option<i32>
    ensures { IfSome result (λ z. number_read shape.change digits.now ≡ Some z) }
{
    let size = decimal_number::number_of(digits)?;
    if size <= i32::MAX as u32 {
        Some(size as i32)
    } else {
        None
    }
}

// The number whose digits follow a minus.
fn below_zero(digits: &[u8]) -> Option<i32>
    ensures { IfSome result (λ z. number_read shape.change (45 ∷ digits.now) ≡ Some z) }
{
    let size = decimal_number::number_of(digits)?;
    if 0 < size && size <= i32::MAX as u32 {
        Some(-(size as i32))
    } else {
        None
    }
}
