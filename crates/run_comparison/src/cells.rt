// Texts and numbers in columns.
ghost use Rattle.std.specs.Prelude.{◌≡◌, ◌++◌, IfOk, OnOk, decimal, string_bytes};
ghost use Rattle.run_comparison.specs.Columns as spec;

use crate::values::push_difference;
use std::alloc::{AllocError, Global};

/// How wide the columns of a number are: that of the first run, and that of how much later the second is.
#[derive(Clone, Copy)]
pub(crate) struct Pair {
    pub number: usize,
    pub difference: usize,
}

// Adds so many spaces.
fn push_spaces(out: &mut String, count: usize) -> Result<(), AllocError>
    ensures { OnOk result (string_bytes out.new ≡ string_bytes out.old ++ spec.spaces count) }
{
    for _ in 0..count {
        out.push_str(" ")?;
    }
    Ok(())
}

/// Adds a text at the left of its column.
pub(crate) fn push_left(out: &mut String, text: &str, width: usize) -> Result<(), AllocError>
    ensures { OnOk result (string_bytes out.new ≡ string_bytes out.old ++ spec.left_text width text.now) }
{
    out.push_str(text)?;
    push_spaces(out, width.saturating_sub(text.len()))
}

// Adds a text at the right of its column.
fn push_right(out: &mut String, text: &str, width: usize) -> Result<(), AllocError>
    ensures { OnOk result (string_bytes out.new ≡ string_bytes out.old ++ spec.right_text width text.now) }
{
    out.push_str("  ")?;
    push_spaces(out, width.saturating_sub(text.len()))?;
    out.push_str(text)
}

// Adds a number at the right of its column.
fn push_number_right(
    alloc: Global,
    out: &mut String,
    number: u64,
    width: usize,
) -> Result<(), AllocError>
    ensures { OnOk result (string_bytes out.new ≡ string_bytes out.old ++ spec.right_text width (decimal number)) }
{
    let digits = format!(in alloc; "{number}")?;
    push_right(out, digits.as_str(), width)
}

// How much later the second tick is, with its sign.
fn signed(alloc: Global, first: u64, second: u64) -> Result<String, AllocError>
    ensures { IfOk result (λ text. string_bytes text ≡ spec.signed_text first second) }
{
    let mut out = String::new(alloc);
    if first < second {
        out.push_str("+")?;
    }
    push_difference(&mut out, first, second)?;
    Ok(out)
}

/// Adds the columns of a number in both runs, and of how much later the second is.
#[tactic(auto, unfolding(crate::specs::Columns::pair_text))]
pub(crate) fn push_pair(
    alloc: Global,
    out: &mut String,
    pair: Pair,
    first: u64,
    second: Option<u64>,
) -> Result<(), AllocError>
    ensures { OnOk result (string_bytes out.new ≡ string_bytes out.old ++ spec.pair_text pair first second) }
{
    push_number_right(alloc, out, first, pair.number)?;
    match second {
        Some(second) => {
            let later = signed(alloc, first, second)?;
            push_number_right(alloc, out, second, 4)?;
            push_right(out, later.as_str(), pair.difference)
        }
        None => {
            push_right(out, "-", 4)?;
            push_right(out, "-", pair.difference)
        }
    }
}
