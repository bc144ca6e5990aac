// Cells of tables.
ghost use Rattle.std.specs.Prelude.{◌≡◌, ◌++◌, OnOk};
ghost use Rattle.run_timetable.specs.Csv.{number_text};
ghost use Rattle.svg_text.specs.Text.{escape};
ghost use Rattle.report_page.specs.Markup.{cell};

use std::alloc::{AllocError, Global};
use svg_text::{push_escaped, push_raw};

/// Adds a cell with words.
pub(crate) fn push_words(out: &mut Vec<u8>, words: &str) -> Result<(), AllocError>
    ensures { OnOk result (out.new.items ≡ out.old.items ++ cell (escape words.now)) }
{
    push_raw(out, "<td>")?;
    push_escaped(out, words)?;
    push_raw(out, "</td>")
}

/// Adds the digits of a number, if there is one.
pub(crate) fn push_digits(
    alloc: Global,
    out: &mut Vec<u8>,
    number: Option<u64>,
) -> Result<(), AllocError>
    ensures { OnOk result (out.new.items ≡ out.old.items ++ number_text number) }
{
    match number {
        Some(number) => {
            let digits = format!(in alloc; "{number}")?;
            push_raw(out, digits.as_str())
        }
        None => Ok(()),
    }
}

/// Adds a cell with a number, or an empty one.
pub(crate) fn push_number(
    alloc: Global,
    out: &mut Vec<u8>,
    number: Option<u64>,
) -> Result<(), AllocError>
    ensures { OnOk result (out.new.items ≡ out.old.items ++ cell (number_text number)) }
{
    push_raw(out, "<td>")?;
    push_digits(alloc, out, number)?;
    push_raw(out, "</td>")
}
