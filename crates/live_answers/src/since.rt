// The lines of the journal after one of them.
ghost use Rattle.std.specs.Prelude.{◌+◌, ◌-◌, ◌^◌, ◌<◌, ◌≤◌, All, OnOk, length};
ghost use Rattle.move_journal.specs.Printable.{IsNamed};
ghost use Rattle.live_answers.specs.Rows.{AreRows, Says};
ghost use Rattle.live_answers.specs.Since.{IsSinceRow, TellsSince};

use live_lines::{Answer, Page, Refusal, SessionAnswer};
use rail_model::Line;
use std::alloc::AllocError;

// Adds the line that comes so many lines after the first that is told, as a row.
fn push_since_row(
    page: &Page<'_>,
    out: &mut Vec<u8>,
    lines: &[Line],
    from: u32,
    index: usize,
) -> Result<(), AllocError>
    requires named { All (IsNamed page.now.names.now) lines.now }
    requires within { from + index < length lines.now }
    requires few { length lines.now < 2 ^ 31 }
    ensures { OnOk result (Says (IsSinceRow page.now.names.now page.now.tag.now lines.now from index) out.old.items out.new.items) }
{
    let at = from as usize + index;
    page.push_journal_row(out, at as u64 + 1, &lines[at])
}

// Adds the lines after the first so many, a row each.
fn push_since_rows(
    page: &Page<'_>,
    out: &mut Vec<u8>,
    lines: &[Line],
    from: u32,
) -> Result<(), AllocError>
    requires named { All (IsNamed page.now.names.now) lines.now }
    requires within { from ≤ length lines.now }
    requires few { length lines.now < 2 ^ 31 }
    ensures { OnOk result (Says (AreRows (IsSinceRow page.now.names.now page.now.tag.now lines.now from) (length lines.now - from))
        out.old.items out.new.items) }
{
    for index in 0..lines.len() - from as usize {
        push_since_row(page, out, lines, from, index)?;
    }
    Ok(())
}

/// Adds the lines after the first so many, a row each, and the number of the last; or that there are fewer.
pub fn push_since(
    page: &Page<'_>,
    out: &mut Vec<u8>,
    lines: &[Line],
    from: u32,
) -> Result<(), AllocError>
    requires named { All (IsNamed page.now.names.now) lines.now }
    requires few { length lines.now < 2 ^ 31 }
    ensures { OnOk result (Says (TellsSince page.now.names.now page.now.tag.now lines.now from) out.old.items out.new.items) }
{
    let last = lines.len() as u32;
    if last < from {
        let refusal = Refusal::Lost { line: last };
        return page.push_answer(out, Answer::Refused(refusal));
    }
    push_since_rows(page, out, lines, from)?;
    let since = SessionAnswer::Since { line: from, last };
    page.push_answer(out, Answer::Session(since))
}
