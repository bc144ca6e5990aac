// Lines of the journal, as they come, and the events of wants that they granted.
ghost use Rattle.std.specs.Prelude.{◌≡◌, ◌+◌, ◌<◌, ◌≤◌, ◌^◌, ◌++◌, All, OnOk, length};
ghost use Rattle.move_journal.specs.Printable.{IsNamed};
ghost use Rattle.live_answers.specs.Rows.{AreRows, Says};
ghost use Rattle.live_session.specs.Answering.{fired_text, IsRow};

use crate::start::place_in;
use crate::tags::WantTags;
use live_lines::{Event, Spot, push_event, push_journal_line};
use rail_model::{Line, Names, State};
use std::alloc::{AllocError, Global};

/// The lines of a journal, what they name, where the trains are now, and the tags of their last wants.
#[derive(Clone, Copy)]
pub(crate) struct Journal<'a> {
    pub(crate) names: &'a Names,
    pub(crate) lines: &'a [Line],
    pub(crate) state: &'a State,
    pub(crate) tags: &'a WantTags,
}

// Adds the event of a want that a line granted.
fn push_fired(
    alloc: Global,
    out: &mut Vec<u8>,
    journal: &Journal<'_>,
    number: u32,
    line: Line,
) -> Result<(), AllocError>
    requires { IsNamed journal.now.names.now line }
    ensures { OnOk result (out.new.items ≡ out.old.items ++ fired_text journal.now.names.now journal.now.state.now
        journal.now.tags.now number line) }
{
    let Line::Move { train, to, .. } = line else {
        return Ok(());
    };
    let spot = Spot {
        train,
        place: place_in(journal.state, train),
        point: to,
    };
    let event = Event::Granted { spot, line: number };
    push_event(alloc, out, journal.tags.of(train), journal.names, event)
}

// Adds the line that comes so many lines after the first ones; where it granted a want, with the event of the want.
fn push_row(
    alloc: Global,
    out: &mut Vec<u8>,
    journal: &Journal<'_>,
    fired: bool,
    from: usize,
    index: usize,
) -> Result<(), AllocError>
    requires named { All (IsNamed journal.now.names.now) journal.now.lines.now }
    requires within { from + index < length journal.now.lines.now }
    requires few { length journal.now.lines.now < 2 ^ 31 }
    ensures { OnOk result (Says (IsRow fired journal.now.names.now journal.now.state.now journal.now.tags.now
        journal.now.lines.now from index) out.old.items out.new.items) }
{
    let at = from + index;
    let line = journal.lines[at];
    push_journal_line(alloc, out, journal.names, at as u64 + 1, &line)?;
    if fired {
        push_fired(alloc, out, journal, at as u32 + 1, line)
    } else {
        Ok(())
    }
}

/// Adds so many lines after the first ones; where they granted wants, each with the event of its want.
pub(crate) fn push_lines(
    alloc: Global,
    out: &mut Vec<u8>,
    journal: &Journal<'_>,
    fired: bool,
    from: usize,
    count: usize,
) -> Result<(), AllocError>
    requires named { All (IsNamed journal.now.names.now) journal.now.lines.now }
    requires within { from + count ≤ length journal.now.lines.now }
    requires few { length journal.now.lines.now < 2 ^ 31 }
    ensures { OnOk result (Says (AreRows (IsRow fired journal.now.names.now journal.now.state.now
        journal.now.tags.now journal.now.lines.now from) count) out.old.items out.new.items) }
{
    for index in 0..count {
        push_row(alloc, out, journal, fired, from, index)?;
    }
    Ok(())
}
