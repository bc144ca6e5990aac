// What is told beside the answers.
ghost use Rattle.std.specs.Prelude.{◌≡◌, ◌≤◌, ◌++◌, length, OnOk};
ghost use Rattle.live_session.specs.News.{done_text, due_text, exchanges, news_text};

use crate::status::{Status, exchanges_of};
use live_lines::{Event, push_event};
use rail_model::{Line, Names};
use std::alloc::{AllocError, Global};

/// Adds that a table is due which wasn't due before.
pub(crate) fn push_due(
    alloc: Global,
    out: &mut Vec<u8>,
    names: &Names,
    before: Option<u32>,
    now: Option<u32>,
) -> Result<(), AllocError>
    ensures { OnOk result (out.new.items ≡ out.old.items ++ due_text names.now before now) }
{
    let Some(table) = now else {
        return Ok(());
    };
    match before {
        Some(known) if known == table => Ok(()),
        _ => push_event(alloc, out, b"", names, Event::Due { table }),
    }
}

// Adds that all is done which wasn't done before; only then are the lines looked through.
fn push_done(
    alloc: Global,
    out: &mut Vec<u8>,
    names: &Names,
    before: bool,
    now: bool,
    moves: u32,
    lines: &[Line],
) -> Result<(), AllocError>
    requires { length lines.now ≤ 4079 }
    ensures { OnOk result (out.new.items ≡ out.old.items
        ++ done_text names.now before now moves (exchanges lines.now)) }
{
    if now && !before {
        let tables = exchanges_of(lines) as u32;
        push_event(alloc, out, b"", names, Event::Done { moves, tables })
    } else {
        Ok(())
    }
}

/// Adds what is told after a request.
pub(crate) fn push_news(
    alloc: Global,
    out: &mut Vec<u8>,
    names: &Names,
    before: Status,
    now: Status,
    moves: u32,
    lines: &[Line],
) -> Result<(), AllocError>
    requires { length lines.now ≤ 4079 }
    ensures { OnOk result (out.new.items ≡ out.old.items
        ++ news_text names.now before now moves (exchanges lines.now)) }
{
    push_due(alloc, out, names, before.due, now.due)?;
    push_done(alloc, out, names, before.done, now.done, moves, lines)
}
