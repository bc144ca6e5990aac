// Events: what happens after a request, or before the first one.
ghost use Rattle.std.specs.Prelude.{◌≡◌, ◌++◌, OnOk, string_bytes};
ghost use Rattle.live_lines.specs.Rows as spec;
ghost use Rattle.live_lines.specs.Lines.{line_of};

use crate::Spot;
use crate::lines::push_words;
use crate::trains::write_grant;
use rail_model::Names;
use std::alloc::{AllocError, Global};

/// What happens after a request, or before the first one.
#[derive(Clone, Copy)]
pub enum Event {
    /// A standing want was granted by this line.
    Granted { spot: Spot, line: u32 },
    /// The next table is due.
    Due { table: u32 },
    /// All trains have arrived, and no table is open.
    Done { moves: u32, tables: u32 },
}

// Adds the words of an event.
fn write_event(out: &mut String, names: &Names, event: Event) -> Result<(), AllocError>
    requires { spec.IsNamedEvent names.now event }
    ensures { OnOk result (string_bytes out.new ≡ string_bytes out.old ++ spec.event_words names.now event) }
{
    match event {
        Event::Granted { spot, line } => write_grant(out, names, "! granted", spot, line),
        Event::Due { table } => write!(out, "! due {table}"),
        Event::Done { moves, tables } => write!(out, "! done moves={moves} tables={tables}"),
    }
}

/// Adds an event: a grant behind the tag of the want, the others without a tag.
pub fn push_event(
    alloc: Global,
    out: &mut Vec<u8>,
    tag: &[u8],
    names: &Names,
    event: Event,
) -> Result<(), AllocError>
    requires { spec.IsNamedEvent names.now event }
    ensures { OnOk result (out.new.items ≡ out.old.items ++ line_of tag.now (spec.event_words names.now event)) }
{
    let mut words = String::new(alloc);
    write_event(&mut words, names, event)?;
    push_words(out, tag, &words)
}
