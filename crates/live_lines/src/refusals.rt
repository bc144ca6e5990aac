// Why a line isn't carried out: a number, a name, and what belongs to it.
ghost use Rattle.std.specs.Prelude.{◌≡◌, ◌++◌, OnOk, string_bytes};
ghost use Rattle.live_lines.specs.Refusals as spec;

use crate::Fault;
use std::alloc::AllocError;

/// Why a line isn't carried out.
#[derive(Clone, Copy)]
pub enum Refusal {
    /// It is no request.
    Line { fault: Fault },
    /// The place is past the train's last one.
    Place { last: u32 },
    /// The place or the table is past the next one: this was the last one before it.
    Ahead { at: u32 },
    /// The train began at this place or after it.
    Before { start: u32 },
    /// There is no such table, of so many.
    Table { tables: u32 },
    /// The journal has only so many lines.
    Lost { line: u32 },
}

// Adds why a line is no request.
fn write_fault(out: &mut String, fault: Fault) -> Result<(), AllocError>
    ensures { OnOk result (string_bytes out.new ≡ string_bytes out.old ++ spec.fault_words fault) }
{
    match fault {
        Fault::Long => out.push_str("error 301 Long limit=256"),
        Fault::Byte { at } => write!(out, "error 302 Byte at={at}"),
        Fault::Verb => out.push_str("error 303 Verb"),
        Fault::Words => out.push_str("error 304 Words"),
        Fault::Train => out.push_str("error 305 Train"),
        Fault::Tag => out.push_str("error 311 Tag"),
        Fault::Reports => out.push_str("error 312 Reports"),
    }
}

/// Adds why a line isn't carried out.
pub(crate) fn write_refusal(out: &mut String, refusal: Refusal) -> Result<(), AllocError>
    ensures { OnOk result (string_bytes out.new ≡ string_bytes out.old ++ spec.refusal_words refusal) }
{
    match refusal {
        Refusal::Line { fault } => write_fault(out, fault),
        Refusal::Place { last } => write!(out, "error 306 Place last={last}"),
        Refusal::Ahead { at } => write!(out, "error 307 Ahead at={at}"),
        Refusal::Before { start } => write!(out, "error 308 Before start={start}"),
        Refusal::Table { tables } => write!(out, "error 309 Table tables={tables}"),
        Refusal::Lost { line } => write!(out, "error 310 Lost line={line}"),
    }
}
