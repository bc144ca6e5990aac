// The words on a journal.
ghost use Rattle.std.specs.Prelude.{◌≡◌, ◌++◌, OnOk, string_bytes};
ghost use Rattle.refusal_lines.specs.Journals.{text_words, ask_words, line_words};

use crate::fields::tell;
use move_journal::{BadLine, BadText};
use rail_model::Ask;
use std::alloc::AllocError;

/// Adds what is wrong with the text of a journal.
pub fn write_text(out: &mut String, fault: &BadText) -> Result<(), AllocError>
    ensures { OnOk result (string_bytes out.new ≡ string_bytes out.old ++ text_words fault.now) }
{
    match *fault {
        BadText::Line { line } => tell!(out; "71 Line line=" line),
        BadText::Number { line } => tell!(out; "72 Number line=" line),
        BadText::NoEnd => out.push_str("73 NoEnd"),
        BadText::After => out.push_str("74 After"),
        BadText::Memory => out.push_str("202 Memory"),
    }
}

/// Adds the first line of a journal that isn't right, or what it lacks at its end.
pub fn write_line(out: &mut String, fault: &BadLine) -> Result<(), AllocError>
    ensures { OnOk result (string_bytes out.new ≡ string_bytes out.old ++ line_words fault.now) }
{
    match *fault {
        BadLine::Move { line, ask } => {
            write!(out, "75 Move line={line} ")?;
            write_ask(out, ask)
        }
        BadLine::Table { line } => tell!(out; "76 Table line=" line),
        BadLine::Unfinished { train } => tell!(out; "77 Unfinished train=" train),
        BadLine::Counts => out.push_str("78 Counts"),
        BadLine::Place { line } => tell!(out; "79 Place line=" line),
        BadLine::Open { table } => tell!(out; "80 Open table=" table),
        BadLine::Memory => out.push_str("202 Memory"),
    }
}

// Adds the answer that a train would get.
fn write_ask(out: &mut String, ask: Ask) -> Result<(), AllocError>
    ensures { OnOk result (string_bytes out.new ≡ string_bytes out.old ++ ask_words ask) }
{
    match ask {
        Ask::Yes => out.push_str("Yes"),
        Ask::Arrived => out.push_str("Arrived"),
        Ask::Occupied { by } => tell!(out; "Occupied by=" by),
        Ask::Full { section, count } => tell!(out; "Full section=" section, " count=" count),
        Ask::Waits { connection } => tell!(out; "Waits connection=" connection),
    }
}
