// The words on a table's sections and connections.
ghost use Rattle.std.specs.Prelude.{◌≡◌, ◌++◌, OnOk, string_bytes};
ghost use Rattle.refusal_lines.specs.Marks.{marks_words, change_words, value_words};

use crate::fields::{tell, write_fields};
use section_marks::MarkRefused;
use std::alloc::AllocError;

/// Adds what is wrong with the sections or the connections of a table.
pub fn write_marks(out: &mut String, table: usize, refused: &MarkRefused) -> Result<(), AllocError>
    ensures { OnOk result (string_bytes out.new ≡ string_bytes out.old ++ marks_words table refused.now) }
{
    match *refused {
        MarkRefused::TooMany { count } => tell!(out; "21 TooMany table=" table, " count=" count),
        MarkRefused::Count { section, train } =>
            tell!(out; "22 Count table=" table, " section=" section, " train=" train),
        MarkRefused::Step {
            section,
            train,
            place,
            value,
        } => write_change(out, "23 Step table=", table, section, train, place, value),
        MarkRefused::Share {
            section,
            train,
            place,
            value,
        } => write_change(out, "24 Share table=", table, section, train, place, value),
        MarkRefused::Limit { section, value } =>
            tell!(out; "25 Limit table=" table, " section=" section, " value=" value),
        MarkRefused::Connections { count } =>
            tell!(out; "26 Connections table=" table, " count=" count),
        MarkRefused::ConnectionTrain { connection } =>
            tell!(out; "27 ConnectionTrain table=" table, " connection=" connection),
        MarkRefused::ConnectionPlace { connection } =>
            tell!(out; "28 ConnectionPlace table=" table, " connection=" connection),
    }
}

// Adds a change or a share that no train may have, after its label.
fn write_change(
    out: &mut String,
    label: &str,
    table: usize,
    section: u32,
    train: u32,
    place: u32,
    value: i32,
) -> Result<(), AllocError>
    ensures { OnOk result (string_bytes out.new ≡ string_bytes out.old ++ change_words label.now table section train place value) }
{
    write_fields(
        out,
        &[
            (label, table as u64),
            (" section=", section as u64),
            (" train=", train as u64),
            (" place=", place as u64),
        ],
    )?;
    write_value(out, value)
}

// Adds a change or a share, with its sign.
fn write_value(out: &mut String, value: i32) -> Result<(), AllocError>
    ensures { OnOk result (string_bytes out.new ≡ string_bytes out.old ++ value_words value) }
{
    write!(out, " value={value}")
}
