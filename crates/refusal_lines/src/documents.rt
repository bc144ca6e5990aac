// The words on a document.
ghost use Rattle.std.specs.Prelude.{◌≡◌, ◌++◌, OnOk, string_bytes};
ghost use Rattle.refusal_lines.specs.Documents.{member_words, shape_words, document_words};

use crate::fields::tell;
use crate::layouts::{write_layout, write_trains};
use crate::marks::write_marks;
use crate::missions::write_missions;
use crate::starts::write_start;
use document_json::DocRefused;
use document_shapes::{Member, ShapeRefused};
use std::alloc::AllocError;

// Adds why bytes have no members of a document.
fn write_shape(out: &mut String, refused: &ShapeRefused) -> Result<(), AllocError>
    ensures { OnOk result (string_bytes out.new ≡ string_bytes out.old ++ shape_words refused.now) }
{
    match *refused {
        ShapeRefused::NotJson => out.push_str("101 NotJson"),
        ShapeRefused::Shape { table, member } => write_member(out, table, member),
        ShapeRefused::Version { value } => tell!(out; "103 Version value=" value),
        ShapeRefused::Memory => out.push_str("202 Memory"),
    }
}

// Adds the name of a member of another shape, and its table.
fn write_member(out: &mut String, table: Option<usize>, member: Member) -> Result<(), AllocError>
    ensures { OnOk result (string_bytes out.new ≡ string_bytes out.old ++ member_words table member) }
{
    let member = member.name();
    match table {
        None => write!(out, "102 Shape member={member}"),
        Some(table) => write!(out, "102 Shape table={table} member={member}"),
    }
}

/// Adds what is wrong with a document.
pub fn write_document(out: &mut String, refused: &DocRefused) -> Result<(), AllocError>
    ensures { OnOk result (string_bytes out.new ≡ string_bytes out.old ++ document_words refused.now) }
{
    match refused {
        DocRefused::Shape(refused) => write_shape(out, refused),
        DocRefused::Layout(refused) => write_layout(out, refused),
        DocRefused::Trains(refused) => write_trains(out, refused),
        DocRefused::Missions { table, refused } => write_missions(out, *table, refused),
        DocRefused::Marks { table, refused } => write_marks(out, *table, refused),
        DocRefused::After { table, value } =>
            tell!(out; "105 After table=" *table, " value=" *value),
        DocRefused::StartLength { count } => tell!(out; "111 StartLength count=" *count),
        DocRefused::Start(cause) => write_start(out, cause),
        DocRefused::TimesLength {
            table,
            train,
            count,
        } => tell!(out; "113 TimesLength table=" *table, " train=" *train, " count=" *count),
        DocRefused::TimesValue {
            table,
            train,
            place,
            value,
        } =>
            tell!(out; "114 TimesValue table=" *table, " train=" *train, " place=" *place, " value=" *value),
        DocRefused::Tables { count } => tell!(out; "115 Tables count=" *count),
        DocRefused::Memory => out.push_str("202 Memory"),
    }
}
