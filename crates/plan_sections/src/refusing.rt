// Whether a text is a plan with exactly a document's sections.
ghost use Rattle.std.specs.Prelude.{◌≡◌, ◌<◌, IfNone, IfOk, length};
ghost use Rattle.document_origin.specs.Origin.{IsOf};
ghost use Rattle.plan_sections.specs.Written.{HaveAsMany, IsPlanFor, IsWhole};

use document_json::{Doc, table_of, tables_of};
use document_origin::{Difference, difference_of};
use plan_input::{Own, PlanFile, own_of};
use rail_model::sections_of;
use std::alloc::{AllocError, Global};

// What the plan is called in lines on its mistakes.
const NAME: &str = "the plan with the added sections";

// That the entries don't say the sections of a table.
fn table_line(alloc: Global, table: u32) -> Result<String, AllocError> {
    format!(in alloc;
        "entries can't say the added sections: with them, table {table} of the plan has others than the document\n"
    )
}

// The line of a difference. Entries change sections alone.
fn difference_line(alloc: Global, difference: Difference) -> Result<String, AllocError> {
    match difference {
        Difference::Table { table, .. } => table_line(alloc, table),
        _ => String::from_str(
            alloc,
            "the plan with the added sections has another document\n",
        ),
    }
}

// The first table with more sections, or fewer, than that of a plan.
fn first_uneven(doc: &Doc, own: &Doc) -> Option<u32>
    requires { length doc.now.tables ≡ length own.now.tables }
    ensures { IfNone result (HaveAsMany doc.now own.now) }
{
    for table in 0..tables_of(own) {
        if sections_of(table_of(doc, table)) != sections_of(table_of(own, table)) {
            return Some(table);
        }
    }
    None
}

// Why a document is of a plan, whose own document this is, and not its own document.
fn uneven_line(alloc: Global, doc: &Doc, own: &Doc) -> Result<Option<String>, AllocError>
    requires { IsOf doc.now own.now }
    ensures { IfOk result (λ line. IfNone line (IsWhole doc.now own.now)) }
{
    match first_uneven(doc, own) {
        Some(table) => Ok(Some(table_line(alloc, table)?)),
        None => Ok(None),
    }
}

// Why a document isn't the own document of a plan, which is this.
fn other_line(alloc: Global, doc: &Doc, own: &Doc) -> Result<Option<String>, AllocError>
    ensures { IfOk result (λ line. IfNone line (IsWhole doc.now own.now)) }
{
    match difference_of(doc, own) {
        Some(difference) => Ok(Some(difference_line(alloc, difference)?)),
        None => uneven_line(alloc, doc, own),
    }
}

/// Why a text isn't a plan for a document, if it isn't one: lines.
pub(crate) fn refusal_of(
    alloc: Global,
    text: &[u8],
    doc: &Doc,
) -> Result<Option<String>, AllocError>
    ensures { IfOk result (λ lines. IfNone lines (IsPlanFor text.now doc.now)) }
{
    let file = PlanFile { name: NAME, text };
    match own_of(alloc, &file)? {
        Own::Document(own) => other_line(alloc, doc, &own),
        Own::Wrong(lines) => Ok(Some(lines)),
    }
}
