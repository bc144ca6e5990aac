// Plans with entries for sections behind their own.
ghost use Rattle.std.specs.Prelude.{IfOk, IsTrue};
ghost use Rattle.plan_sections.specs.Written.{AreBehind, IsWritten, is_gap};

use crate::entries::{Adder, entries_of};
use crate::refusing::refusal_of;
use document_json::Doc;
use plan_input::{Own, PlanFile, own_of, section_names};
use std::alloc::{AllocError, Global};

/// What the sections of a document come to in its plan.
#[derive(Drop)]
pub enum Written {
    /// The plan with entries behind it, and these alone.
    Plan { text: Vec<u8>, entries: Vec<u8> },
    /// Why entries can't say the sections: lines.
    Not(String),
}

// The newlines between a plan and entries: so many that a line is blank between them; none, if there are no entries.
fn gap(plan: &[u8], entries: &[u8]) -> &'static str
    ensures { IsTrue (is_gap result.now) }
{
    if entries.is_empty() {
        ""
    } else if plan.last() == Some(&b'\n') {
        "\n"
    } else {
        "\n\n"
    }
}

// A plan with entries behind it.
fn joined(alloc: Global, plan: &[u8], entries: &[u8]) -> Result<Vec<u8>, AllocError>
    ensures { IfOk result (λ text. AreBehind plan.now entries.now text.items) }
{
    let mut text = Vec::from_slice(alloc, plan)?;
    text.extend_from_slice(gap(plan, entries).as_bytes())?;
    text.extend_from_slice(entries)?;
    Ok(text)
}

// A plan with entries behind it, if it is a plan for a document.
fn read_back(alloc: Global, plan: &[u8], doc: &Doc, entries: Vec<u8>) -> Result<Written, AllocError>
    ensures { IfOk result (IsWritten plan.now doc.now) }
{
    let text = joined(alloc, plan, &entries)?;
    match refusal_of(alloc, &text, doc)? {
        None => Ok(Written::Plan { text, entries }),
        Some(lines) => Ok(Written::Not(lines)),
    }
}

// The entries of the sections that a document has behind those of a plan, whose own document this is.
fn entries_behind(
    alloc: Global,
    plan: &[u8],
    doc: &Doc,
    own: &Doc,
    adder: Adder,
) -> Result<Vec<u8>, AllocError> {
    let names = section_names(alloc, plan)?;
    entries_of(alloc, doc, own, &names, adder)
}

/// A plan with entries behind it for the sections that a document has behind those of the plan. With them it is a plan for this document:
/// its own document is this one, but for the version and certificates. Entries hold in all tables without sections of their own; so a
/// document with other sections in one of these isn't written.
pub fn with_sections(
    alloc: Global,
    plan: &[u8],
    doc: &Doc,
    adder: Adder,
) -> Result<Written, AllocError>
    ensures { IfOk result (IsWritten plan.now doc.now) }
{
    let file = PlanFile {
        name: "the plan",
        text: plan,
    };
    let entries = match own_of(alloc, &file)? {
        Own::Document(own) => entries_behind(alloc, plan, doc, &own, adder)?,
        Own::Wrong(lines) => return Ok(Written::Not(lines)),
    };
    read_back(alloc, plan, doc, entries)
}
