// The names that a plan beside a document gives the document's sections.
ghost use Rattle.std.specs.Prelude.{◌≡◌, ◌<◌, ◌++◌, IfOk, Ok, OnOk, flat_map, length, string_bytes};
ghost use Rattle.document_json.specs.Reading.{doc_of};
ghost use Rattle.plan_crossed.specs.Read.{IsCrossedRead};
ghost use Rattle.plan_reading.specs.declared.reading.PlanRead.TheVariants.{Plan as AsPlan};
ghost use Rattle.plan_input.specs.Origin.{IsOwn, SayMistakes, mistake_words, other_words};
ghost use Rattle.plan_input.specs.Reached.{IsNaming, IsOwnOrWrong};

use crate::called::{NamesFound, names_by};
use crate::compiling::line_of;
use document_json::{Doc, DocRefused, document, names_of};
use document_origin::{Difference, difference_of, push_difference};
use plan_crossed::read_crossed_plan;
use plan_document::{Plan, written};
use plan_reading::{Fault, PlanRead};
use std::alloc::{AllocError, Global};

/// The file of a plan: its name, and the text that it holds.
#[derive(Clone, Copy)]
pub struct PlanFile<'a> {
    pub name: &'a str,
    pub text: &'a [u8],
}

/// The document of the plan in a file.
#[derive(Drop)]
pub enum Own {
    Document(Doc),
    /// What is wrong with the plan: lines, which begin with the name of the file.
    Wrong(String),
}

// Adds the line of a mistake in a file.
fn push_mistake(out: &mut String, name: &str, fault: &Fault) -> Result<(), AllocError>
    ensures { OnOk result (string_bytes out.new ≡ string_bytes out.old ++ mistake_words name.now fault.now) }
{
    let line = fault.line;
    let words = fault.words.as_str();
    write!(out, "{name}: ")?;
    write!(out, "line {line}: {words}\n")
}

// A line for each mistake in a file.
fn mistake_lines(alloc: Global, name: &str, faults: &[Fault]) -> Result<String, AllocError>
    ensures { IfOk result (λ lines. string_bytes lines ≡ flat_map (mistake_words name.now) faults.now) }
{
    let mut lines = String::new(alloc);
    for fault in faults {
        push_mistake(&mut lines, name, fault)?;
    }
    Ok(lines)
}

// The lines of mistakes in a file.
fn mistakes(alloc: Global, name: &str, faults: &[Fault]) -> Result<String, AllocError>
    requires { 0 < length faults.now }
    ensures { IfOk result (λ lines. SayMistakes name.now (string_bytes lines)) }
{
    mistake_lines(alloc, name, faults)
}

// That the document of the plan in a file is refused.
fn refusal(alloc: Global, name: &str, refused: &DocRefused) -> Result<String, AllocError>
    ensures { IfOk result (λ lines. SayMistakes name.now (string_bytes lines)) }
{
    let line = line_of(alloc, refused)?;
    let line = line.as_str();
    format!(in alloc; "{name}: {line}")
}

// The document of a plan that was read of a file.
fn own_document(alloc: Global, file: &PlanFile<'_>, plan: Plan) -> Result<Own, AllocError>
    requires { IsCrossedRead file.now.text.now (AsPlan plan) }
    ensures { IfOk result (IsOwnOrWrong file.now) }
{
    let text = written(alloc, plan)?;
    match document(alloc, &text) {
        Ok(doc) => Ok(Own::Document(doc)),
        Err(DocRefused::Memory) => Err(AllocError),
        Err(refused) => Ok(Own::Wrong(refusal(alloc, file.name, &refused)?)),
    }
}

/// The document of the plan in a file, or what is wrong with the plan.
pub fn own_of(alloc: Global, file: &PlanFile<'_>) -> Result<Own, AllocError>
    ensures { IfOk result (IsOwnOrWrong file.now) }
{
    match read_crossed_plan(alloc, file.text)? {
        PlanRead::Plan(plan) => own_document(alloc, file, plan),
        PlanRead::Faults(faults) => Ok(Own::Wrong(mistakes(alloc, file.name, &faults)?)),
    }
}

// The line of a difference.
fn other_line(alloc: Global, doc: &Doc, difference: Difference) -> Result<String, AllocError>
    ensures { IfOk result (λ line. string_bytes line ≡ other_words doc.now difference) }
{
    let mut line = String::from_str(alloc, "the document isn't this plan's: ")?;
    push_difference(&mut line, names_of(doc), difference)?;
    line.push_str("\n")?;
    Ok(line)
}

// The names of the sections of a document by a plan in a file, whose own document this is.
fn compared(
    alloc: Global,
    input: &[u8],
    doc: &Doc,
    file: &PlanFile<'_>,
    own: &Doc,
) -> Result<NamesFound, AllocError>
    requires read { doc_of input.now ≡ Ok doc.now }
    requires own { IsOwn file.now.text.now own.now }
    ensures { IfOk result (IsNaming file.now input.now doc.now) }
{
    match difference_of(doc, own) {
        Some(difference) => Ok(NamesFound::Wrong(other_line(alloc, doc, difference)?)),
        None => Ok(NamesFound::Names(names_by(alloc, doc, own, file.text)?)),
    }
}

/// The names of the sections of the document that an input is, by the plan in a file; or why there are none.
pub(crate) fn naming(
    alloc: Global,
    input: &[u8],
    doc: &Doc,
    file: &PlanFile<'_>,
) -> Result<NamesFound, AllocError>
    requires { doc_of input.now ≡ Ok doc.now }
    ensures { IfOk result (IsNaming file.now input.now doc.now) }
{
    match own_of(alloc, file)? {
        Own::Document(own) => compared(alloc, input, doc, file, &own),
        Own::Wrong(lines) => Ok(NamesFound::Wrong(lines)),
    }
}
