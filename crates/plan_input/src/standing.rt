// What stands for a document in an input.
ghost use Rattle.std.specs.Prelude.{◌≡◌, ◌++◌, IfOk, None, Ok};
ghost use Rattle.document_json.specs.Reading.{doc_of};
ghost use Rattle.plan_crossed.specs.Read.{IsCrossedRead};
ghost use Rattle.plan_reading.specs.declared.reading.PlanRead.TheVariants.{Plan as AsPlan};
ghost use Rattle.plan_input.specs.Standing.{IsBehind, IsPlanBefore, IsStanding, IsStandingBeside, begins_as_document, first_sign as first_sign_of, is_space as is_space_of};

use crate::called::{NamesFound, names_in};
use crate::compiling::fault_lines;
use crate::origin::{PlanFile, naming};
use document_json::{Doc, DocRefused, document};
use plan_crossed::read_crossed_plan;
use plan_document::{Plan, written};
use plan_reading::PlanRead;
use std::alloc::{AllocError, Global};
use timed_reading::cut;

/// What stands for a document in an input.
#[derive(Drop)]
pub enum Standing {
    /// The input itself: it begins as a document does.
    Itself,
    /// The input itself, and the names of the sections of each table, by a plan beside it.
    Named {
        names: Vec<Vec<String>>,
    },
    /// A plan: the text of its document, with what stands behind the plan, and the names of the sections of each table.
    Plan {
        text: Vec<u8>,
        names: Vec<Vec<String>>,
    },
    /// A plan with mistakes, or one whose document is refused: a line for each. Beside a plan, an input that doesn't begin as a document
    /// does, or that isn't of the plan.
    Wrong(String),
}

// Whether a byte is a space of JSON.
fn is_space(byte: u8) -> bool
    ensures { result ≡ is_space_of byte }
{
    byte == b' ' || byte == b'\t' || byte == b'\n' || byte == b'\r'
}

// The first byte that is no space.
fn first_sign(input: &[u8]) -> Option<u8>
    ensures { result ≡ first_sign_of input.now }
{
    input.iter().copied().find(|byte| !is_space(*byte))
}

/// Whether an input begins as a document does: its first byte that is no space is a brace.
pub fn is_document(input: &[u8]) -> bool
    ensures { result ≡ begins_as_document input.now }
{
    match first_sign(input) {
        Some(byte) => byte == b'{',
        None => false,
    }
}

/// What comes before the first line `journal` of an input, and the rest.
pub fn parts(input: &[u8]) -> (&[u8], &[u8])
    ensures whole { input.now ≡ result.0.now ++ result.1.now }
    ensures behind { IsBehind result.1.now }
{
    match cut(input) {
        Some((plan, _journal)) => (plan, &input[plan.len()..]),
        None => (input, &[]),
    }
}

/// What stands for a document in an input, with a plan in a file beside it or without. An input beside a plan is a document: it stands for
/// itself, with the plan's names if it is of the plan, and with none if it is refused.
pub fn document_for(
    alloc: Global,
    input: &[u8],
    plan: Option<&PlanFile<'_>>,
) -> Result<Standing, AllocError>
    ensures { IfOk result (IsStanding plan.entry input.now) }
{
    match plan {
        Some(file) => beside(alloc, input, file),
        None => document_in(alloc, input),
    }
}

// What an input stands for beside a plan.
fn beside(alloc: Global, input: &[u8], file: &PlanFile<'_>) -> Result<Standing, AllocError>
    ensures { IfOk result (IsStandingBeside file.now input.now) }
{
    if !is_document(input) {
        let line = "with --plan the input is a document, which begins with a brace\n";
        return Ok(Standing::Wrong(String::from_str(alloc, line)?));
    }
    match document(alloc, input) {
        Ok(doc) => named(alloc, input, &doc, file),
        Err(DocRefused::Memory) => Err(AllocError),
        Err(_) => Ok(Standing::Itself),
    }
}

// What a document stands for beside a plan.
fn named(
    alloc: Global,
    input: &[u8],
    doc: &Doc,
    file: &PlanFile<'_>,
) -> Result<Standing, AllocError>
    requires { doc_of input.now ≡ Ok doc.now }
    ensures { IfOk result (IsStandingBeside file.now input.now) }
{
    match naming(alloc, input, doc, file)? {
        NamesFound::Names(names) => Ok(Standing::Named { names }),
        NamesFound::Wrong(lines) => Ok(Standing::Wrong(lines)),
    }
}

// What stands for a document in an input. An input that begins as a document does, with a brace, is one; any other is a plan, or a plan
// with the lines of a run behind a line `journal`.
fn document_in(alloc: Global, input: &[u8]) -> Result<Standing, AllocError>
    ensures { IfOk result (IsStanding None input.now) }
{
    if is_document(input) {
        return Ok(Standing::Itself);
    }
    let (plan, behind) = parts(input);
    plan_in(alloc, plan, behind)
}

// What stands for a document in an input that is a plan, with something behind it or not.
fn plan_in(alloc: Global, plan: &[u8], behind: &[u8]) -> Result<Standing, AllocError>
    ensures { IfOk result (IsPlanBefore plan.now behind.now) }
{
    match read_crossed_plan(alloc, plan)? {
        PlanRead::Plan(read) => document_of(alloc, plan, read, behind),
        PlanRead::Faults(faults) => Ok(Standing::Wrong(fault_lines(alloc, "", &faults)?)),
    }
}

// The document of a plan that was read of a text, with what stands behind the plan.
fn document_of(
    alloc: Global,
    text: &[u8],
    plan: Plan,
    behind: &[u8],
) -> Result<Standing, AllocError>
    requires { IsCrossedRead text.now (AsPlan plan) }
    ensures { IfOk result (IsPlanBefore text.now behind.now) }
{
    let document = written(alloc, plan)?;
    match names_in(alloc, &document, text)? {
        NamesFound::Names(names) => {
            let text = joined(document, behind)?;
            Ok(Standing::Plan { text, names })
        }
        NamesFound::Wrong(line) => Ok(Standing::Wrong(line)),
    }
}

// A document with what stands behind it.
fn joined(document: Vec<u8>, behind: &[u8]) -> Result<Vec<u8>, AllocError>
    ensures { IfOk result (λ text. text.items ≡ document.items ++ behind.now) }
{
    let mut text = document;
    text.extend_from_slice(behind)?;
    Ok(text)
}
