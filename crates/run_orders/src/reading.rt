// Inputs that are a document, and may have a journal behind it.
ghost use Rattle.std.specs.Prelude.{◌≡◌, ◌++◌, IfOk, Ok};
ghost use Rattle.rail_model.specs.Journal.{Journal as JournalValue};
ghost use Rattle.move_journal.specs.Answers.{IsTextPart};
ghost use Rattle.document_json.specs.Doc.{names_of};
ghost use Rattle.document_json.specs.Reading.{doc_of};
ghost use Rattle.timed_reading.specs.Reads.{mark};
ghost use Rattle.run_orders.specs.RunOrdered.{IsInputByRun, IsRunFrom, IsOrderedByRun, lines_in};

use crate::RunRefused;
use crate::drawing::run_from;
use crate::ordering::ordered_by_run;
use document_json::{Doc, DocRefused, document, names_of};
use document_orders::{OrderedDoc, lines_of};
use move_journal::{BadText, Journal, Part, read_prefix};
use std::alloc::Global;
use timed_reading::cut;

/// The text of a document with the orders of a run, and a line for each section that was added and for each order that was left out.
#[derive(Drop)]
pub struct RunOrdered {
    pub text: Vec<u8>,
    pub lines: String,
}

// The document that the bytes are.
fn read_document(alloc: Global, bytes: &[u8]) -> Result<Doc, RunRefused>
    ensures { IfOk result (λ doc. doc_of bytes.now ≡ Ok doc) }
{
    match document(alloc, bytes) {
        Ok(doc) => Ok(doc),
        Err(DocRefused::Memory) => Err(RunRefused::Memory),
        Err(refused) => Err(RunRefused::Document(refused)),
    }
}

// The journal of a document that the bytes are.
fn read_journal(alloc: Global, doc: &Doc, bytes: &[u8]) -> Result<Part, RunRefused>
    ensures { IfOk result (IsTextPart (names_of doc.now) bytes.now) }
{
    match read_prefix(alloc, names_of(doc), bytes) {
        Ok(part) => Ok(part),
        Err(BadText::Memory) => Err(RunRefused::Memory),
        Err(fault) => Err(RunRefused::Text(fault)),
    }
}

// A document with the orders of a run that begins with the lines of a journal.
fn ordered_from(alloc: Global, doc: &Doc, given: Part, seed: u32) -> Result<RunOrdered, RunRefused>
    ensures { IfOk result (λ made. (run : JournalValue) × IsRunFrom doc.now (lines_in given) run
        × IsOrderedByRun doc.now run made.text.items) }
{
    let run = run_from(alloc, doc, given, seed)?;
    let made = ordered_by_run(alloc, doc, &run)?;
    let lines = lines_of(alloc, doc, &made)?;
    let OrderedDoc { text, .. } = made;
    Ok(RunOrdered { text, lines })
}

// The same of an input without a journal.
fn order_alone(alloc: Global, input: &[u8], seed: u32) -> Result<RunOrdered, RunRefused>
    ensures { IfOk result (λ made. IsInputByRun input.now made.text.items) }
{
    let doc = read_document(alloc, input)?;
    let none = Journal::from_lines(Vec::new(alloc));
    ordered_from(alloc, &doc, Part::Open(none), seed)
}

// The same of a document and the lines behind it.
fn order_begun(
    alloc: Global,
    input: &[u8],
    given: &[u8],
    journal: &[u8],
    seed: u32,
) -> Result<RunOrdered, RunRefused>
    requires { input.now ≡ given.now ++ mark ++ journal.now }
    ensures { IfOk result (λ made. IsInputByRun input.now made.text.items) }
{
    let doc = read_document(alloc, given)?;
    let part = read_journal(alloc, &doc, journal)?;
    ordered_from(alloc, &doc, part, seed)
}

/// A document with the orders of a run. The input is the document alone, and the run is drawn from the seed; or the document, a line
/// `journal`, and a journal, which is the run, or without its end line the beginning of it.
///
/// # Errors
///
/// The input is no document, or no journal follows; the journal isn't right, or no run is found that ends it; there is no room for a
/// section; there is no memory.
pub fn order_input(alloc: Global, input: &[u8], seed: u32) -> Result<RunOrdered, RunRefused>
    ensures { IfOk result (λ made. IsInputByRun input.now made.text.items) }
{
    match cut(input) {
        Some((given, journal)) => order_begun(alloc, input, given, journal, seed),
        None => order_alone(alloc, input, seed),
    }
}
