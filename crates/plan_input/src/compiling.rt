// The document of a plan.
ghost use Rattle.std.specs.Prelude.{IfOk, IfNone};
ghost use Rattle.plan_crossed.specs.Read.{IsCrossedRead};
ghost use Rattle.plan_reading.specs.declared.reading.PlanRead.TheVariants.{Plan as AsPlan};
ghost use Rattle.plan_input.specs.Standing.{IsCompiled, ReadsAsDocument};

use document_json::{DocRefused, document};
use plan_document::{Plan, written};
use plan_reading::Fault;
use refusal_lines::push_document;
use std::alloc::{AllocError, Global};

/// What a plan comes to.
#[derive(Drop)]
pub enum Compiled {
    /// The text of its document.
    Document(Vec<u8>),
    /// `ats` refuses its document, as the line says.
    Refused(String),
}

/// A line for each fault, or for each of what else there is to say.
pub fn fault_lines(alloc: Global, what: &str, faults: &[Fault]) -> Result<String, AllocError> {
    let mut lines = String::new(alloc);
    for fault in faults {
        let line = fault.line;
        let words = fault.words.as_str();
        write!(lines, "line {line}: {what}{words}\n")?;
    }
    Ok(lines)
}

/// The document of a plan that was read of a text, if it reads as one.
pub fn compile(alloc: Global, text: &[u8], plan: Plan) -> Result<Compiled, AllocError>
    requires { IsCrossedRead text.now (AsPlan plan) }
    ensures { IfOk result (IsCompiled text.now) }
{
    let document = written(alloc, plan)?;
    match refusal_of(alloc, &document)? {
        None => Ok(Compiled::Document(document)),
        Some(line) => Ok(Compiled::Refused(line)),
    }
}

// Why a text is no document, if it isn't one.
fn refusal_of(alloc: Global, text: &[u8]) -> Result<Option<String>, AllocError>
    ensures { IfOk result (λ line. IfNone line (ReadsAsDocument text.now)) }
{
    match document(alloc, text) {
        Ok(_) => Ok(None),
        Err(DocRefused::Memory) => Err(AllocError),
        Err(refused) => Ok(Some(line_of(alloc, &refused)?)),
    }
}

/// That `ats` refuses the document of a plan.
pub(crate) fn line_of(alloc: Global, refused: &DocRefused) -> Result<String, AllocError> {
    let mut line = String::from_str(alloc, "ats refuses the document of this plan: ")?;
    push_document(&mut line, refused)?;
    line.push_str("\n")?;
    Ok(line)
}
