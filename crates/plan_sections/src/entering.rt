// Plans in inputs, with entries for the sections of what was made of them.
ghost use Rattle.std.specs.Prelude.{IfOk};
ghost use Rattle.plan_sections.specs.Entered.{IsEntering};

use crate::entries::Adder;
use crate::writing::{Written, with_sections};
use document_json::{DocRefused, document};
use plan_input::parts;
use std::alloc::{AllocError, Global};

const NO_DOCUMENT: &str = "what was made is no document; please report this input\n";

/// The plan of an input, with entries behind it for the sections that were added to its document, of which this is the text. The lines of
/// a run behind the plan are left out.
pub fn enter(alloc: Global, input: &[u8], made: &[u8], adder: Adder) -> Result<Written, AllocError>
    ensures { IfOk result (IsEntering input.now made.now) }
{
    let (plan, _behind) = parts(input);
    match document(alloc, made) {
        Ok(doc) => with_sections(alloc, plan, &doc, adder),
        Err(DocRefused::Memory) => Err(AllocError),
        Err(_) => Ok(Written::Not(String::from_str(alloc, NO_DOCUMENT)?)),
    }
}
