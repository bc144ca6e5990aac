// Documents with orders.
ghost use Rattle.std.specs.Prelude.{◌≡◌, IfOk, Ok};
ghost use Rattle.document_json.specs.Reading.{doc_of};
ghost use Rattle.planner_run.specs.Answered.{IsOrdering, IsOrderingByRun};

use crate::Answer;
use crate::drawing::refusal;
use crate::explaining::wrong;
use document_json::{Doc, DocRefused, document};
use document_orders::{NotOrdered, lines_of, ordered};
use run_orders::{RunRefused, order_input, refused_lines};
use std::alloc::{AllocError, Global};

const NO_ROOM: &str = "no room is left for a section: a table has at most 64\n";

const UNTRUE: &str = "what was found didn't pass its test; please report this document\n";

/// The document that the input is, with sections that keep its trains in the order that the tracks force.
#[tactic(auto, using(crate::proofs::Suits::wrong_orders))]
pub(crate) fn add_orders(alloc: Global, input: &[u8]) -> Result<Answer, AllocError>
    ensures { IfOk result (IsOrdering input.now) }
{
    match document(alloc, input) {
        Ok(doc) => with_orders(alloc, input, &doc),
        Err(DocRefused::Memory) => Err(AllocError),
        Err(refused) => refusal(alloc, &refused),
    }
}

// The document with its orders, and a line for each.
#[tactic(auto, using(crate::proofs::Suits::wrong_orders))]
fn with_orders(alloc: Global, input: &[u8], doc: &Doc) -> Result<Answer, AllocError>
    requires read { doc_of input.now ≡ Ok doc.now }
    ensures { IfOk result (IsOrdering input.now) }
{
    match ordered(alloc, doc) {
        Ok(made) => {
            let lines = lines_of(alloc, doc, &made)?;
            Ok(Answer::Noted(made.text, lines))
        }
        Err(NotOrdered::Memory) => Err(AllocError),
        Err(NotOrdered::NoRoom) => wrong(alloc, NO_ROOM),
        Err(NotOrdered::Untrue) => wrong(alloc, UNTRUE),
    }
}

/// The document of an input, with sections that keep its trains in the order of a run, which the input gives or begins, or which is drawn.
pub(crate) fn order_by_run(alloc: Global, input: &[u8], seed: u32) -> Result<Answer, AllocError>
    ensures { IfOk result (IsOrderingByRun input.now) }
{
    match order_input(alloc, input, seed) {
        Ok(made) => Ok(Answer::Noted(made.text, made.lines)),
        Err(RunRefused::Memory) => Err(AllocError),
        Err(refused) => Ok(Answer::Wrong(refused_lines(alloc, &refused)?)),
    }
}
