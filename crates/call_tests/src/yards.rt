// A yard that is asked question by question.
ghost use Rattle.std.specs.Prelude.{◌≡◌};
ghost use Rattle.document_json.specs.Doc.{offers_of};

use crate::certificates::checked;
use cert_checker::Accepted;
use document_json::Frame;
use plain_yard::{PlainYard, begin};
use rail_model::{Ask, Tried, trains_of};
use std::alloc::Global;

// The yard of a document at its start.
fn opened<'a>(alloc: Global, doc: &Frame, tables: &'a [Accepted]) -> Option<PlainYard<'a, Accepted>>
    requires { tables.now ≡ offers_of doc.now }
{
    let Ok(begun) = begin(alloc, doc.start()) else {
        return None;
    };
    match PlainYard::new(tables, begun) {
        Ok(yard) => Some(yard),
        Err(_) => None,
    }
}

// The answer to a train, if there is one of this number.
fn told(yard: &mut PlainYard<'_, Accepted>, train: u32) -> Option<Ask> {
    if train < trains_of(yard.live_in_force()) {
        Some(yard.ask(train))
    } else {
        None
    }
}

// Whether a yard answers as it should for a train that it doesn't have, and for train 0, before and after all trains
// arrive; and whether it then has two lines.
fn answers_well(mut yard: PlainYard<'_, Accepted>) -> bool {
    let is_unknown = told(&mut yard, 1) == None;
    let is_first = told(&mut yard, 0) == Some(Ask::Yes);
    let is_last_table = yard.try_table() == Tried::NoMore;
    yard.finish();
    let has_arrived = told(&mut yard, 0) == Some(Ask::Arrived);
    let are_two = yard.into_state().lines().len() == 2;
    is_unknown && is_first && is_last_table && has_arrived && are_two
}

// The same of the yard of the first path.
fn is_answered(alloc: Global) -> bool {
    let Some(checked) = checked(alloc, "first-path") else {
        return false;
    };
    match opened(alloc, &checked.doc, &checked.tables) {
        Some(yard) => answers_well(yard),
        None => false,
    }
}

#[test]
fn a_yard_answers_question_by_question(rt: HostRuntime) {
    assert!(rt; is_answered(rt.alloc()));
}
