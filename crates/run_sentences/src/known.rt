// What is known of runs to places.
ghost use Rattle.std.specs.Prelude.{IfOk};
ghost use Rattle.run_sentences.specs.Told.{IsKnown};

use crate::apart::two_apart;
use crate::tables_offered;
use document_json::{Doc, start_of};
use order_sections::Two;
use rail_model::State;
use run_search::{RunTo, run_to};
use std::alloc::{AllocError, Global};

/// What is known of runs from the start to places under a table.
#[derive(Drop)]
pub(crate) enum Known {
    /// What a search tells.
    Searched(RunTo),
    /// No run leads there, since these two trains are never both at their places.
    Apart(Two),
}

/// What is known of runs from the start of a document to these places under one of its tables. More than `limit` states
/// aren't searched. If no run is found, two trains are looked for that can't both be there.
pub(crate) fn known_of(
    alloc: Global,
    doc: &Doc,
    table: u32,
    at: &State,
    limit: usize,
) -> Result<Known, AllocError>
    ensures { IfOk result (IsKnown doc.now table at.now) }
{
    let tables = tables_offered(alloc, doc)?;
    let told = run_to(alloc, &tables, start_of(doc), at, table, limit)?;
    if let RunTo::Run(_) = told {
        return Ok(Known::Searched(told));
    }
    match two_apart(alloc, doc, table, at)? {
        Some(two) => Ok(Known::Apart(two)),
        None => Ok(Known::Searched(told)),
    }
}
