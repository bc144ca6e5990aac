// Whether a start is legal under a table that isn't the document's own.
ghost use Rattle.std.specs.Prelude.{IfErr, OnOk};
ghost use Rattle.rail_model.specs.State.{Legal};
ghost use Rattle.ats_answers.specs.Starting.{IsBadStart};

use crate::Failure;
use document_json::DocRefused;
use legal_state::judge;
use rail_model::{State, Table};

/// Whether a start is legal under a table.
pub fn check_start(table: &Table, start: &State) -> Result<(), Failure>
    ensures legal { OnOk result (Legal table.now start.now) }

    ensures bad { IfErr result (IsBadStart table.now start.now) }
{
    match judge(table, start) {
        Ok(()) => Ok(()),
        Err(cause) => Err(Failure::Document(DocRefused::Start(cause))),
    }
}
