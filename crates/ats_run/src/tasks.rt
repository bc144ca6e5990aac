// What is left to do of an order, once its input is read: to end a run and to print that, or to write what is printed already.
ghost use Rattle.std.specs.Prelude.{IfOk};
ghost use Rattle.document_json.specs.Doc.{IsDoc};
ghost use Rattle.ats_run.specs.Tasks.{IsAtStart};

use accepted_documents::Checked;
use plain_yard::begin;
use rail_model::PlainState;
use shared_run::Crew;
use std::alloc::{AllocError, Global};

/// What is printed of the end of a run.
#[derive(Clone, Copy)]
pub(crate) enum Printout {
    /// The text of its journal.
    Journal,
    /// How many trains, moves, exchanges and nodes there are.
    Counts,
}

/// A run that is to be ended: from a state, by a crew, or by one thread where the crew has no workers.
#[derive(Drop)]
pub(crate) struct Begun {
    pub(crate) from: PlainState,
    pub(crate) crew: Crew,
    pub(crate) printout: Printout,
}

/// A run of a document that is to be ended, or bytes that are printed already.
#[derive(Drop)]
pub(crate) enum Task {
    Goes { checked: Checked, run: Begun },
    Printed(Vec<u8>),
}

/// The run of a document, at its start.
pub(crate) fn task_at_start(
    alloc: Global,
    checked: Checked,
    crew: Crew,
    printout: Printout,
) -> Result<Task, AllocError>
    ensures start { IfOk result (IsAtStart checked crew printout) }
    ensures formed { IsDoc checked.doc }
{
    let from = begin(alloc, checked.doc.start())?;
    let run = Begun {
        from,
        crew,
        printout,
    };
    Ok(Task::Goes { checked, run })
}
