// Runs that go on from a journal.
ghost use Rattle.std.specs.Prelude.{◌≡◌, ◌⊎◌, IfOk, IfErr};
ghost use Rattle.ats_run.specs.Tasks.{IsPrinted, TaskLeads};
ghost use Rattle.shared_run.specs.Crews.{crew_of};
ghost use Rattle.ats_run.specs.Command.{IsResumedInput};
ghost use Rattle.ats_answers.specs.Refusing.{RefusesResume};
ghost use Rattle.ats_answers.specs.declared.failure.Failure.TheVariants.{Memory as NoMemory};

use crate::tasks::{Begun, Printout, Task};
use accepted_documents::{Replayed, replay_text};
use ats_answers::{Failure, check_document, cut};
use shared_run::Crew;
use std::alloc::Global;
use std::thread::Threads;

/// The run that goes on from a journal by this many workers, at the state that its front leads to, or the journal as it is where it is whole.
pub(crate) fn resume(
    rt: &(impl Threads + Sync),
    alloc: Global,
    input: &[u8],
    workers: u32,
    rounds: u32,
    block: u32,
) -> Result<Task, Failure>
    ensures leads { IfOk result (TaskLeads (crew_of workers rounds block)
        (λ written. IsResumedInput (crew_of workers rounds block) input.now written)) }

    ensures refused { IfErr result (λ e. (e ≡ NoMemory) ⊎ RefusesResume input.now e) }
{
    let Some((document, given)) = cut(input) else {
        return Err(Failure::NoJournal);
    };
    let checked = check_document(rt, alloc, document)?;
    match replay_text(alloc, &checked.doc, &checked.tables, given)? {
        Replayed::Open(from) => {
            let run = Begun {
                from,
                crew: Crew {
                    workers,
                    rounds,
                    block,
                },
                printout: Printout::Journal,
            };
            Ok(Task::Goes { checked, run })
        }
        Replayed::Whole(_) => keep(alloc, given),
    }
}

// A whole text again.
fn keep(alloc: Global, given: &[u8]) -> Result<Task, Failure>
    ensures printed { IfOk result (λ task. IsPrinted task given.now) }
    ensures memory { IfErr result (λ e. e ≡ NoMemory) }
{
    Ok(Task::Printed(Vec::from_slice(alloc, given)?))
}
