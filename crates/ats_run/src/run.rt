// The run of a document from its start, as text.
ghost use Rattle.std.specs.Prelude.{◌≡◌, ◌⊎◌, ◌-◌, IfOk, IfErr};
ghost use Rattle.document_json.specs.Doc.{offers_of, names_of};
ghost use Rattle.rail_model.specs.Table.{trains};
ghost use Rattle.rail_model.specs.Yard.{offer};
ghost use Rattle.rail_model.specs.Journal.{IsDone, text as text_of, with_counts};
ghost use Rattle.plain_yard.specs.Keeps.{Keeps};
ghost use Rattle.plain_yard.specs.Rounds.{Finishes};
ghost use Rattle.ats_run.specs.Command.{IsRunInput};
ghost use Rattle.ats_answers.specs.Refusing.{RefusesCheck};
ghost use Rattle.ats_run.specs.Tasks.{TaskLeads};
ghost use Rattle.shared_run.specs.Crews.{crew_of};
ghost use Rattle.ats_answers.specs.declared.failure.Failure.TheVariants.{Memory as NoMemory};

use crate::tasks::{Printout, Task, task_at_start};
use ats_answers::{Failure, check_document};
use cert_checker::Accepted;
use document_json::Frame;
use move_journal::{Journal, text};
use plain_yard::PlainYard;
use rail_model::PlainState;
use shared_run::Crew;
use std::alloc::{AllocError, Global};
use std::thread::Threads;

/// The run of a document, at its start, by this many workers.
pub(crate) fn begin_run(
    rt: &(impl Threads + Sync),
    alloc: Global,
    input: &[u8],
    workers: u32,
    rounds: u32,
    block: u32,
) -> Result<Task, Failure>
    ensures leads { IfOk result (TaskLeads (crew_of workers rounds block)
        (λ written. IsRunInput (crew_of workers rounds block) input.now written)) }

    ensures unchecked { IfErr result (λ e. (e ≡ NoMemory) ⊎ RefusesCheck input.now e) }
{
    let checked = check_document(rt, alloc, input)?;
    let crew = Crew {
        workers,
        rounds,
        block,
    };
    Ok(task_at_start(alloc, checked, crew, Printout::Journal)?)
}

/// The state and the lines in which the round robin from a state of a document's run ends.
pub fn finish_from(
    doc: &Frame,
    tables: &[Accepted],
    state: PlainState,
) -> Result<PlainState, AllocError>
    requires tables { tables.now ≡ offers_of doc.now }
    requires keeps { Keeps (offers_of doc.now) state.yard state.lines }
    ensures done { IfOk result (λ end. IsDone (offers_of doc.now) end.yard) }
    ensures round { IfOk result (λ end. Finishes (offers_of doc.now) state.yard (trains (offer (offers_of doc.now) 0).table - 1)
        state.lines end.yard end.lines) }
    ensures keeps { IfOk result (λ end. Keeps (offers_of doc.now) end.yard end.lines) }
{
    let Ok(mut yard) = PlainYard::new(tables, state) else {
        return Err(AllocError);
    };
    yard.finish();
    Ok(yard.into_state())
}

/// The text of the lines that a run of a document has.
pub fn text_of_run(alloc: Global, doc: &Frame, state: PlainState) -> Result<Vec<u8>, AllocError>
    requires { Keeps (offers_of doc.now) state.yard state.lines }
    ensures { IfOk result (λ text. text.items ≡ text_of (names_of doc.now) (with_counts state.lines)) }
{
    let names = doc.names();
    let (_, lines) = state.into_parts();
    text(alloc, names, &Journal::from_lines(lines))
}
