// Runs of generated documents, and what is counted of them.
ghost use Rattle.std.specs.Prelude.{◌≡◌, ◌⊎◌, ◌≤◌, length, IfOk, IfErr, string_bytes};
ghost use Rattle.document_generator.specs.Generated.{generated};
ghost use Rattle.document_json.specs.Doc.{offers_of};
ghost use Rattle.plain_yard.specs.Keeps.{Keeps};
ghost use Rattle.ats_answers.specs.Making.{full_budget};
ghost use Rattle.ats_answers.specs.Refusing.{RefusesMake};
ghost use Rattle.ats_answers.specs.declared.failure.Failure.TheVariants.{Memory as NoMemory};
ghost use Rattle.ats_run.specs.Command.{IsDrilledInput};
ghost use Rattle.ats_run.specs.Drilling.{drill_text};
ghost use Rattle.ats_run.specs.Orders.{drill_crew};
ghost use Rattle.ats_run.specs.Tasks.{TaskLeads, Prints};
ghost use Rattle.ats_run.specs.declared.tasks.Printout.TheVariants.{Counts};

use crate::tasks::{Printout, Task, task_at_start};
use accepted_documents::Checked;
use ats_answers::{Failure, drill_document, nodes};
use move_journal::Journal;
use rail_model::PlainState;
use shared_run::Crew;
use std::alloc::{AllocError, Global};

const ROUNDS: u32 = 1000;

/// The run of a generated document, at its start, by this many workers.
pub(crate) fn begin_drill(
    alloc: Global,
    seed: u32,
    trains: u32,
    workers: u32,
) -> Result<Task, Failure>
    requires { trains ≤ 32 }
    ensures leads { IfOk result (TaskLeads (drill_crew workers)
        (λ written. IsDrilledInput (drill_crew workers) (generated seed trains) written)) }

    ensures unmade { IfErr result (λ e. (e ≡ NoMemory) ⊎ RefusesMake (generated seed trains) full_budget e) }
{
    let checked = drill_document(alloc, seed, trains)?;
    let crew = Crew {
        workers,
        rounds: ROUNDS,
        block: 1,
    };
    Ok(task_at_start(alloc, checked, crew, Printout::Counts)?)
}

/// The line that counts a run of a document.
pub(crate) fn counts_of_run(
    alloc: Global,
    checked: &Checked,
    end: PlainState,
) -> Result<Vec<u8>, AllocError>
    requires keeps { Keeps (offers_of checked.now.doc) end.yard end.lines }
    requires few { length checked.now.certs.items ≤ 16 }
    ensures { IfOk result (λ text. Prints Counts checked.now.doc checked.now.certs.items end text.items) }
{
    let trains = checked.doc.names().trains();
    let (_, lines) = end.into_parts();
    let journal = Journal::from_lines(lines);
    let line = drilled_line(alloc, trains, &journal, nodes(&checked.certs))?;
    Ok(line.into_bytes())
}

fn drilled_line(
    alloc: Global,
    trains: usize,
    journal: &Journal,
    nodes: u64,
) -> Result<String, AllocError>
    ensures { IfOk result (λ line. string_bytes line ≡ drill_text trains journal.now.moves journal.now.tables nodes) }
{
    let moves = journal.moves();
    let tables = journal.tables();
    let mut line = String::new(alloc);
    write!(
        line,
        "trains={trains} moves={moves} tables={tables} nodes={nodes}\n"
    )?;
    Ok(line)
}
