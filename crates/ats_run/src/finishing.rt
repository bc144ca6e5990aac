// How a run is ended, by one thread or first by workers, and what is printed of its end.
ghost use Rattle.std.specs.Prelude.{◌≡◌, ◌≤◌, IfOk, IfErr, length};
ghost use Rattle.document_json.specs.Doc.{offers_of};
ghost use Rattle.plain_yard.specs.Keeps.{Keeps};
ghost use Rattle.shared_run.specs.Crews.{IsCrew};
ghost use Rattle.ats_run.specs.Tasks.{EndsWith, Prints};
ghost use Rattle.ats_answers.specs.declared.failure.Failure.TheVariants.{Memory as NoMemory};

use crate::drill::counts_of_run;
use crate::run::{finish_from, text_of_run};
use crate::tasks::{Begun, Printout};
use accepted_documents::Checked;
use ats_answers::Failure;
use ats_io::Gate;
use rail_model::PlainState;
use shared_run::work;
use std::alloc::{AllocError, Global};
use std::sync::Wait;
use std::thread::Threads;

/// The bytes that are printed of a run that one thread ends. The only error is that there is no memory.
pub(crate) fn end_alone(alloc: Global, checked: &Checked, run: Begun) -> Result<Vec<u8>, Failure>
    requires tables { checked.now.tables.items ≡ offers_of checked.now.doc }
    requires keeps { Keeps (offers_of checked.now.doc) run.from.yard run.from.lines }
    requires few { length checked.now.certs.items ≤ 16 }
    requires alone { run.crew.workers ≡ 0 }
    ensures ends { IfOk result (λ text. EndsWith checked.now.doc checked.now.certs.items run text.items) }

    ensures memory { IfErr result (λ e. e ≡ NoMemory) }
{
    let end = finish_from(&checked.doc, &checked.tables, run.from)?;
    Ok(print(alloc, run.printout, checked, end)?)
}

/// The bytes that are printed of a run that its crew goes on with, and that one thread ends. The only error is that there is no memory.
/// It may wait where the crew has workers.
pub(crate) fn end_by<R: Threads + Wait + Sync, G: Gate>(
    rt: &R,
    alloc: Global,
    checked: &Checked,
    run: Begun,
    gate: &G,
) -> Result<Vec<u8>, Failure>
    requires tables { checked.now.tables.items ≡ offers_of checked.now.doc }
    requires keeps { Keeps (offers_of checked.now.doc) run.from.yard run.from.lines }
    requires few { length checked.now.certs.items ≤ 16 }
    requires crew { 1 ≤ run.crew.workers → IsCrew run.crew }
    ensures ends { IfOk result (λ text. EndsWith checked.now.doc checked.now.certs.items run text.items) }

    ensures memory { IfErr result (λ e. e ≡ NoMemory) }
{
    if run.crew.workers == 0 {
        return end_alone(alloc, checked, run);
    }
    let layout = checked.doc.layout();
    let worked = work(rt, alloc, layout, &checked.tables, run.from, run.crew, gate)?;
    let end = finish_from(&checked.doc, &checked.tables, worked)?;
    Ok(print(alloc, run.printout, checked, end)?)
}

// What is printed of the end of a run.
fn print(
    alloc: Global,
    printout: Printout,
    checked: &Checked,
    end: PlainState,
) -> Result<Vec<u8>, AllocError>
    requires keeps { Keeps (offers_of checked.now.doc) end.yard end.lines }
    requires few { length checked.now.certs.items ≤ 16 }
    ensures { IfOk result (λ text. Prints printout checked.now.doc checked.now.certs.items end text.items) }
{
    match printout {
        Printout::Journal => text_of_run(alloc, &checked.doc, end),
        Printout::Counts => counts_of_run(alloc, checked, end),
    }
}
