// A run that begins with drawn turns of its trains and its control, as text.
ghost use Rattle.std.specs.Prelude.{◌≡◌, ◌⊎◌, ◌≤◌, IfOk, IfErr};
ghost use Rattle.document_json.specs.Doc.{offers_of};
ghost use Rattle.accepted_documents.specs.Accepting.{AreAccepted, IsDocWith};
ghost use Rattle.ats_answers.specs.Refusing.{RefusesCheck};
ghost use Rattle.ats_answers.specs.Weaving.{IsWoven};
ghost use Rattle.ats_answers.specs.declared.failure.Failure.TheVariants.{Memory as NoMemory};
ghost use Rattle.ats_run.specs.Headline.{IsRun};

use crate::run::{finish_from, text_of_run};
use accepted_documents::Checked;
use ats_answers::{Failure, check_document, state_after};
use std::alloc::Global;
use std::thread::Threads;

/// The text of the journal of a document's run that begins with this number of drawn turns.
pub fn weave(
    rt: &(impl Threads + Sync),
    alloc: Global,
    input: &[u8],
    seed: u32,
    turns: u32,
) -> Result<Vec<u8>, Failure>
    requires { turns ≤ 1000000 }
    ensures woven { IfOk result (λ text. IsDocWith input.now (λ D. (run : IsRun D text.items) × IsWoven D seed turns run.journal.lines)) }

    ensures unchecked { IfErr result (λ e. (e ≡ NoMemory) ⊎ RefusesCheck input.now e) }
{
    let checked = check_document(rt, alloc, input)?;
    weave_checked(alloc, &checked, seed, turns)
}

// The same for a document whose tables accept their certificates. The only error is that there is no memory.
fn weave_checked(
    alloc: Global,
    checked: &Checked,
    seed: u32,
    turns: u32,
) -> Result<Vec<u8>, Failure>
    requires tables { checked.now.tables.items ≡ offers_of checked.now.doc }
    requires accepted { AreAccepted checked.now.doc checked.now.certs.items }
    requires few { turns ≤ 1000000 }
    ensures woven { IfOk result (λ text. (run : IsRun checked.now.doc text.items)
        × IsWoven checked.now.doc seed turns run.journal.lines) }

    ensures memory { IfErr result (λ e. e ≡ NoMemory) }
{
    let state = state_after(alloc, &checked.doc, &checked.tables, seed, turns)?;
    let end = finish_from(&checked.doc, &checked.tables, state)?;
    Ok(text_of_run(alloc, &checked.doc, end)?)
}
