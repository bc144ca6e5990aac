// The run of a document by its travel times, as text.
ghost use Rattle.std.specs.Prelude.{◌≡◌, ◌⊎◌, ◌-◌, ◌++◌, [], All, length, IfOk, IfErr, OnOk, string_bytes};
ghost use Rattle.rail_model.specs.Journal.{IsDone, with_counts};
ghost use Rattle.rail_model.specs.Yard.{opening};
ghost use Rattle.plain_yard.specs.Keeps.{Keeps};
ghost use Rattle.move_journal.specs.Printable.{IsNamed};
ghost use Rattle.train_sim.specs.Report.{Simulates, IsSoon};
ghost use Rattle.document_json.specs.Doc.{IsDoc, offers_of, times_of, names_of};
ghost use Rattle.accepted_documents.specs.Accepting.{AreAccepted, IsDocWith};
ghost use Rattle.ats_answers.specs.Refusing.{RefusesCheck};
ghost use Rattle.ats_answers.specs.Simulating.{IsSimulated, timed_text, last_text};
ghost use Rattle.ats_answers.specs.declared.failure.Failure.TheVariants.{Memory as NoMemory};

use crate::Failure;
use crate::checked::{check_alone, check_document};
use accepted_documents::Checked;
use cert_checker::Accepted;
use document_json::Frame;
use move_journal::{Journal, push_line};
use plain_yard::{PlainYard, begin};
use rail_model::{Line, Names};
use std::alloc::{AllocError, Global};
use std::thread::Threads;
use train_sim::{SimReport, simulate as simulate_yard};

/// The timed journal of a document's run, with the tick of its last move.
///
/// # Errors
///
/// There was no memory, or the first refusal in the order document, trees, certificates.
pub fn simulate(rt: &(impl Threads + Sync), alloc: Global, input: &[u8]) -> Result<Vec<u8>, Failure>
    ensures simulated { IfOk result (λ text. IsDocWith input.now (λ D. IsSimulated D text.items)) }

    ensures unchecked { IfErr result (λ e. (e ≡ NoMemory) ⊎ RefusesCheck input.now e) }
{
    let checked = check_document(rt, alloc, input)?;
    simulate_checked(alloc, &checked)
}

/// What `simulate` answers, with the certificates checked by one thread.
///
/// # Errors
///
/// Those of `simulate`.
pub fn simulate_alone(alloc: Global, input: &[u8]) -> Result<Vec<u8>, Failure>
    ensures simulated { IfOk result (λ text. IsDocWith input.now (λ D. IsSimulated D text.items)) }

    ensures unchecked { IfErr result (λ e. (e ≡ NoMemory) ⊎ RefusesCheck input.now e) }
{
    let checked = check_alone(alloc, input)?;
    simulate_checked(alloc, &checked)
}

// The same for a document whose tables accept their certificates. The only error is that there is no memory.
fn simulate_checked(alloc: Global, checked: &Checked) -> Result<Vec<u8>, Failure>
    requires tables { checked.now.tables.items ≡ offers_of checked.now.doc }
    requires accepted { AreAccepted checked.now.doc checked.now.certs.items }
    ensures simulated { IfOk result (λ text. IsSimulated checked.now.doc text.items) }

    ensures memory { IfErr result (λ e. e ≡ NoMemory) }
{
    let report = report_of(alloc, &checked.doc, &checked.tables)?;
    Ok(text_of_report(alloc, &checked.doc, report)?)
}

// What the simulation of a document reports.
fn report_of(alloc: Global, doc: &Frame, tables: &[Accepted]) -> Result<SimReport, AllocError>
    requires { tables.now ≡ offers_of doc.now }
    ensures formed { IsDoc doc.now }
    ensures simulates { IfOk result (λ r. Simulates (offers_of doc.now) (times_of doc.now) (opening doc.now.start) []
        r.state.lines r.ticks.items r.last_tick r.state.yard) }
    ensures soon { IfOk result (λ r. IsSoon (offers_of doc.now) (times_of doc.now) r.state.yard.moves r.last_tick) }
    ensures done { IfOk result (λ r. IsDone (offers_of doc.now) r.state.yard) }
    ensures keeps { IfOk result (λ r. Keeps (offers_of doc.now) r.state.yard r.state.lines) }
    ensures one_each { IfOk result (λ r. length r.ticks.items ≡ length r.state.lines) }
{
    let yard = begin_run(alloc, doc, tables)?;
    match simulate_yard(alloc, yard, doc.times()) {
        Ok(report) => Ok(report),
        Err(_) => Err(AllocError),
    }
}

// The yard at a document's start.
fn begin_run<'a>(
    alloc: Global,
    doc: &Frame,
    tables: &'a [Accepted],
) -> Result<PlainYard<'a, Accepted>, AllocError>
    requires { tables.now ≡ offers_of doc.now }
    ensures formed { IsDoc doc.now }
    ensures run { IfOk result (λ run. run
        ≡ record { tables = offers_of doc.now; yard = opening doc.now.start; lines = []; room = run.room }) }
{
    let begun = begin(alloc, doc.start())?;
    match PlainYard::new(tables, begun) {
        Ok(yard) => Ok(yard),
        Err(_) => Err(AllocError),
    }
}

// The text of a report.
fn text_of_report(alloc: Global, doc: &Frame, report: SimReport) -> Result<Vec<u8>, AllocError>
    requires one_each { length report.ticks.items ≡ length report.state.lines }
    requires keeps { Keeps (offers_of doc.now) report.state.yard report.state.lines }
    ensures { IfOk result (λ text. text.items
        ≡ timed_text (names_of doc.now) report.ticks.items report.state.lines ++ last_text report.state.lines report.last_tick) }
{
    let (_, lines) = report.state.into_parts();
    let mut out = String::new(alloc);
    push_timed(&mut out, doc.names(), &report.ticks, &lines)?;
    push_last(&mut out, &Journal::from_lines(lines), report.last_tick)?;
    Ok(out.into_bytes())
}

// Adds each line, with its tick before it.
fn push_timed(
    out: &mut String,
    names: &Names,
    ticks: &[u32],
    lines: &[Line],
) -> Result<(), AllocError>
    requires one_each { length ticks.now ≡ length lines.now }
    requires named { All (IsNamed names.now) lines.now }
    ensures { OnOk result (string_bytes out.new ≡ string_bytes out.old ++ timed_text names.now ticks.now lines.now) }
{
    for index in 0..lines.len() {
        push_line(out, names, u64::from(ticks[index]), &lines[index])?;
    }
    Ok(())
}

// Adds the counts of the lines and the tick of the last move.
fn push_last(out: &mut String, journal: &Journal, last_tick: u32) -> Result<(), AllocError>
    requires { journal.now ≡ with_counts journal.now.lines }
    ensures { OnOk result (string_bytes out.new ≡ string_bytes out.old ++ last_text journal.now.lines last_tick) }
{
    let moves = journal.moves();
    let tables = journal.tables();
    write!(out, "end moves={moves} tables={tables} last={last_tick}\n")
}
