// Pages.
ghost use Rattle.std.specs.Prelude.{◌≡◌, ◌<◌, IfOk, List, false, length, option_map, string_bytes};
ghost use Rattle.accepted_documents.specs.Accepting.{AreAccepted};
ghost use Rattle.document_certificates.specs.Certified.{HasNone};
ghost use Rattle.document_json.specs.Doc.{table_at};
ghost use Rattle.rail_model.specs.Certificate.{Tree};
ghost use Rattle.rail_model.specs.State.{Legal};
ghost use Rattle.timed_reading.specs.Runs.{IsToldRun};
ghost use Rattle.planner_run.specs.Answered.{IfText};
ghost use Rattle.planner_run.specs.Drawn.{IsGraphOf};
ghost use Rattle.planner_run.specs.Running.{IsRan};
ghost use Rattle.planner_run.specs.Reporting.{AreRemarksOn, AreSizesIn, IsDocumentIn, IsLayoutFor, IsOpenReportOf, IsReportOf, IsReportText, IsVerdictOn, SaysWhyNot, TellsPlaces, certificate_sizes as sizes_of, stuck_table};

use crate::Answer;
use crate::certifying::lines_on;
use crate::drawing::picture_of;
use crate::explaining::add_run;
use crate::linting::lines_of;
use crate::running::{MOST_NODES, Ran, find_run};
use crate::timing::graph_text;
use cert_search::{Effort, Watcher};
use document_certificates::{Uncertified, certified_text};
use document_json::{Doc, document, layout_of, names_of, nodes_of, start_of, table_of, tables_of};
use document_lint::lint;
use rail_model::State;
use refusal_sentences::sections_named;
use report_page::{Report, Verdict, page};
use run_timetable::Run;
use state_sentences::{Scene, text_of};
use std::alloc::{AllocError, Global};
use timed_reading::cut;
use train_graph::Wish;
use wait_causes::{Wait, waits};

/// What a page is asked for: the input, a delay if there is one, the names of the sections of each table, and a title.
#[derive(Clone, Copy)]
pub(crate) struct Asked<'a> {
    pub(crate) input: &'a [u8],
    pub(crate) delay: Option<&'a str>,
    pub(crate) names: &'a [Vec<String>],
    pub(crate) title: &'a str,
}

/// The page of a run, or of a document for which no certificates are found.
pub(crate) fn report<W: Watcher>(
    alloc: Global,
    asked: Asked<'_>,
    watcher: &W,
) -> Result<Answer, AllocError>
    ensures { IfOk result (IfText (IsReportText asked.entry.input.now asked.entry.delay asked.entry.names.now asked.entry.title.now)) }
{
    let ran = find_run(alloc, asked.input, asked.delay, watcher)?;
    report_on(alloc, &ran, asked, watcher)
}

// The page of what was found of an input.
fn report_on<'a, W: Watcher>(
    alloc: Global,
    ran: &'a Ran,
    asked: Asked<'a>,
    watcher: &W,
) -> Result<Answer, AllocError>
    requires { IsRan asked.input.now asked.delay ran.now }
    ensures { IfOk result (IfText (IsReportText asked.entry.input.now asked.entry.delay asked.entry.names.now asked.entry.title.now)) }
{
    match ran {
        Ran::Given { doc, run } => given_report(alloc, doc, run, asked, watcher),
        Ran::Own { doc, run } => own_report(alloc, doc, run, asked),
        Ran::Open { doc, why } => open_report_of(alloc, doc, why, asked),
        Ran::Not(lines) => Ok(Answer::Wrong(lines.clone()?)),
    }
}

// The page of a run that was given, with what is found of certificates.
fn given_report<'a, W: Watcher>(
    alloc: Global,
    doc: &'a Doc,
    run: &'a Run,
    asked: Asked<'a>,
    watcher: &W,
) -> Result<Answer, AllocError>
    requires { IsToldRun doc.now run.now }
    ensures { IfOk result (IfText (IsReportOf asked.entry.input.now doc.now asked.entry.names.now asked.entry.title.now run.now)) }
{
    let verdict = verdict_on(alloc, doc, asked.names, watcher)?;
    report_of(alloc, doc, run, asked, &verdict)
}

// The page of the run of a document that has certificates.
fn own_report<'a>(
    alloc: Global,
    doc: &'a Doc,
    run: &'a Run,
    asked: Asked<'a>,
) -> Result<Answer, AllocError>
    requires told { IsToldRun doc.now run.now }
    requires accepted { (trees : List Tree) × AreAccepted doc.now trees }
    ensures { IfOk result (IfText (IsReportOf asked.entry.input.now doc.now asked.entry.names.now asked.entry.title.now run.now)) }
{
    let verdict = Verdict::Certified(certificate_sizes(alloc, doc)?);
    report_of(alloc, doc, run, asked, &verdict)
}

// How many nodes the certificate of each table of a document has.
fn certificate_sizes(alloc: Global, doc: &Doc) -> Result<Vec<u64>, AllocError>
    ensures { IfOk result (λ sizes. sizes.items ≡ sizes_of doc.now) }
{
    let mut sizes = Vec::new(alloc);
    for table in 0..tables_of(doc) {
        sizes.push(nodes_of(doc, table).len() as u64)?;
    }
    Ok(sizes)
}

// The same of a text that is a document.
fn sizes_in(alloc: Global, text: &[u8]) -> Result<Vec<u64>, AllocError>
    ensures { IfOk result (λ sizes. AreSizesIn text.now sizes.items) }
{
    match document(alloc, text) {
        Ok(doc) => certificate_sizes(alloc, &doc),
        Err(_) => Err(AllocError),
    }
}

// The page of a run of a document.
fn report_of<'a>(
    alloc: Global,
    doc: &'a Doc,
    run: &'a Run,
    asked: Asked<'a>,
    verdict: &'a Verdict,
) -> Result<Answer, AllocError>
    requires told { IsToldRun doc.now run.now }
    requires verdict { IsVerdictOn doc.now asked.names.now verdict.now }
    ensures { IfOk result (IfText (IsReportOf asked.entry.input.now doc.now asked.entry.names.now asked.entry.title.now run.now)) }
{
    let tracks = match picture_of(alloc, doc, asked.names, 0, start_of(doc))? {
        Answer::Text(tracks) => tracks,
        other => return Ok(other),
    };
    let waits = waits(alloc, doc, run, asked.names)?;
    let graph = plain_graph(alloc, doc, run, &waits)?;
    let remarks = remarks_on(alloc, asked.input, asked.names)?;
    let played = Some(run);
    let lines = remarks.as_deref();
    let shown = Report {
        title: asked.title,
        verdict,
        tracks: &tracks,
        run: played,
        graph: &graph,
        waits: &waits,
        layout: layout_of(doc),
        trains: names_of(doc),
        table: table_of(doc, 0),
        sections: sections_named(asked.names, 0),
        remarks: lines,
    };
    Ok(Answer::Text(page(alloc, &shown)?))
}

// The graph of a run along the longest route, without bars.
fn plain_graph(alloc: Global, doc: &Doc, run: &Run, waits: &[Wait]) -> Result<Vec<u8>, AllocError>
    ensures { IfOk result (λ text. IsGraphOf doc.now run.now waits.now false text.items) }
{
    let wish = Wish {
        chosen: None,
        waits,
        blocks: false,
    };
    graph_text(alloc, doc, run, wish)
}

// The page of a document for which no certificates were found.
fn open_report_of<'a>(
    alloc: Global,
    doc: &'a Doc,
    why: &Uncertified,
    asked: Asked<'a>,
) -> Result<Answer, AllocError>
    requires { HasNone doc.now 1000000 why.now }
    ensures { IfOk result (IfText (IsOpenReportOf asked.entry.input.now doc.now asked.entry.names.now asked.entry.title.now why.now)) }
{
    let tracks = match layout_for(alloc, doc, asked.names, why)? {
        Answer::Text(tracks) => tracks,
        other => return Ok(other),
    };
    let verdict = why_not(alloc, doc, asked.names, why)?;
    let remarks = remarks_on(alloc, asked.input, asked.names)?;
    let table = table_in(why);
    let played = None;
    let lines = remarks.as_deref();
    let shown = Report {
        title: asked.title,
        verdict: &verdict,
        tracks: &tracks,
        run: played,
        graph: &[],
        waits: &[],
        layout: layout_of(doc),
        trains: names_of(doc),
        table: table_of(doc, table),
        sections: sections_named(asked.names, table),
        remarks: lines,
    };
    Ok(Answer::Text(page(alloc, &shown)?))
}

// The table of which a state is stuck, or table 0.
fn table_in(why: &Uncertified) -> u32
    ensures { result ≡ stuck_table why.now }
{
    match why {
        Uncertified::Stuck { table, .. } => *table,
        Uncertified::GaveUp { .. } => 0,
        Uncertified::Memory => 0,
    }
}

// The layout with the trains where they are stuck, or at the start.
fn layout_for(
    alloc: Global,
    doc: &Doc,
    names: &[Vec<String>],
    why: &Uncertified,
) -> Result<Answer, AllocError>
    ensures { IfOk result (IfText (IsLayoutFor doc.now names.now why.now)) }
{
    match why {
        Uncertified::Stuck { table, at } => picture_of(alloc, doc, names, *table, at),
        Uncertified::GaveUp { .. } => picture_of(alloc, doc, names, 0, start_of(doc)),
        Uncertified::Memory => Err(AllocError),
    }
}

// Whether certificates of a document are found.
#[tactic(auto, using(crate::proofs::Verdicts::verdict_said))]
fn verdict_on<W: Watcher>(
    alloc: Global,
    doc: &Doc,
    names: &[Vec<String>],
    watcher: &W,
) -> Result<Verdict, AllocError>
    ensures { IfOk result (IsVerdictOn doc.now names.now) }
{
    match certified_text(alloc, doc, MOST_NODES, Effort::Usual, watcher) {
        Ok(text) => Ok(Verdict::Certified(sizes_in(alloc, &text)?)),
        Err(why) => why_not(alloc, doc, names, &why),
    }
}

// Why no certificates were found.
fn why_not(
    alloc: Global,
    doc: &Doc,
    names: &[Vec<String>],
    why: &Uncertified,
) -> Result<Verdict, AllocError>
    requires { HasNone doc.now 1000000 why.now }
    ensures { IfOk result (SaysWhyNot doc.now names.now why.now) }
{
    match why {
        Uncertified::Stuck { table, at } => {
            Ok(Verdict::Stuck(stuck_lines(alloc, doc, names, *table, at)?))
        }
        Uncertified::GaveUp { .. } => Ok(Verdict::Undecided(lines_on(alloc, doc, why)?)),
        Uncertified::Memory => Err(AllocError),
    }
}

// What holds each train in a state, and what is known of runs to it.
fn stuck_lines(
    alloc: Global,
    doc: &Doc,
    names: &[Vec<String>],
    table: u32,
    at: &State,
) -> Result<String, AllocError>
    requires within { table < length doc.now.tables }
    requires legal { Legal (table_at doc.now table) at.now }
    ensures { IfOk result (λ lines. TellsPlaces doc.now names.now table at.now (string_bytes lines)) }
{
    let scene = Scene {
        names: names_of(doc),
        table: table_of(doc, table),
        state: at,
    };
    let words = text_of(alloc, &scene, sections_named(names, table), table)?;
    add_run(alloc, doc, table, at, words)
}

// The document of an input, which lines of a run may follow.
fn document_in(input: &[u8]) -> &[u8]
    ensures { IsDocumentIn input.now result.now }
{
    match cut(input) {
        Some((document, _)) => document,
        None => input,
    }
}

// The remarks on the document of an input, in lines, if there are some.
fn remarks_on(
    alloc: Global,
    input: &[u8],
    names: &[Vec<String>],
) -> Result<Option<String>, AllocError>
    ensures { IfOk result (λ shown. AreRemarksOn input.now (option_map string_bytes shown)) }
{
    let found = lint(alloc, document_in(input), names)?;
    if found.is_empty() {
        return Ok(None);
    }
    Ok(Some(lines_of(alloc, &found)?))
}
