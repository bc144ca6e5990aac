// Certificates that are found by search.
ghost use Rattle.std.specs.Prelude.{◌≡◌, ◌++◌, IfOk, Ok, Err, OnOk, codes, string_bytes};
ghost use Rattle.document_certificates.specs.Certified.{HasNone};
ghost use Rattle.document_json.specs.Reading.{doc_of};
ghost use Rattle.planner_run.specs.Answered.{IsCertifying};
ghost use Rattle.planner_run.specs.Certifying.{SaysWhy, TellsStuck, gave_up_words};

use crate::Answer;
use crate::drawing::refusal;
use crate::explaining::MOST_STATES;
use cert_search::{Effort as Searches, Watcher};
use document_certificates::{Uncertified, certified_text};
use document_json::{Doc, DocRefused, document};
use planner_words::Effort;
use rail_model::State;
use refusal_lines::push_stuck;
use run_sentences::runs_told;
use std::alloc::{AllocError, Global};

/// The document that the input is, with certificates that are found by search, of at most `budget` nodes each.
#[tactic(auto, using(crate::proofs::Certified::refused_answers))]
pub(crate) fn certify<W: Watcher>(
    alloc: Global,
    input: &[u8],
    budget: u32,
    effort: Effort,
    watcher: &W,
) -> Result<Answer, AllocError>
    ensures { IfOk result (IsCertifying input.now budget) }
{
    match document(alloc, input) {
        Ok(doc) => certified(alloc, input, &doc, budget, effort, watcher),
        Err(DocRefused::Memory) => Err(AllocError),
        Err(refused) => refusal(alloc, &refused),
    }
}

// The ways of searching that an effort stands for.
pub(crate) fn searches_of(effort: Effort) -> Searches {
    match effort {
        Effort::Small => Searches::Small,
        Effort::Usual => Searches::Usual,
        Effort::Great => Searches::Great,
    }
}

// The document with its certificates.
#[tactic(auto, using(crate::proofs::Certified::certified_answers, crate::proofs::Certified::uncertified_answers))]
fn certified<W: Watcher>(
    alloc: Global,
    input: &[u8],
    doc: &Doc,
    budget: u32,
    effort: Effort,
    watcher: &W,
) -> Result<Answer, AllocError>
    requires read { doc_of input.now ≡ Ok doc.now }
    ensures { IfOk result (IsCertifying input.now budget) }
{
    match certified_text(alloc, doc, budget, searches_of(effort), watcher) {
        Ok(text) => Ok(Answer::Text(text)),
        Err(Uncertified::Memory) => Err(AllocError),
        Err(why) => Ok(Answer::Wrong(lines_on(alloc, doc, &why)?)),
    }
}

/// The lines that say why a document gets no certificates.
pub(crate) fn lines_on(alloc: Global, doc: &Doc, why: &Uncertified) -> Result<String, AllocError>
    ensures { IfOk result (λ lines. SaysWhy doc.now why.now (string_bytes lines)) }
{
    match why {
        Uncertified::Stuck { table, at } => stuck(alloc, doc, *table, at),
        Uncertified::GaveUp { table, nodes } => {
            let mut line = String::new(alloc);
            push_gave_up(&mut line, *table, *nodes)?;
            line.push_str("\n")?;
            Ok(line)
        }
        Uncertified::Memory => Err(AllocError),
    }
}

// The lines that name a stuck state, and tell what is known of runs to it.
fn stuck(alloc: Global, doc: &Doc, table: u32, at: &State) -> Result<String, AllocError>
    ensures { IfOk result (λ lines. TellsStuck doc.now table at.now (string_bytes lines)) }
{
    let mut lines = String::new(alloc);
    push_stuck(&mut lines, table, at)?;
    lines.push_str("\n")?;
    let run = runs_told(alloc, doc, table, at, MOST_STATES)?;
    lines.push_str(run.as_str())?;
    Ok(lines)
}

// Adds that no certificate of a table was found.
fn push_gave_up(out: &mut String, table: u32, nodes: u32) -> Result<(), AllocError>
    ensures { OnOk result (string_bytes out.new ≡ string_bytes out.old ++ gave_up_words table nodes) }
{
    write!(
        out,
        "table {table}: gave up after {nodes} nodes; whether it has a certificate isn't known"
    )
}
