// Documents with guards.
ghost use Rattle.std.specs.Prelude.{◌≡◌, IfOk, Ok};
ghost use Rattle.document_protection.specs.Protected.{HasNone};
ghost use Rattle.document_json.specs.Reading.{doc_of};
ghost use Rattle.planner_run.specs.Answered.{IsProtecting, IsWrong};
ghost use Rattle.document_protection.specs.Words.{unprotected_words};

use crate::Answer;
use crate::certifying::searches_of;
use crate::drawing::refusal;
use cert_search::Watcher;
use document_json::{Doc, DocRefused, document};
use document_protection::{Unprotected, lines_of, lines_of_why, protected};
use planner_words::Effort;
use section_protect::{Finder, Searching};
use std::alloc::{AllocError, Global};

/// The document that the input is, with at most `rounds` guards behind the sections of each table, and with
/// certificates that are found by search, of at most `budget` nodes each.
#[tactic(auto, using(crate::proofs::Protected::refused_guards))]
pub(crate) fn protect<W: Watcher>(
    alloc: Global,
    input: &[u8],
    budget: u32,
    effort: Effort,
    rounds: u32,
    watcher: &W,
) -> Result<Answer, AllocError>
    ensures { IfOk result (IsProtecting input.now) }
{
    let searching = Searching {
        budget,
        effort: searches_of(effort),
        watcher,
    };
    match document(alloc, input) {
        Ok(doc) => with_guards(alloc, input, &doc, &searching, rounds),
        Err(DocRefused::Memory) => Err(AllocError),
        Err(refused) => refusal(alloc, &refused),
    }
}

// The document with its guards, and a line for each.
#[tactic(auto, using(crate::proofs::Protected::protected_answers, crate::proofs::Protected::unprotected_answers))]
fn with_guards<F: Finder>(
    alloc: Global,
    input: &[u8],
    doc: &Doc,
    finder: &F,
    rounds: u32,
) -> Result<Answer, AllocError>
    requires read { doc_of input.now ≡ Ok doc.now }
    ensures { IfOk result (IsProtecting input.now) }
{
    match protected(alloc, doc, finder, rounds) {
        Ok(made) => {
            let lines = lines_of(alloc, doc, &made)?;
            Ok(Answer::Noted(made.text, lines))
        }
        Err(Unprotected::Memory) => Err(AllocError),
        Err(why) => unprotected(alloc, doc, &why),
    }
}

// The lines that say why a document isn't protected.
fn unprotected(alloc: Global, doc: &Doc, why: &Unprotected) -> Result<Answer, AllocError>
    requires { HasNone doc.now why.now }
    ensures { IfOk result (IsWrong (unprotected_words doc.now why.now)) }
{
    Ok(Answer::Wrong(lines_of_why(alloc, doc, why)?))
}
