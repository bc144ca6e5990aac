// Rows of text played: words, with `|` between them; an input; after a line `----` the answer, or how many nodes
// its certificate has at most. Rows are parted by a line `====`.
use crate::planner_certificates::CERTIFIED;
use crate::planner_documents::DOCUMENTS;
use crate::planner_entries::ENTERED;
use crate::planner_orders::ORDERED;
use crate::planner_plans::PLANS;
use crate::planner_runs::RUNS;
use planner_run::{Answer, PlanFile, Silent, answer_to};
use planner_words::words;
use std::alloc::{AllocError, Global};
use std::str::from_utf8;

// Words, with `|` between them.
fn parts(alloc: Global, line: &str) -> Result<Vec<String>, AllocError> {
    let mut parts = Vec::new(alloc);
    for word in line.split('|') {
        parts.push(String::from_str(alloc, word)?)?;
    }
    Ok(parts)
}

// What words are answered on an input, with a plan in a file beside it or without.
fn answer_of(
    alloc: Global,
    line: &[String],
    plan: Option<&PlanFile<'_>>,
    input: &str,
) -> Option<Answer> {
    let Ok(order) = words(alloc, line) else {
        return None;
    };
    match answer_to(alloc, &order, input.as_bytes(), None, plan, &Silent) {
        Ok(answer) => Some(answer),
        Err(_) => None,
    }
}

// How many nodes a document's first certificate has.
fn nodes_of(document: &str) -> Option<usize> {
    let (_, rest) = document.split_once(r##""certificate":["##)?;
    let (nodes, _) = rest.split_once("]]")?;
    Some(nodes.split("],[").count())
}

// Whether a text is what a row says.
fn is_text(text: &str, says: &str) -> bool {
    match says.strip_prefix("its certificate's nodes are at most ") {
        Some(most) =>
            matches!((nodes_of(text), most.parse::<usize>()), (Some(count), Ok(most)) if count <= most),
        None => match says.strip_prefix("a text with ") {
            Some(part) => text.contains(part),
            None => text.trim_end() == says,
        },
    }
}

// Whether an answer is what a row says: the text, or lines, or a text with notes on it, if there are any.
fn is_said(answer: &Answer, says: &str) -> bool {
    match answer {
        Answer::Text(text) => is_text(from_utf8(text).unwrap_or("no text"), says),
        Answer::Noted(text, lines) => {
            let text = from_utf8(text).unwrap_or("no text");
            if lines.is_empty() {
                is_text(text, says)
            } else {
                matches!(says.strip_prefix(text), Some(notes) if notes == lines.trim_end())
            }
        }
        Answer::Remarks(lines) => lines.trim_end() == says,
        Answer::Wrong(lines) => lines.trim_end() == says,
    }
}

/// Whether words are answered so on an input.
pub(crate) fn is_answered(alloc: Global, line: &str, input: &str, says: &str) -> bool {
    is_answered_beside(alloc, line, None, input, says)
}

/// Whether words are answered so on an input, with a plan in a file beside it or without.
pub(crate) fn is_answered_beside(
    alloc: Global,
    line: &str,
    plan: Option<&PlanFile<'_>>,
    input: &str,
    says: &str,
) -> bool {
    let Ok(line) = parts(alloc, line) else {
        return false;
    };
    match answer_of(alloc, &line, plan, input) {
        Some(answer) => is_said(&answer, says.trim()),
        None => false,
    }
}

// Whether a row's words are answered as it says.
fn is_right(alloc: Global, row: &str) -> bool {
    let (line, rest) = row.split_once("\n").unwrap_or((row, ""));
    let (input, says) = rest.split_once("----").unwrap_or((rest, "an answer"));
    is_answered(alloc, line, input, says)
}

#[test]
fn inputs_are_answered_as_their_rows_say(rt: HostRuntime) {
    for rows in [PLANS, DOCUMENTS, RUNS, CERTIFIED, ORDERED, ENTERED] {
        for row in rows.split("\n====\n") {
            assert!(rt; is_right(rt.alloc(), row), "{row}");
        }
    }
}
