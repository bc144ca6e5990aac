// Pictures of layouts.
ghost use Rattle.std.specs.Prelude.{◌≡◌, IfOk};
ghost use Rattle.planner_run.specs.Answered.{IfText, IsLayoutText, IsLayoutOf, IsWrong};
ghost use Rattle.planner_run.specs.Drawn.{IsLayoutAt};
ghost use Rattle.planner_run.specs.Certifying.{refused_line};

use crate::Answer;
use crate::explaining::{NO_PLACES, NO_TABLE, wrong};
use decimal_number::number_of;
use document_json::{Doc, DocRefused, document, start_of};
use layout_picture::{Drawn, layout_picture};
use rail_model::State;
use refusal_lines::push_document;
use refusal_sentences::{places_of, sections_named};
use std::alloc::{AllocError, Global};
use svg_text::text;

/// The layout of a document, with the sections of a table, by the names of the sections of each, and the trains at these places or at the start.
pub(crate) fn layout(
    alloc: Global,
    input: &[u8],
    names: &[Vec<String>],
    table: &str,
    at: Option<&str>,
) -> Result<Answer, AllocError>
    ensures { IfOk result (IfText (IsLayoutText input.now names.now table.now at.entry)) }
{
    let Some(table) = number_of(table.as_bytes()) else {
        return wrong(alloc, NO_TABLE);
    };
    match document(alloc, input) {
        Ok(doc) => layout_at(alloc, &doc, names, table, at),
        Err(DocRefused::Memory) => Err(AllocError),
        Err(refused) => refusal(alloc, &refused),
    }
}

// The layout with the trains at these places or at the start.
fn layout_at(
    alloc: Global,
    doc: &Doc,
    names: &[Vec<String>],
    table: u32,
    at: Option<&str>,
) -> Result<Answer, AllocError>
    ensures { IfOk result (IfText (IsLayoutOf doc.now names.now table at.entry)) }
{
    let Some(words) = at else {
        return picture_of(alloc, doc, names, table, start_of(doc));
    };
    match places_of(alloc, words)? {
        Some(places) => picture_of(alloc, doc, names, table, &State::from(places)),
        None => wrong(alloc, NO_PLACES),
    }
}

/// The layout with the trains in a state.
pub(crate) fn picture_of(
    alloc: Global,
    doc: &Doc,
    names: &[Vec<String>],
    table: u32,
    state: &State,
) -> Result<Answer, AllocError>
    ensures { IfOk result (IfText (IsLayoutAt doc.now names.now table state.now)) }
{
    let sections = sections_named(names, table);
    match layout_picture(alloc, doc, sections, table, state)? {
        Drawn::Picture { picture } => Ok(Answer::Text(text(alloc, &picture)?)),
        Drawn::Refused { words } => {
            let mut line = words;
            line.push_str("\n")?;
            Ok(Answer::Wrong(line))
        }
    }
}

/// That the input is no document.
pub(crate) fn refusal(alloc: Global, refused: &DocRefused) -> Result<Answer, AllocError>
    ensures none { IfOk result (IfText (λ text. ⊥)) }
    ensures wrong { IfOk result (IsWrong (refused_line refused.now)) }
{
    let mut line = String::from_str(alloc, "ats refuses the document: ")?;
    push_document(&mut line, refused)?;
    line.push_str("\n")?;
    Ok(Answer::Wrong(line))
}
