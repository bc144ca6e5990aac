// Explanations of states and of lines.
ghost use Rattle.std.specs.Prelude.{◌≡◌, IfOk, string_bytes};
ghost use Rattle.planner_run.specs.Answered.{IfText};
ghost use Rattle.planner_run.specs.Explaining.{ExplainsAs, ExplainsPlaces, ExplainsPlacesIn, ExplainsPlacesOf, ExplainsWords, IsToldWithRun, TellsState};

use crate::Answer;
use decimal_number::number_of;
use document_json::{Doc, DocRefused, Kept, document_kept};
use json::Scratch;
use rail_model::State;
use refusal_meanings::no_document_text;
use refusal_sentences::{Explained, explain_line, explain_places, places_of};
use run_sentences::runs_told;
use std::alloc::{AllocError, Global};

pub(crate) const NO_PLACES: &str = "--at takes the place of each train, counted from 0, as 1,0,2\n";

pub(crate) const NO_TABLE: &str = "--table takes a table's number, counted from 0\n";

/// The most states that are searched for a run.
pub(crate) const MOST_STATES: usize = 200_000;

// A fixed line as an answer.
pub(crate) fn wrong(alloc: Global, line: &str) -> Result<Answer, AllocError>
    ensures { IfOk result (IfText (λ text. ⊥)) }
{
    Ok(Answer::Wrong(String::from_str(alloc, line)?))
}

/// What holds each train at these places, under a table of the document that the input is, by the names of the sections of each table; with
/// `run`, also what is known of runs from the start to a legal state.
pub(crate) fn state(
    alloc: Global,
    input: &[u8],
    names: &[Vec<String>],
    table: &str,
    at: &str,
    run: bool,
) -> Result<Answer, AllocError>
    ensures { IfOk result (IfText (ExplainsPlaces input.now names.now table.now at.now run)) }
{
    let Some(table) = number_of(table.as_bytes()) else {
        return wrong(alloc, NO_TABLE);
    };
    let Some(places) = places_of(alloc, at)? else {
        return wrong(alloc, NO_PLACES);
    };
    let mut scratch = Scratch::new(alloc);
    let read = document_kept(alloc, input, &mut scratch);
    state_read(alloc, &read, names, table, places, run)
}

// What holds each train at these places, under a table of a document that was read, if it was.
fn state_read(
    alloc: Global,
    read: &Kept<'_>,
    names: &[Vec<String>],
    table: u32,
    places: Vec<u32>,
    run: bool,
) -> Result<Answer, AllocError>
    ensures { IfOk result (IfText (ExplainsPlacesOf read.now.document names.now table places.items run)) }
{
    match &read.document {
        Ok(doc) => state_in(alloc, doc, names, table, places, run),
        Err(DocRefused::Memory) => Err(AllocError),
        Err(refused) => Ok(Answer::Wrong(no_document_text(alloc, &read.value, refused)?)),
    }
}

// What holds each train at these places, and what is known of runs to them if this is asked for.
fn state_in(
    alloc: Global,
    doc: &Doc,
    names: &[Vec<String>],
    table: u32,
    places: Vec<u32>,
    run: bool,
) -> Result<Answer, AllocError>
    ensures { IfOk result (IfText (ExplainsPlacesIn doc.now names.now table places.items run)) }
{
    let explained = explain_places(alloc, doc, names, table, &places)?;
    with_run(alloc, doc, table, places, run, explained)
}

// The explanation of places, and what is known of runs to them if this is asked for.
fn with_run(
    alloc: Global,
    doc: &Doc,
    table: u32,
    places: Vec<u32>,
    run: bool,
    explained: Explained,
) -> Result<Answer, AllocError>
    ensures { IfOk result (IfText (TellsState doc.now table places.items run explained)) }
{
    match explained {
        Explained::State(text) => if run {
            Ok(Answer::Text(add_run(alloc, doc, table, &State::from(places), text)?.into_bytes()))
        } else {
            Ok(Answer::Text(text.into_bytes()))
        },
        other => Ok(answer_of(other)),
    }
}

/// The text on a state, and behind it what is known of runs to it.
pub(crate) fn add_run(
    alloc: Global,
    doc: &Doc,
    table: u32,
    at: &State,
    mut text: String,
) -> Result<String, AllocError>
    ensures { IfOk result (λ told. IsToldWithRun doc.now table at.now (string_bytes text) (string_bytes told)) }
{
    let run = runs_told(alloc, doc, table, at, MOST_STATES)?;
    text.push_str(run.as_str())?;
    Ok(text)
}

/// What a line of `ats` means for the document that the input is, by the names of the sections of each table.
pub(crate) fn line(
    alloc: Global,
    input: &[u8],
    names: &[Vec<String>],
    line: &str,
) -> Result<Answer, AllocError>
    ensures { IfOk result (IfText (ExplainsWords input.now names.now line.now)) }
{
    Ok(answer_of(explain_line(alloc, input, names, line)?))
}

// An explanation as an answer: what explains nothing says what is wrong.
fn answer_of(explained: Explained) -> Answer
    ensures { IfText (ExplainsAs explained) result }
{
    match explained {
        Explained::State(text) | Explained::Refusal(text) | Explained::NotLegal { text, .. } =>
            Answer::Text(text.into_bytes()),
        Explained::NoTable { text, .. }
        | Explained::NoDocument { text, .. }
        | Explained::NoLine(text) => Answer::Wrong(text),
    }
}
