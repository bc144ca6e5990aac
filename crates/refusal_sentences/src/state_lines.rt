// The lines that name a state: one that is stuck, or the one that was next when the rounds were spent.
ghost use Rattle.std.specs.Prelude.{◌≡◌, IsTrue, IfOk, IfSome};
ghost use Rattle.refusal_lines.specs.Makers.{stuck_words, rounds_words};
ghost use Rattle.refusal_sentences.specs.StateLines.{NamesState};

use crate::places_of;
use decimal_number::number_of;
use rail_model::State;
use refusal_lines::{push_rounds, push_stuck};
use std::alloc::{AllocError, Global};

/// A table, and a place for each train.
#[derive(Drop)]
pub(crate) struct Positions {
    pub table: u32,
    pub state: State,
}

// The number between two texts, or at the end after the first one.
fn number_after(words: &str, front: &str) -> Option<u32> {
    let (_before, behind) = words.split_once(front)?;
    match behind.split_once(' ') {
        Some((number, _later)) => number_of(number.as_bytes()),
        None => number_of(behind.as_bytes()),
    }
}

// The table and the places of a line that may name a state.
fn positions_of(alloc: Global, words: &str) -> Result<Option<Positions>, AllocError> {
    let Some((front, places)) = words.split_once(" at=") else {
        return Ok(None);
    };
    let Some(table) = number_after(front, " table=") else {
        return Ok(None);
    };
    match places_of(alloc, places)? {
        Some(places) => Ok(Some(Positions {
            table,
            state: State::from(places),
        })),
        None => Ok(None),
    }
}

// Whether the words are those of a table that is stuck in a state.
fn is_stuck(alloc: Global, words: &str, table: u32, state: &State) -> Result<bool, AllocError>
    ensures { IfOk result (λ is. IsTrue is → words.now ≡ stuck_words table state.now) }
{
    let mut line = String::new(alloc);
    push_stuck(&mut line, table, state)?;
    Ok(line.as_str() == words)
}

// Whether the words are those of a table whose rounds were spent before a state.
fn is_spent(
    alloc: Global,
    words: &str,
    table: u32,
    rounds: u32,
    state: &State,
) -> Result<bool, AllocError>
    ensures { IfOk result (λ is. IsTrue is → words.now ≡ rounds_words table rounds state.now) }
{
    let mut line = String::new(alloc);
    push_rounds(&mut line, table, rounds, state)?;
    Ok(line.as_str() == words)
}

// Whether the words are a line that names these positions.
fn is_line_of(alloc: Global, words: &str, at: &Positions) -> Result<bool, AllocError>
    ensures { IfOk result (λ is. IsTrue is → NamesState words.now at.now.table at.now.state) }
{
    match number_after(words, " rounds=") {
        Some(rounds) => is_spent(alloc, words, at.table, rounds, &at.state),
        None => is_stuck(alloc, words, at.table, &at.state),
    }
}

/// The state that a line names, if it names one.
pub(crate) fn state_of(alloc: Global, words: &str) -> Result<Option<Positions>, AllocError>
    ensures { IfOk result (λ found. IfSome found (λ at. NamesState words.now at.table at.state)) }
{
    let Some(at) = positions_of(alloc, words)? else {
        return Ok(None);
    };
    if is_line_of(alloc, words, &at)? {
        Ok(Some(at))
    } else {
        Ok(None)
    }
}
