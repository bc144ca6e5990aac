// When the trains of a run came to their places, and what that says of two of them.
use crate::grid::set;
use crate::search::{PLACES, Two, last_in, point_in};
use rail_model::{Line, State, Table};
use std::alloc::{AllocError, Global};

// No line of a run.
const NEVER: u32 = u32::MAX;

/// For each train, the lines of a run by which it came to its places, 128 of each train. To those up to its start it came before the first
/// line.
#[derive(Drop)]
pub(crate) struct Visits {
    lines: Vec<u32>,
}

// The number of a train's place in such a list.
fn number_of(train: u32, place: u32) -> usize {
    train as usize * 128 + place as usize
}

// Notes by which line a train comes to its next place.
fn note(lines: &mut [u32], train: u32, line: u32) {
    for place in 0..PLACES {
        if let Some(reached) = lines.get_mut(number_of(train, place)) {
            if *reached == NEVER {
                *reached = line;
                return;
            }
        }
    }
}

// Notes that a train comes to the places up to its start before the first line.
fn note_start(lines: &mut [u32], train: u32, place: u32) {
    for _ in 0..=place {
        note(lines, train, 0);
    }
}

impl Visits {
    /// The visits of a run from a start.
    pub(crate) fn new(alloc: Global, start: &State, run: &[Line]) -> Result<Visits, AllocError> {
        let trains = start.as_slice().len();
        let mut lines = vec![in alloc; NEVER; trains.saturating_mul(128)]?;
        let mut train: u32 = 0;
        for place in start.as_slice() {
            note_start(&mut lines, train, *place);
            train = train.saturating_add(1);
        }
        let mut number: u32 = 0;
        for line in run {
            number = number.saturating_add(1);
            if let Line::Move { train, .. } = *line {
                note(&mut lines, train, number);
            }
        }
        Ok(Visits { lines })
    }

    // The line by which a train came to a place.
    fn reached(&self, train: u32, place: u32) -> u32 {
        if place < PLACES {
            let number = number_of(train, place);
            self.lines.get(number).copied().unwrap_or(NEVER)
        } else {
            NEVER
        }
    }

    // How far a train had to be before another one came to this point by this line: past its last place there that it had left by then.
    fn need_at(&self, table: &Table, train: u32, point: u32, reached: u32) -> u32 {
        let mut need: u32 = 0;
        for place in 0..=last_in(table, train) {
            let next = place.saturating_add(1);
            let left = self.reached(train, next);
            if left <= reached && left != NEVER && point_in(table, train, place) == Some(point) {
                need = next;
            }
        }
        need
    }
}

// Takes out the pairs of a place with those of a train that aren't as far as is needed.
fn close_before(cells: &mut [bool], need: u32, place: u32, is_turned: bool) {
    for before in 0..need {
        if is_turned {
            set(cells, place, before, false);
        } else {
            set(cells, before, place, false);
        }
    }
}

/// Takes out the pairs in which the first of two trains isn't as far as it was in a run when the other came to its place, or to one before.
/// Turned, the pairs have the second train's place first.
pub(crate) fn close_early(
    cells: &mut [bool],
    table: &Table,
    visits: &Visits,
    trains: Two,
    is_turned: bool,
) {
    let mut need: u32 = 0;
    for place in 0..=last_in(table, trains.second) {
        if let Some(point) = point_in(table, trains.second, place) {
            let reached = visits.reached(trains.second, place);
            need = need.max(visits.need_at(table, trains.first, point, reached));
        }
        close_before(cells, need, place, is_turned);
    }
}
