// An index of the journal: how each train came to each place that it has reached.
ghost use Rattle.std.specs.Prelude.{◌≡◌, ℕ, ◌+◌, ◌*◌, ◌<◌, ◌≤◌, ◌^◌, get_or, length, slice_set, IfOk};
ghost use Rattle.rail_model.specs.Table.{place as place_in};
ghost use Rattle.live_yard.specs.declared.granted_lines.Passed.TheVariants.{Begun, Granted};
ghost use Rattle.live_yard.specs.PassedPlaces.{ArePassed, IsRow, KeepsOtherRows};

use crate::Passed;
use crate::granted_lines::is_move_of;
use rail_model::{Line, State};
use std::alloc::{AllocError, Global};

// The length of a train's row: no train has more places.
const ROW: usize = 128;

/// How each train came to each place that it has reached: a row for each train. Takes memory only when it is made.
#[derive(Drop)]
pub(crate) struct PassedPlaces {
    ways: Vec<Passed>,
}

// The places up to the one where a train began have that.
fn begin_row(ways: &mut [Passed], train: u32, start: u32)
    requires row { train * 128 + 128 ≤ length ways.old }
    requires place { start < 128 }
    ensures begun { (k : ℕ) → k ≤ start → get_or ways.new (train * 128 + k) (Begun 0) ≡ Begun start }
    ensures later { (k : ℕ) → start < k → k < 128
        → get_or ways.new (train * 128 + k) (Begun 0) ≡ get_or ways.old (train * 128 + k) (Begun 0) }
    ensures others { KeepsOtherRows ways.old train ways.new }
{
    for place in 0..start + 1 {
        ways[train as usize * ROW + place as usize] = Passed::Begun { start };
    }
}

// Fills the row of a train by the lines, from the last to the first.
fn fill_row(ways: &mut [Passed], lines: &[Line], train: u32, now: u32)
    requires few { length lines.now < 2 ^ 31 }
    requires row { train * 128 + 128 ≤ length ways.old }
    requires place { now < 128 }
    ensures row { IsRow lines.now now train ways.new }
    ensures others { KeepsOtherRows ways.old train ways.new }
{
    let mut at = now;
    let mut left = lines.len();
    while 0 < left {
        if is_move_of(lines[left - 1], train) {
            ways[train as usize * ROW + at as usize] = Passed::Granted { line: left as u32 };
            if at == 0 {
                return;
            }
            at -= 1;
        }
        left -= 1;
    }
    begin_row(ways, train, at);
}

impl PassedPlaces {
    /// The index of lines after which the trains are at these places.
    ///
    /// # Errors
    ///
    /// Out of memory.
    pub(crate) fn of_lines(
        alloc: Global,
        trains: u32,
        lines: &[Line],
        positions: &State,
    ) -> Result<Self, AllocError>
        requires few { length lines.now < 2 ^ 31 }
        requires trains { trains ≡ length positions.now }
        requires places { (i : ℕ) → i < trains → place_in positions.now i < 128 }
        ensures { IfOk result (λ places. ArePassed lines.now positions.now places.ways.items) }
    {
        let mut ways = Vec::from_elem(alloc, Passed::Begun { start: 0 }, trains as usize * ROW)?;
        for train in 0..trains {
            fill_row(&mut ways, lines, train, positions.place(train));
        }
        Ok(PassedPlaces { ways })
    }

    /// How a train came to a place.
    pub(crate) fn way(&self, train: u32, place: u32) -> Passed
        requires { train * 128 + place < length self.now.ways.items }
        ensures { result ≡ get_or self.now.ways.items (train * 128 + place) (Begun 0) }
    {
        self.ways[train as usize * ROW + place as usize]
    }

    /// A train was granted a place by a line.
    pub(crate) fn grant(&mut self, train: u32, place: u32, line: u32)
        requires { train * 128 + place < length self.old.ways.items }
        ensures { self.new.ways.items ≡ slice_set self.old.ways.items (train * 128 + place) (Granted line) }
    {
        self.ways[train as usize * ROW + place as usize] = Passed::Granted { line };
    }
}
