// The ticks that a simulation keeps.
ghost use Rattle.std.specs.Prelude.{◌≡◌, ℕ, ◌+◌, ◌<◌, ◌≤◌, ◌^◌, ◌∷◌, ◌++◌, [], length, max, slice_index, IfOk};
ghost use Rattle.plain_yard.specs.Lines.{most_lines};
ghost use Rattle.train_sim.specs.Steps.{begun, noted, not_before, Grants};

use plain_yard::MOST_LINES;
use std::alloc::{AllocError, Global};
use std::marker::Model;

/// When each train asks next, the tick of the last move, or 0, and one tick per line, with room for the ticks of all
/// lines that a run can have.
#[derive(Drop)]
pub(crate) struct Watch {
    due: Vec<u32>,
    last: u32,
    ticks: Vec<u32>,
}

impl Model for Watch {
    ghost use Rattle.std.specs.Prelude.{◌≤◌, vec_capacity};
    ghost use Rattle.plain_yard.specs.Lines.{most_lines};
    ghost use Rattle.train_sim.specs.Steps.{Watched};

    ghost Value = { Watched };

    ghost view = { λ w. record { due = w.due.items; last = w.last; ticks = w.ticks.items } };

    ghost invariant = { λ w. most_lines ≤ vec_capacity w.ticks };
}

// The trains that asked in vain until one asks at its due tick, and now again, are due after that.
fn put_off(due: &mut [u32], train: u32, tick: u32)
    requires { tick < 2 ^ 31 }
    ensures { (j : ℕ) → j < length due.old → slice_index due.new j ≡ max (slice_index due.old j) (not_before train tick j) }
{
    for (other, due) in due.iter_mut().enumerate() {
        let next = if other < train as usize {
            tick + 1
        } else {
            tick
        };
        *due = (*due).max(next);
    }
}

impl Watch {
    /// Tick 0, at which all trains are due; lines from before have it too.
    pub(crate) fn begin(alloc: Global, trains: usize, lines: usize) -> Result<Watch, AllocError>
        ensures { IfOk result (λ watch. watch ≡ begun trains lines) }
    {
        let due = vec![in alloc; 0u32; trains]?;
        let mut ticks = vec![in alloc; 0u32; lines]?;
        ticks.reserve(MOST_LINES.saturating_sub(lines))?;
        Ok(Watch {
            due,
            last: 0,
            ticks,
        })
    }

    /// The tick at which each train asks next.
    pub(crate) fn due(&self) -> &[u32]
        ensures { result.now ≡ self.now.due }
    {
        &self.due
    }

    // Notes the tick of a line.
    fn push_tick(&mut self, tick: u32)
        requires { length self.old.ticks < most_lines }
        ensures { self.new ≡ record self.old { ticks = self.old.ticks ++ tick ∷ [] } }
    {
        self.ticks.push_reserved(tick);
    }

    /// A table has its answer, at the tick of the move that made it due.
    pub(crate) fn note_table(&mut self)
        requires { length self.old.ticks < most_lines }
        ensures { self.new ≡ noted self.old }
    {
        self.push_tick(self.last);
    }

    /// A train moves at its due tick, and asks again after the time that its step takes.
    pub(crate) fn grant(&mut self, train: u32, takes: u32)
        requires train { train < length self.old.due }
        requires low { slice_index self.old.due train < 2 ^ 31 }
        requires short { takes < 2 ^ 31 }
        requires room { length self.old.ticks < most_lines }
        ensures { Grants self.old train takes self.new }
    {
        let tick = self.due[train as usize];
        put_off(&mut self.due, train, tick);
        self.due[train as usize] = tick + takes;
        self.last = tick;
        self.push_tick(tick);
    }

    /// The ticks of the lines, and the tick of the last move.
    pub(crate) fn into_parts(self) -> (Vec<u32>, u32)
        ensures ticks { result.0.items ≡ self.ticks }
        ensures last { result.1 ≡ self.last }
    {
        (self.ticks, self.last)
    }
}
