// A run: its steps and the tables that took over, with their ticks.
ghost use Rattle.std.specs.Prelude.{◌≡◌};
ghost use Rattle.rail_model.specs.Names.{train_name as name_of_train};
ghost use Rattle.run_timetable.specs.Timetable.{arrival, end_of, name_of, start_of, trains_of};

use rail_model::{Layout, Names};

/// A step of a train: when it leaves its point, in ticks, and how long it takes. A step to no point leaves the layout.
#[derive(Clone, Copy)]
pub struct Step {
    pub tick: u32,
    pub train: u32,
    pub from: u32,
    pub to: Option<u32>,
    pub takes: u32,
}

impl Step {
    /// The tick at which the train arrives.
    pub fn arrival(&self) -> u64
        ensures { result ≡ arrival self.now }
    {
        u64::from(self.tick) + u64::from(self.takes)
    }
}

/// A table that took over, and the tick at which it did.
#[derive(Clone, Copy)]
pub struct Takeover {
    pub tick: u32,
    pub table: u32,
}

/// A timed run: the point at which each train begins, all steps, and all tables that took over, in the order of the
/// journal.
#[derive(Drop)]
pub struct Run {
    pub starts: Vec<Option<u32>>,
    pub steps: Vec<Step>,
    pub takeovers: Vec<Takeover>,
}

impl Run {
    /// The number of trains.
    pub fn trains(&self) -> u32
        ensures { result ≡ trains_of self.now.starts.items }
    {
        self.starts.len().min(32) as u32
    }

    /// The point at which a train begins, if there is such a train.
    pub fn start(&self, train: u32) -> Option<u32>
        ensures { result ≡ start_of self.now.starts.items train }
    {
        self.starts.get(train as usize).copied().flatten()
    }

    /// The tick at which the last of all steps ends, or 0 if there is none.
    pub fn end(&self) -> u64
        ensures { result ≡ end_of self.now.steps.items }
    {
        end_of_steps(&self.steps)
    }
}

// The tick at which the last of these steps ends, or 0 if there is none.
fn end_of_steps(steps: &[Step]) -> u64
    ensures { result ≡ end_of steps.now }
{
    steps
        .iter()
        .fold(0, |end: u64, step| end.max(step.arrival()))
}

/// The name of a point, or no letters for a number that no point has.
pub fn point_name(layout: &Layout, point: u32) -> &str
    ensures { result.now ≡ name_of layout.now point }
{
    match layout.points().get(point as usize) {
        Some(point) => point.name(),
        None => "",
    }
}

/// The name of a train, or no letters for a number that no train has.
pub fn train_name(names: &Names, train: u32) -> &str
    ensures { result.now ≡ name_of_train names.now train }
{
    if (train as usize) < names.trains() {
        names.train(train)
    } else {
        ""
    }
}
