// The rows of a timetable.
ghost use Rattle.std.specs.Prelude.{◌≡◌, IfOk};
ghost use Rattle.run_timetable.specs.Timetable.{beginning, rows_after, rows_in as rows_of_train, wait_of};

use crate::{Run, Step};
use std::alloc::{AllocError, Global};

/// A train at a point of its way, or out of the layout: when it arrives there and when it leaves, in ticks. It doesn't
/// arrive at its first point, and doesn't leave its last one.
#[derive(Clone, Copy)]
pub struct Row {
    pub train: u32,
    pub point: Option<u32>,
    pub arrives: Option<u64>,
    pub leaves: Option<u64>,
}

impl Row {
    /// How long the train waits there, in ticks, if it leaves. At its first point it waits from tick 0 on.
    pub fn wait(&self) -> Option<u64>
        ensures { result ≡ wait_of self.now }
    {
        match (self.leaves, self.arrives) {
            (Some(leaves), Some(arrives)) => Some(leaves.saturating_sub(arrives)),
            (leaves, _) => leaves,
        }
    }
}

/// The rows of a train that begins at a point, in order.
pub fn rows_of(
    alloc: Global,
    steps: &[Step],
    train: u32,
    first: Option<u32>,
) -> Result<Vec<Row>, AllocError>
    ensures { IfOk result (λ rows. rows.items ≡ rows_after train (beginning train first) steps.now) }
{
    let mut rows = Vec::new(alloc);
    let mut row = Row {
        train,
        point: first,
        arrives: None,
        leaves: None,
    };
    for step in steps {
        if step.train == train {
            row.leaves = Some(u64::from(step.tick));
            rows.push(row)?;
            row = Row {
                train,
                point: step.to,
                arrives: Some(step.arrival()),
                leaves: None,
            };
        }
    }
    rows.push(row)?;
    Ok(rows)
}

/// The rows of a train of a run.
pub fn rows_in(alloc: Global, run: &Run, train: u32) -> Result<Vec<Row>, AllocError>
    ensures { IfOk result (λ rows. rows.items ≡ rows_of_train run.now train) }
{
    rows_of(alloc, &run.steps, train, run.start(train))
}
