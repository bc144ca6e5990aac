// The trains that a train waits for, directly or through others.
ghost use Rattle.std.specs.Prelude.{◌≡◌, ◌<◌, All, IfOk};
ghost use Rattle.rail_model.specs.Table.{trains};
ghost use Rattle.live_answers.specs.Seen.{AreTold};
ghost use Rattle.live_answers.specs.Waiting.{AreAwaited, Joins};

use crate::{Scene, in_the_way};
use live_yard::{Told, WantQueue};
use std::alloc::{AllocError, Global};

// Lets trains stand in a row, each after those that stood there before.
fn join(row: &mut WantQueue, by: &[u32])
    requires { All (λ j. j < row.old.trains) by.now }
    ensures trains { row.new.trains ≡ row.old.trains }
    ensures joined { Joins row.old.wants by.now row.new.wants }
{
    for train in by {
        row.stand(*train);
    }
}

/// A train, and then each train that an earlier one waits for.
pub fn awaited(
    alloc: Global,
    scene: &Scene<'_>,
    tolds: &[Told],
    train: u32,
) -> Result<WantQueue, AllocError>
    requires train { train < trains scene.now.table }
    requires told { AreTold scene.now tolds.now }
    ensures { IfOk result (λ row. AreAwaited scene.now tolds.now train row.wants) }
{
    let mut row = WantQueue::new(alloc, scene.trains())?;
    row.stand(train);
    let mut next = 0;
    while next < row.len() {
        let waiting = row.as_slice()[next];
        let by = in_the_way(alloc, scene, waiting, tolds[waiting as usize])?;
        join(&mut row, &by);
        next += 1;
    }
    Ok(row)
}
