// What each train is told.
ghost use Rattle.std.specs.Prelude.{◌≤◌, IfOk, length};
ghost use Rattle.live_answers.specs.Seen.{AreTold};

use crate::Scene;
use live_yard::Told;
use std::alloc::{AllocError, Global};

/// What each train is told that asks for its next place.
pub fn tolds_of(alloc: Global, scene: &Scene<'_>) -> Result<Vec<Told>, AllocError>
    ensures told { IfOk result (λ tolds. AreTold scene.now tolds.items) }
    ensures few { IfOk result (λ tolds. length tolds.items ≤ 32) }
{
    let mut tolds = Vec::new(alloc);
    for train in 0..scene.trains() {
        tolds.push(scene.told(train))?;
    }
    Ok(tolds)
}
