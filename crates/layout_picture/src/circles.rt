// Trains that wait for one another in a circle.
ghost use Rattle.std.specs.Prelude.{◌≡◌, ◌<◌, IfSome, Decides};
ghost use Rattle.rail_model.specs.Table.{trains};
ghost use Rattle.state_sentences.specs.Circle.{waits_for as waits_for_of};
ghost use Rattle.layout_picture.specs.Red.{IsInCircle};

use rail_model::Ask;
use state_core::Group;
use state_sentences::Scene;
use std::alloc::{AllocError, Global};

/// The train at a train's next point, if that is why it may not move.
pub(crate) fn waits_for(scene: &Scene, train: u32) -> Option<u32>
    requires { train < trains scene.now.table.now }
    ensures waits { result ≡ waits_for_of scene.now.table.now scene.now.state.now train }
    ensures within { IfSome result (λ by. by < trains scene.now.table.now) }
{
    match scene.told(train) {
        Ask::Occupied { by } => Some(by),
        _ => None,
    }
}

/// Whether a train waits for one that waits for another, and so on back to it.
pub(crate) fn is_in_circle(scene: &Scene, train: u32) -> bool
    requires { train < trains scene.now.table.now }
    ensures { Decides result (IsInCircle scene.now.table.now scene.now.state.now train) }
{
    let mut last = train;
    for _ in 0..scene.trains() {
        match waits_for(scene, last) {
            Some(by) => last = by,
            None => return false,
        }
        if last == train {
            return true;
        }
    }
    false
}

/// The trains that are in a circle.
pub(crate) fn circles_of(alloc: Global, scene: &Scene) -> Result<Group, AllocError> {
    let mut trains = Vec::new(alloc);
    for train in 0..scene.trains() {
        if is_in_circle(scene, train) {
            trains.push(train)?;
        }
    }
    Ok(Group::from(trains))
}
