// The trains that stand in the way of a train.
ghost use Rattle.std.specs.Prelude.{◌≡◌, ◌<◌, All, IfOk, Some, length, slice_get};
ghost use Rattle.rail_model.specs.Table.{trains};
ghost use Rattle.live_answers.specs.Seen.{IsTold};
ghost use Rattle.live_answers.specs.Causes as spec;

use crate::Scene;
use live_yard::Told;
use rail_model::{Connection, connection_of, share_at};
use state_boxes::{Span, greatest_share};
use std::alloc::{AllocError, Global};

// Whether a train counts in a section; with `still`, with more than where it is, since it hasn't reported that it is
// out of it.
fn counts(scene: &Scene<'_>, section: u32, still: bool, train: u32) -> bool
    requires section { section < length scene.now.table.sections }
    requires train { train < trains scene.now.table }
    ensures { result ≡ spec.counting scene.now section still train }
{
    let place = scene.place(train);
    let share = share_at(scene.table(), train, section, place);
    if still {
        let span = Span::new(scene.reported(train), place);
        share < greatest_share(scene.table(), train, section, span)
    } else {
        0 < share
    }
}

// The trains that count in a section; with `still`, those that count there with more than where they are.
fn counted(
    alloc: Global,
    scene: &Scene<'_>,
    section: u32,
    still: bool,
) -> Result<Vec<u32>, AllocError>
    requires { section < length scene.now.table.sections }
    ensures { IfOk result (λ by. by.items ≡ spec.chosen (spec.counting scene.now section still)
        (trains scene.now.table)) }
{
    let mut by = Vec::new(alloc);
    for train in 0..scene.trains() {
        if counts(scene, section, still, train) {
            by.push(train)?;
        }
    }
    Ok(by)
}

/// The connection of this number.
pub fn connection(scene: &Scene<'_>, number: u32) -> Connection
    requires { number < length scene.now.table.connections }
    ensures held { slice_get scene.now.table.connections number ≡ Some result }
    ensures other { result.other < trains scene.now.table }
{
    connection_of(scene.table(), number)
}

/// The trains that a train waits for that was told this.
pub fn in_the_way(
    alloc: Global,
    scene: &Scene<'_>,
    train: u32,
    told: Told,
) -> Result<Vec<u32>, AllocError>
    requires { IsTold scene.now train told }
    ensures by { IfOk result (λ by. by.items ≡ spec.in_the_way scene.now told) }
    ensures below { IfOk result (λ by. All (λ j. j < trains scene.now.table) by.items) }
{
    match told {
        Told::May | Told::Arrived | Told::Away => Ok(Vec::new(alloc)),
        Told::Occupied { by } | Told::Leaving { by } => Vec::from_slice(alloc, &[by]),
        Told::Waits { connection: number } => {
            Vec::from_slice(alloc, &[connection(scene, number).other()])
        }
        Told::Full { section, .. } => counted(alloc, scene, section, false),
        Told::Clearing { section, .. } => counted(alloc, scene, section, true),
    }
}
