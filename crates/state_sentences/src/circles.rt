// Trains that wait for one another in a circle.
ghost use Rattle.std.specs.Prelude.{◌≡◌, ◌<◌, ◌++◌, ℕ, length, slice_index, IfOk, IfSome, OnOk, MatchOption, string_bytes};
ghost use Rattle.rail_model.specs.Table.{trains};
ghost use Rattle.state_sentences.specs.Circle.{waits_for as waits_for_of, BeginsNone, IsCircleFrom, IsCircleOrNone};
ghost use Rattle.state_sentences.specs.Explanation.{pair_words, circle_words};

use crate::Scene;
use rail_model::Ask;
use std::alloc::{AllocError, Global};

// The train at a train's next point, if that is why it can't move.
fn waits_for(scene: &Scene, train: u32) -> Option<u32>
    requires { train < trains scene.now.table.now }
    ensures waits { result ≡ waits_for_of scene.now.table.now scene.now.state.now train }
    ensures within { IfSome result (λ by. by < trains scene.now.table.now) }
{
    match scene.told(train) {
        Ask::Occupied { by } => Some(by),
        _ => None,
    }
}

// The circle that begins with a train, once round, if each train leads on to the one that it waits for, and so back to the first.
fn circle_from(alloc: Global, scene: &Scene, first: u32) -> Result<Option<Vec<u32>>, AllocError>
    requires { first < trains scene.now.table.now }
    ensures { IfOk result (λ found. MatchOption found
        (BeginsNone scene.now.table.now scene.now.state.now first)
        (λ circle. IsCircleFrom scene.now.table.now scene.now.state.now first circle.items)) }
{
    let mut circle = Vec::new(alloc);
    let mut train = first;
    for _ in 0..scene.trains() {
        circle.push(train)?;
        match waits_for(scene, train) {
            None => return Ok(None),
            Some(next) => {
                if next == first {
                    return Ok(Some(circle));
                }
                train = next;
            }
        }
    }
    Ok(None)
}

/// The circle with the least train, beginning with it; empty if there is none.
pub(crate) fn first_circle(alloc: Global, scene: &Scene) -> Result<Vec<u32>, AllocError>
    ensures { IfOk result (λ circle. IsCircleOrNone scene.now.table.now scene.now.state.now circle.items) }
{
    for first in 0..scene.trains() {
        let found = circle_from(alloc, scene, first)?;
        match found {
            Some(circle) => return Ok(circle),
            None => {}
        }
    }
    Ok(Vec::new(alloc))
}

// Adds a train of a circle, and the one that it waits for.
fn write_wait(out: &mut String, scene: &Scene, train: u32) -> Result<(), AllocError>
    requires { train < trains scene.now.table.now }
    ensures { OnOk result (string_bytes out.new ≡ string_bytes out.old
        ++ pair_words scene.now.names.now train (waits_for_of scene.now.table.now scene.now.state.now train)) }
{
    let name = scene.train(train);
    match waits_for(scene, train) {
        Some(by) => {
            let by = scene.train(by);
            write!(out, " {name} waits for {by}.")
        }
        None => Ok(()),
    }
}

/// Adds the trains of a circle, each with the one that it waits for; nothing if there is none.
pub(crate) fn write_circle(
    out: &mut String,
    scene: &Scene,
    circle: &[u32],
) -> Result<(), AllocError>
    requires { (k : ℕ) → k < length circle.now → slice_index circle.now k < trains scene.now.table.now }
    ensures { OnOk result (string_bytes out.new ≡ string_bytes out.old
        ++ circle_words scene.now.names.now scene.now.table.now scene.now.state.now circle.now) }
{
    if circle.is_empty() {
        return Ok(());
    }
    out.push_str("A circle:")?;
    for train in circle {
        write_wait(out, scene, *train)?;
    }
    out.push_str("\n")
}
