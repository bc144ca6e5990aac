// Red trains: those of circles, and those of a knot.
ghost use Rattle.std.specs.Prelude.{◌≡◌, ◌<◌, [], Decides, IfOk};
ghost use Rattle.rail_model.specs.Table.{trains};
ghost use Rattle.state_sentences.specs.Knot.{IsKnotOrNone};
ghost use Rattle.layout_picture.specs.Red.{IsColour, IsRed, is_red as is_red_colour};

use crate::circles::{is_in_circle, waits_for};
use layout_frame::Look;
use rail_model::last_of;
use state_core::{Group, Keeper, all_below, keeper_of, least_core};
use state_sentences::Scene;
use std::alloc::{AllocError, Global};

// The colour of red trains.
const RED: &str = "#d00000";

// The colours of the other trains, which they have in graphs, too.
const COLOURS: [&str; 8] = [
    "#0b5fa5", "#b35900", "#20242a", "#00997a", "#7b4fc0", "#8a7400", "#3b9ad0", "#6b1020",
];

// No trains.
fn nobody(alloc: Global) -> Group
    ensures { result ≡ [] }
{
    Group::from(Vec::new(alloc))
}

// A least core of a state; no train if it has none.
fn any_knot(alloc: Global, scene: &Scene) -> Result<Group, AllocError>
    ensures { IfOk result (IsKnotOrNone scene.now.table.now scene.now.state.now) }
{
    let all = all_below(alloc, scene.trains())?;
    match least_core(alloc, scene.table, scene.state, all)? {
        Some(knot) => Ok(knot),
        None => Ok(nobody(alloc)),
    }
}

/// A least core of a state, among the trains of circles if there are some; no train if it has none.
pub(crate) fn knot_of(alloc: Global, scene: &Scene, circles: Group) -> Result<Group, AllocError>
    ensures { IfOk result (IsKnotOrNone scene.now.table.now scene.now.state.now) }
{
    match least_core(alloc, scene.table, scene.state, circles)? {
        Some(knot) => Ok(knot),
        None => any_knot(alloc, scene),
    }
}

/// Whether a train is red: it is in a circle, or in the knot.
pub(crate) fn is_red(scene: &Scene, knot: &Group, train: u32) -> bool
    requires { train < trains scene.now.table.now }
    ensures { Decides result (IsRed scene.now.table.now scene.now.state.now knot.now train) }
{
    if is_in_circle(scene, train) {
        return true;
    }
    knot.has(train)
}

// Red, or the colour of a train that isn't red.
fn colour_for(train: u32, red: bool) -> &'static str
    ensures { is_red_colour result.now ≡ red }
{
    if red {
        return RED;
    }
    COLOURS[train as usize % 8]
}

/// The colour of a train.
pub(crate) fn colour_of(scene: &Scene, knot: &Group, train: u32) -> &'static str
    requires { train < trains scene.now.table.now }
    ensures { IsColour scene.now.table.now scene.now.state.now knot.now train result.now }
{
    colour_for(train, is_red(scene, knot, train))
}

// What a red train waits for: in a circle for the train at its next point, else for what keeps it there in the knot.
fn wait_of(scene: &Scene, knot: &Group, train: u32) -> Option<Keeper>
    requires { train < trains scene.now.table.now }
{
    if is_in_circle(scene, train) {
        let train = waits_for(scene, train)?;
        return Some(Keeper::Train { train });
    }
    if knot.has(train) && scene.place(train) < last_of(scene.table, train) {
        return keeper_of(scene.table, scene.state, knot, train);
    }
    None
}

// How a train looks.
fn look_of(scene: &Scene, knot: &Group, train: u32) -> Look
    requires { train < trains scene.now.table.now }
{
    Look {
        colour: colour_of(scene, knot, train),
        waits_for: wait_of(scene, knot, train),
    }
}

/// How each train looks.
pub(crate) fn looks_of(scene: &Scene, knot: &Group) -> [Look; 32] {
    let mut looks = [Look {
        colour: RED,
        waits_for: None,
    }; 32];
    for train in 0..scene.trains() {
        if let Some(look) = looks.get_mut(train as usize) {
            *look = look_of(scene, knot, train);
        }
    }
    looks
}
