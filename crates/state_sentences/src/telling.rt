// The whole text on a state.
ghost use Rattle.std.specs.Prelude.{◌≡◌, ◌++◌, ◌<◌, IfOk, OnOk, string_bytes};
ghost use Rattle.rail_model.specs.Table.{trains};
ghost use Rattle.state_sentences.specs.Explanation.{trains_words};
ghost use Rattle.state_sentences.specs.Tells.{Tells};

use crate::Scene;
use crate::circles::{first_circle, write_circle};
use crate::closing::{verdict_of, write_verdict};
use crate::knots::{knot_of, write_knot};
use crate::sentences::write_train;
use state_core::Group;
use std::alloc::{AllocError, Global};

// Adds the sentence on each train.
fn write_trains(out: &mut String, scene: &Scene, sections: &[String]) -> Result<(), AllocError>
    ensures { OnOk result (string_bytes out.new
        ≡ string_bytes out.old ++ trains_words scene.now.names.now sections.now scene.now.table.now scene.now.state.now) }
{
    for train in 0..scene.trains() {
        write_train(out, scene, sections, train)?;
    }
    Ok(())
}

/// What is told of a state of the table with this number, whose sections have these names: a sentence for each train, then the circle of trains that
/// wait for one another, if there is one, then the knot, if there is one with other trains, and whether the state is
/// stuck. Each ends with a newline.
pub fn text_of(
    alloc: Global,
    scene: &Scene,
    sections: &[String],
    table: u32,
) -> Result<String, AllocError>
    ensures { IfOk result (λ text. Tells scene.now.names.now sections.now scene.now.table.now scene.now.state.now table (string_bytes text)) }
{
    let circle = first_circle(alloc, scene)?;
    let knot = knot_of(alloc, scene, &circle)?;
    let verdict = verdict_of(scene);
    let mut text = String::new(alloc);
    write_trains(&mut text, scene, sections)?;
    write_circle(&mut text, scene, &circle)?;
    write_knot(&mut text, scene, sections, &Group::from(circle), &knot)?;
    write_verdict(&mut text, scene, &knot, table, verdict)?;
    Ok(text)
}
