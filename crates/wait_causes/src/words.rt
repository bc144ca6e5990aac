// What a train of a legal state waits for, in words.
ghost use Rattle.std.specs.Prelude.{◌≡◌, ◌<◌, ◌++◌, IfOk, OnOk, option_map, string_bytes};
ghost use Rattle.rail_model.specs.Table.{trains, last, place as place_of};
ghost use Rattle.rail_model.specs.Move.{Answers};
ghost use Rattle.wait_causes.specs.Causes as spec;

use rail_model::{Ask, Connection, connection_of};
use state_sentences::{Scene, push_section};
use std::alloc::{AllocError, Global};

// The name of a train's next point; no letters, where it has none.
#[tactic(auto, unfolding(crate::specs::Causes::next_point_name))]
fn next_point<'a>(scene: &Scene<'a>, train: u32) -> &'a str
    requires train { train < trains scene.now.table.now }
    requires unfinished { place_of scene.now.state.now train < last scene.now.table.now train }
    ensures { result.now ≡ spec.next_point_name scene.now.names.now scene.now.table.now scene.now.state.now train }
{
    match scene.point(train, scene.place(train) + 1) {
        Some(point) => point,
        None => "",
    }
}

// Adds that it is for a train at a point.
#[tactic(auto, unfolding(crate::specs::Causes::at_words))]
fn push_at(out: &mut String, name: &str, point: &str) -> Result<(), AllocError>
    ensures { OnOk result (string_bytes out.new ≡ string_bytes out.old ++ spec.at_words name.now point.now) }
{
    write!(out, "for {name} at {point}")
}

// For the train that stands at a train's next point.
fn occupied(alloc: Global, scene: &Scene, train: u32, by: u32) -> Result<String, AllocError>
    requires train { train < trains scene.now.table.now }
    requires by { by < trains scene.now.table.now }
    requires unfinished { place_of scene.now.state.now train < last scene.now.table.now train }
    ensures { IfOk result (λ text. string_bytes text ≡ spec.occupied_words scene.now.names.now scene.now.table.now scene.now.state.now train by) }
{
    let mut text = String::new(alloc);
    push_at(&mut text, scene.train(by), next_point(scene, train))?;
    Ok(text)
}

// For room in a section.
#[tactic(auto, unfolding(crate::specs::Causes::room_words))]
fn room(alloc: Global, sections: &[String], section: u32) -> Result<String, AllocError>
    ensures { IfOk result (λ text. string_bytes text ≡ spec.room_words sections.now section) }
{
    let mut text = String::from_str(alloc, "for room in ")?;
    push_section(&mut text, sections, section)?;
    Ok(text)
}

// For the other train of a connection.
#[tactic(auto, unfolding(crate::specs::Causes::connection_words))]
fn connection(alloc: Global, scene: &Scene, connection: Connection) -> Result<String, AllocError>
    requires { connection.other < trains scene.now.table.now }
    ensures { IfOk result (λ text. string_bytes text ≡ spec.connection_words scene.now.names.now scene.now.table.now connection) }
{
    let name = scene.train(connection.other());
    match scene.point(connection.other(), connection.reached()) {
        Some(point) => format!(in alloc; "for {name} to come to {point}"),
        None => format!(in alloc; "for {name} to leave the layout"),
    }
}

/// What a train waits for, by what it is told.
pub(crate) fn cause_words(
    alloc: Global,
    scene: &Scene,
    sections: &[String],
    train: u32,
    told: Ask,
) -> Result<Option<String>, AllocError>
    requires train { train < trains scene.now.table.now }
    requires told { Answers scene.now.table.now scene.now.state.now train told }
    ensures { IfOk result (λ cause. option_map string_bytes cause
        ≡ spec.cause_words scene.now.names.now sections.now scene.now.table.now scene.now.state.now train told) }
{
    match told {
        Ask::Yes | Ask::Arrived => Ok(None),
        Ask::Occupied { by } => Ok(Some(occupied(alloc, scene, train, by)?)),
        Ask::Full { section, .. } => Ok(Some(room(alloc, sections, section)?)),
        Ask::Waits { connection: number } => {
            let holding = connection_of(scene.table, number);
            Ok(Some(connection(alloc, scene, holding)?))
        }
    }
}
