// The sentence on each train: where it is, what it wants next, and what it is told.
ghost use Rattle.std.specs.Prelude.{◌≡◌, ◌<◌, ◌≤◌, ◌++◌, OnOk, Some, length, string_bytes};
ghost use Rattle.std.specs.Fmt.{signed_decimal};
ghost use Rattle.rail_model.specs.Table.{trains, last, change, place as place_of};
ghost use Rattle.rail_model.specs.Move.{Answers};
ghost use Rattle.state_sentences.specs.Named.{name_at};
ghost use Rattle.state_sentences.specs.Explanation.{joined_below, wish_words, where_words, wants_words, next_words, holder_words, room_words, taken_words, full_words, until_words, wait_words, reason_words, told_words, train_words};

use crate::Scene;
use crate::naming::push_section;
use rail_model::{Ask, Connection, change_at, connection_of, last_of, limit_of, share_at};
use std::alloc::AllocError;

// Adds where a train is.
fn write_where(out: &mut String, scene: &Scene, train: u32) -> Result<(), AllocError>
    requires { train < trains scene.now.table.now }
    ensures { OnOk result (string_bytes out.new ≡ string_bytes out.old ++ where_words scene.now.names.now scene.now.table.now scene.now.state.now train) }
{
    let name = scene.train(train);
    let place = scene.place(train);
    let last = last_of(scene.table, train);
    match scene.point(train, place) {
        Some(point) => write!(out, "{name} is at {point}, place {place} of {last}"),
        None => write!(out, "{name} is out of the layout, place {place} of {last}"),
    }
}

// Adds a train's point at a place, or that it leaves the layout there.
fn write_point(out: &mut String, scene: &Scene, train: u32, place: u32) -> Result<(), AllocError>
    requires { train < trains scene.now.table.now }
    ensures { OnOk result (string_bytes out.new ≡ string_bytes out.old
        ++ wish_words (name_at scene.now.names.now scene.now.table.now train place)) }
{
    match scene.point(train, place) {
        Some(point) => out.push_str(point),
        None => out.push_str("to leave the layout"),
    }
}

// A train's point at a place, or that it leaves the layout there.
fn wish_of<'a>(scene: &Scene<'a>, train: u32, place: u32) -> &'a str
    requires { train < trains scene.now.table.now }
    ensures { result.now ≡ wish_words (name_at scene.now.names.now scene.now.table.now train place) }
{
    match scene.point(train, place) {
        Some(point) => point,
        None => "to leave the layout",
    }
}

// Adds that a train wants this next.
fn write_wish(out: &mut String, wish: &str) -> Result<(), AllocError>
    ensures { OnOk result (string_bytes out.new ≡ string_bytes out.old ++ wants_words wish.now) }
{
    write!(out, ", and wants {wish}: ")
}

// Adds what a train wants next, at a place.
fn write_next(out: &mut String, scene: &Scene, train: u32, place: u32) -> Result<(), AllocError>
    requires { train < trains scene.now.table.now }
    ensures { OnOk result (string_bytes out.new ≡ string_bytes out.old ++ next_words scene.now.names.now scene.now.table.now train place) }
{
    let wish = wish_of(scene, train, place);
    write_wish(out, wish)
}

/// Adds what a train has of a section, if it has anything of it.
pub(crate) fn write_holder(
    out: &mut String,
    scene: &Scene,
    section: u32,
    train: u32,
) -> Result<(), AllocError>
    requires section { section < length scene.now.table.now.sections }
    requires train { train < trains scene.now.table.now }
    ensures { OnOk result (string_bytes out.new ≡ string_bytes out.old ++ holder_words scene.now.names.now scene.now.table.now scene.now.state.now section train) }
{
    let name = scene.train(train);
    let share = share_at(scene.table, train, section, scene.place(train));
    if 0 < share {
        write!(out, "; {name} has {share}")
    } else {
        Ok(())
    }
}

// Adds what each train has of a section.
fn write_holders(out: &mut String, scene: &Scene, section: u32) -> Result<(), AllocError>
    requires { section < length scene.now.table.now.sections }
    ensures { OnOk result (string_bytes out.new ≡ string_bytes out.old
        ++ joined_below (holder_words scene.now.names.now scene.now.table.now scene.now.state.now section) (trains scene.now.table.now)) }
{
    for holder in 0..scene.trains() {
        write_holder(out, scene, section, holder)?;
    }
    Ok(())
}

// Adds that a section has no room.
fn write_room(out: &mut String, sections: &[String], section: u32) -> Result<(), AllocError>
    ensures { OnOk result (string_bytes out.new ≡ string_bytes out.old ++ room_words sections.now section) }
{
    push_section(out, sections, section)?;
    out.push_str(" has no room for ")
}

// Adds how much more of a section a train has at a place.
fn write_need(
    out: &mut String,
    scene: &Scene,
    train: u32,
    section: u32,
    place: u32,
) -> Result<(), AllocError>
    requires section { section < length scene.now.table.now.sections }
    requires train { train < trains scene.now.table.now }
    requires place { place ≤ last scene.now.table.now train }
    ensures { OnOk result (string_bytes out.new ≡ string_bytes out.old ++ signed_decimal (change scene.now.table.now train section place)) }
{
    let change = change_at(scene.table, train, section, place);
    write!(out, "{change}")
}

// Adds how much of a section is taken.
fn write_taken(out: &mut String, count: u32, limit: u32) -> Result<(), AllocError>
    ensures { OnOk result (string_bytes out.new ≡ string_bytes out.old ++ taken_words count limit) }
{
    write!(out, " more, {count} of {limit} are taken")
}

// Adds that a section has no room for a train's move, and what each train has of it.
fn write_full(
    out: &mut String,
    scene: &Scene,
    sections: &[String],
    train: u32,
    section: u32,
    count: u32,
) -> Result<(), AllocError>
    requires section { section < length scene.now.table.now.sections }
    requires train { train < trains scene.now.table.now }
    requires unfinished { place_of scene.now.state.now train < last scene.now.table.now train }
    ensures { OnOk result (string_bytes out.new ≡ string_bytes out.old
        ++ full_words scene.now.names.now sections.now scene.now.table.now scene.now.state.now train section count) }
{
    let place = scene.place(train) + 1;
    let limit = limit_of(scene.table, section);
    write_room(out, sections, section)?;
    write_need(out, scene, train, section, place)?;
    write_taken(out, count, limit)?;
    write_holders(out, scene, section)
}

// Adds which train a connection waits for, and until which place.
fn write_until(out: &mut String, number: u32, other: &str, reached: u32) -> Result<(), AllocError>
    ensures { OnOk result (string_bytes out.new ≡ string_bytes out.old ++ until_words number other.now reached) }
{
    write!(
        out,
        "connection {number} holds it until {other} has come to place {reached}, "
    )
}

// Adds what a connection waits for.
fn write_wait(
    out: &mut String,
    scene: &Scene,
    number: u32,
    connection: Connection,
) -> Result<(), AllocError>
    requires { connection.other < trains scene.now.table.now }
    ensures { OnOk result (string_bytes out.new ≡ string_bytes out.old
        ++ wait_words scene.now.names.now scene.now.table.now number (Some connection)) }
{
    let other = connection.other();
    let reached = connection.reached();
    let name = scene.train(other);
    write_until(out, number, name, reached)?;
    write_point(out, scene, other, reached)
}

// Adds what a train is told that has not arrived.
fn write_reason(
    out: &mut String,
    scene: &Scene,
    sections: &[String],
    train: u32,
    told: Ask,
) -> Result<(), AllocError>
    requires train { train < trains scene.now.table.now }
    requires told { Answers scene.now.table.now scene.now.state.now train told }
    ensures { OnOk result (string_bytes out.new ≡ string_bytes out.old ++ reason_words scene.now.names.now sections.now scene.now.table.now scene.now.state.now train told) }
{
    match told {
        Ask::Arrived => Ok(()),
        Ask::Yes => out.push_str("it may"),
        Ask::Occupied { by } => {
            let by = scene.train(by);
            write!(out, "{by} is there")
        }
        Ask::Full { section, count } => write_full(out, scene, sections, train, section, count),
        Ask::Waits { connection } => write_wait(
            out,
            scene,
            connection,
            connection_of(scene.table, connection),
        ),
    }
}

// Adds what a train wants, and what it is told.
fn write_told(
    out: &mut String,
    scene: &Scene,
    sections: &[String],
    train: u32,
    told: Ask,
) -> Result<(), AllocError>
    requires train { train < trains scene.now.table.now }
    requires told { Answers scene.now.table.now scene.now.state.now train told }
    ensures { OnOk result (string_bytes out.new ≡ string_bytes out.old ++ told_words scene.now.names.now sections.now scene.now.table.now scene.now.state.now train told) }
{
    if let Ask::Arrived = told {
        return out.push_str(", and has arrived");
    }
    write_next(out, scene, train, scene.place(train) + 1)?;
    write_reason(out, scene, sections, train, told)
}

/// Adds the sentence on a train.
pub(crate) fn write_train(
    out: &mut String,
    scene: &Scene,
    sections: &[String],
    train: u32,
) -> Result<(), AllocError>
    requires { train < trains scene.now.table.now }
    ensures { OnOk result (string_bytes out.new ≡ string_bytes out.old ++ train_words scene.now.names.now sections.now scene.now.table.now scene.now.state.now train) }
{
    write_where(out, scene, train)?;
    write_told(out, scene, sections, train, scene.told(train))?;
    out.push_str("\n")
}
