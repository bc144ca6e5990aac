// The words on what a train is told.
ghost use Rattle.std.specs.Prelude.{◌≡◌, ◌++◌, flat_map, OnOk, string_bytes};
ghost use Rattle.rail_model.specs.Names.{target_name};
ghost use Rattle.move_journal.specs.Printable.{IsNamedTarget};
ghost use Rattle.live_lines.specs.Told as spec;

use crate::{Cause, Prospect, Room, Spot};
use live_yard::Told;
use rail_model::Names;
use std::alloc::AllocError;

// What a point is called; - out of the layout.
fn point_text<'a>(names: &'a Names, point: Option<u32>) -> &'a str
    requires { IsNamedTarget names.now point }
    ensures { result.now ≡ target_name names.now point }
{
    match point {
        Some(point) => names.point(point),
        None => "-",
    }
}

// Adds the names of trains, each after a comma.
fn write_others(out: &mut String, names: &Names, others: &[u32]) -> Result<(), AllocError>
    requires { spec.AreNamed names.now others.now }
    ensures { OnOk result (string_bytes out.new ≡ string_bytes out.old
        ++ flat_map (spec.other_words names.now) others.now) }
{
    for other in others {
        let name = names.train(*other);
        write!(out, ",{name}")?;
    }
    Ok(())
}

/// Adds the names of trains, with commas between them; - where there are none.
pub(crate) fn write_trains(
    out: &mut String,
    names: &Names,
    trains: &[u32],
) -> Result<(), AllocError>
    requires { spec.AreNamed names.now trains.now }
    ensures { OnOk result (string_bytes out.new ≡ string_bytes out.old ++ spec.trains_words names.now trains.now) }
{
    let Some((first, others)) = trains.split_first() else {
        return out.push_str("-");
    };
    out.push_str(names.train(*first))?;
    write_others(out, names, others)
}

/// Adds a train, its place and its point there.
pub(crate) fn write_spot(out: &mut String, names: &Names, spot: Spot) -> Result<(), AllocError>
    requires { spec.IsNamedSpot names.now spot }
    ensures { OnOk result (string_bytes out.new ≡ string_bytes out.old ++ spec.spot_words names.now spot) }
{
    let train = names.train(spot.train);
    let place = spot.place;
    let point = point_text(names, spot.point);
    write!(out, "{train} {place} {point}")
}

// Adds a section without room.
fn write_room(out: &mut String, names: &Names, room: Room<'_>) -> Result<(), AllocError>
    requires { spec.AreNamed names.now room.by.now }
    ensures { OnOk result (string_bytes out.new ≡ string_bytes out.old ++ spec.room_words names.now room.entry) }
{
    let Room {
        section,
        count,
        more,
        limit,
        by,
    } = room;
    write!(
        out,
        " section={section} count={count} more={more} limit={limit} by="
    )?;
    write_trains(out, names, by)
}

// Adds why a train has to wait.
fn write_cause(out: &mut String, names: &Names, cause: Cause<'_>) -> Result<(), AllocError>
    requires { spec.IsNamedCause names.now cause }
    ensures { OnOk result (string_bytes out.new ≡ string_bytes out.old ++ spec.cause_words names.now cause.entry) }
{
    match cause {
        Cause::Occupied { by } => {
            let by = names.train(by);
            write!(out, "occupied by={by}")
        }
        Cause::Full { room } => {
            out.push_str("full")?;
            write_room(out, names, room)
        }
        Cause::Connection {
            connection,
            by,
            reached,
        } => {
            let by = names.train(by);
            write!(out, "connection={connection} by={by} reached={reached}")
        }
        Cause::Away { place } => write!(out, "away={place}"),
        Cause::Leaving { by } => {
            let by = names.train(by);
            write!(out, "leaving by={by}")
        }
        Cause::Clearing { room } => {
            out.push_str("clearing")?;
            write_room(out, names, room)
        }
    }
}

/// Adds what a train is told.
pub(crate) fn write_prospect(
    out: &mut String,
    names: &Names,
    prospect: Prospect<'_>,
) -> Result<(), AllocError>
    requires { spec.IsNamedProspect names.now prospect }
    ensures { OnOk result (string_bytes out.new ≡ string_bytes out.old
        ++ spec.prospect_words names.now prospect.entry) }
{
    match prospect {
        Prospect::May { next } => {
            out.push_str("may ")?;
            write_spot(out, names, next)
        }
        Prospect::Waits { next, cause } => {
            out.push_str("wait ")?;
            write_spot(out, names, next)?;
            out.push_str(" ")?;
            write_cause(out, names, cause)
        }
        Prospect::Arrived { train, place } => {
            let train = names.train(train);
            write!(out, "arrived {train} {place}")
        }
    }
}

/// What a train is told, in one word.
pub(crate) fn word_of(told: Told) -> &'static str
    ensures { result.now ≡ spec.told_word told }
{
    match told {
        Told::May => "may",
        Told::Arrived => "arrived",
        Told::Occupied { .. } => "occupied",
        Told::Full { .. } => "full",
        Told::Waits { .. } => "waits",
        Told::Away => "away",
        Told::Leaving { .. } => "leaving",
        Told::Clearing { .. } => "clearing",
    }
}
