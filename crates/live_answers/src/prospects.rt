// What a train is told, with all that the text on it names.
ghost use Rattle.std.specs.Prelude.{◌≡◌, ◌+◌, ◌<◌, ◌<ℤ◌, All, length, pos};
ghost use Rattle.rail_model.specs.Names.{Names as NameLists};
ghost use Rattle.rail_model.specs.Table.{change, last, place as place_of, trains};
ghost use Rattle.live_yard.specs.declared.told.Told.TheVariants.{Waits};
ghost use Rattle.live_answers.specs.Causes.{in_the_way};
ghost use Rattle.live_answers.specs.Seen.{IsTold};
ghost use Rattle.live_lines.specs.Told.{IsNamedCause, IsNamedProspect, IsNamedSpot};
ghost use Rattle.live_lines.specs.declared.told.Prospect.TheVariants.{Waits as HasToWait};
ghost use Rattle.live_answers.specs.Prospects.{HasNames, IsCause, IsProspect, IsRoom, next_spot as next_spot_of};
ghost use Rattle.live_answers.specs.Prospects.{spot_at};

use crate::{Scene, connection};
use live_lines::{Cause, Prospect, Room, Spot};
use live_yard::Told;
use rail_model::{change_at, limit_of, point_of};

/// A train at one of its places.
pub(crate) fn spot(scene: &Scene<'_>, train: u32, place: u32) -> Spot
    requires { train < trains scene.now.table }
    ensures spot { result ≡ spot_at scene.now train place }
    ensures named { (N : NameLists) → HasNames N scene.now.table → IsNamedSpot N result }
{
    let point = point_of(scene.table(), train, place);
    Spot {
        train,
        place,
        point,
    }
}

// A train at its next place.
fn next_spot(scene: &Scene<'_>, train: u32) -> Spot
    requires { train < trains scene.now.table }
    ensures spot { result ≡ next_spot_of scene.now train }
    ensures named { (N : NameLists) → HasNames N scene.now.table → IsNamedSpot N result }
{
    spot(scene, train, scene.place(train) + 1)
}

// A section without room for a train's move, and the trains that count there.
fn room_of<'a>(scene: &Scene<'_>, train: u32, section: u32, count: u32, by: &'a [u32]) -> Room<'a>
    requires train { train < trains scene.now.table }
    requires section { section < length scene.now.table.sections }
    requires unfinished { place_of scene.now.positions train < last scene.now.table train }
    requires more { pos 0 <ℤ change scene.now.table train section (place_of scene.now.positions train + 1) }
    ensures room { IsRoom scene.now train section count by.entry.now result }
    ensures by { result.by.now ≡ by.entry.now }
{
    let next = scene.place(train) + 1;
    let more = change_at(scene.table(), train, section, next) as u32;
    let limit = limit_of(scene.table(), section);
    Room {
        section,
        count,
        more,
        limit,
        by,
    }
}

// Why a train has to wait for a connection.
fn by_connection(scene: &Scene<'_>, train: u32, number: u32) -> Cause<'static>
    requires { number < length scene.now.table.connections }
    ensures cause { IsCause scene.now train (Waits number) result }
    ensures named { (N : NameLists) → HasNames N scene.now.table → IsNamedCause N result }
{
    let held = connection(scene, number);
    Cause::Connection {
        connection: number,
        by: held.other(),
        reached: held.reached(),
    }
}

// A train that has to wait.
fn waits<'a>(scene: &Scene<'_>, train: u32, cause: Cause<'a>) -> Prospect<'a>
    requires { train < trains scene.now.table }
    ensures waits { result ≡ HasToWait (next_spot_of scene.now train) cause.entry }
    ensures named { (N : NameLists) → HasNames N scene.now.table → IsNamedSpot N (next_spot_of scene.now train) }
{
    Prospect::Waits {
        next: next_spot(scene, train),
        cause,
    }
}

/// What a train was told, with what the text on it names.
pub(crate) fn prospect_of<'a>(
    scene: &Scene<'_>,
    train: u32,
    told: Told,
    by: &'a [u32],
) -> Prospect<'a>
    requires train { train < trains scene.now.table }
    requires told { IsTold scene.now train told }
    requires by { by.now ≡ in_the_way scene.now told }
    requires below { All (λ j. j < trains scene.now.table) by.now }
    ensures prospect { IsProspect scene.now train told result }
    ensures named { (N : NameLists) → HasNames N scene.now.table → IsNamedProspect N result }
{
    // Read for the proof: the state is legal.
    let _table = scene.table();
    match told {
        Told::May => Prospect::May {
            next: next_spot(scene, train),
        },
        Told::Arrived => Prospect::Arrived {
            train,
            place: scene.place(train),
        },
        Told::Occupied { by } => waits(scene, train, Cause::Occupied { by }),
        Told::Full { section, count } => {
            let room = room_of(scene, train, section, count, by);
            waits(scene, train, Cause::Full { room })
        }
        Told::Waits { connection } => waits(scene, train, by_connection(scene, train, connection)),
        Told::Away => {
            let place = scene.place(train);
            waits(scene, train, Cause::Away { place })
        }
        Told::Leaving { by } => waits(scene, train, Cause::Leaving { by }),
        Told::Clearing { section, count } => {
            let room = room_of(scene, train, section, count, by);
            waits(scene, train, Cause::Clearing { room })
        }
    }
}
