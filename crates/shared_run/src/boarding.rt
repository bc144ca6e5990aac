// Trains and the control board in groups.
ghost use Rattle.std.specs.Prelude.{◌≡◌, ◌+◌, ◌≤◌, ◌<◌, [], map, All, OnOk, vec_len};
ghost use Rattle.std.specs.Vec.{vec_capacity};
ghost use Rattle.zone_yard.specs.Boarding.{fresh_root, boarded_pass};
ghost use Rattle.shared_run.specs.Groups.{IsOurGroup};
ghost use Rattle.shared_run.specs.Boarding.{HaveBoarded, AreAshore, AreDealt, passes_in};
ghost use Rattle.shared_run.specs.Crews.{trains_of, dealt};

use crate::groups::Group;
use std::alloc::{AllocError, Global};
use zone_yard::{Board, Driver, Root, Yard};

const MOST_TRAINS: usize = 32;

// The trains of one worker board, of the first `trains` that are dealt to this many. Where there is no memory for all, some have boarded.
fn board_group(
    yard: &Yard<'_>,
    alloc: Global,
    root: &mut Root,
    drivers: &mut Vec<Driver>,
    trains: u32,
    workers: u32,
    group: u32,
) -> Result<(), AllocError>
    requires ours { root.old.yard ≡ yard.now }
    requires trains { trains ≡ trains_of root.old.yard.setup }
    requires few { trains ≤ 32 }
    requires workers { 1 ≤ workers }
    requires ashore { AreAshore workers group root.old }
    requires empty { drivers.old.items ≡ [] }
    requires room { trains ≤ vec_capacity drivers.old }
    ensures boarded { HaveBoarded root.old drivers.new.items root.new }
    ensures ashore { OnOk result (AreAshore workers (group + 1) root.new) }
    ensures dealt { OnOk result (drivers.new.items ≡ map (boarded_pass root.old) (dealt trains workers group)) }
{
    for train in 0..trains {
        if train % workers == group {
            match yard.board(alloc, root, train) {
                Ok(driver) => drivers.push_reserved(driver),
                Err(Board::Memory) => return Err(AllocError),
                Err(Board::Taken) => unreachable!(),
            }
        }
    }
    Ok(())
}

/// All trains board, in a group for each worker, and then the control. Where there is no memory for all, some have boarded.
pub(crate) fn board_all(
    yard: &Yard<'_>,
    alloc: Global,
    root: &mut Root,
    groups: &mut Vec<Group>,
    trains: u32,
    workers: u32,
) -> Result<(), AllocError>
    requires fresh { root.old ≡ fresh_root yard.now }
    requires trains { trains ≡ trains_of root.old.yard.setup }
    requires few { trains ≤ 32 }
    requires workers { (1 ≤ workers) × (workers ≤ 16) }
    requires empty { groups.old.items ≡ [] }
    requires room { workers + 1 ≤ vec_capacity groups.old }
    ensures boarded { HaveBoarded root.old (passes_in groups.new.items) root.new }
    ensures ours { All (IsOurGroup yard.now) groups.new.items }
    ensures dealt { OnOk result (AreDealt yard.now workers groups.new.items) }
{
    for group in 0..workers {
        let mut drivers = Vec::with_capacity(alloc, MOST_TRAINS)?;
        let boarded = board_group(yard, alloc, root, &mut drivers, trains, workers, group);
        groups.push_reserved(Group::Drivers(drivers));
        boarded?;
    }
    let control = match yard.board_control(alloc, root) {
        Ok(control) => control,
        Err(Board::Memory) => return Err(AllocError),
        Err(Board::Taken) => unreachable!(),
    };
    groups.push_reserved(Group::Control(control));
    Ok(())
}
