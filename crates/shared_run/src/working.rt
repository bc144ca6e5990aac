// A crew works at a yard.
ghost use Rattle.std.specs.Prelude.{◌≡◌, ◌≤◌, ◌<◌, All, OnOk, IfOk};
ghost use Rattle.std.specs.List.{AllZip};
ghost use Rattle.zone_yard.specs.Setup.{IsSetup};
ghost use Rattle.zone_yard.specs.Boarding.{fresh_root};
ghost use Rattle.shared_run.specs.Groups.{IsOurGroup, GroupWorked};
ghost use Rattle.shared_run.specs.Crews.{IsCrew, trains_of};
ghost use Rattle.shared_run.specs.Leaving.{HasWorked};
ghost use Rattle.shared_run.specs.Shared.{IsWorkedTo, setup};

use crate::Crew;
use crate::boarding::board_all;
use crate::groups::{Group, run_groups};
use crate::leaving::leave_all;
use ats_io::Gate;
use cert_checker::Accepted;
use rail_model::{Layout, PlainState, trains_of};
use std::alloc::{AllocError, Global};
use std::sync::Wait;
use std::thread::Threads;
use zone_yard::{Root, Yard};

// All groups work, each beside the others.
fn run_all<R: Threads + Wait + Sync, G: Gate>(
    rt: &R,
    yard: &Yard<'_>,
    groups: &mut Vec<Group>,
    crew: Crew,
    gate: &G,
)
    requires ours { All (IsOurGroup yard.now) groups.old.items }
    requires block { (1 ≤ crew.block) × (crew.block ≤ 4) }
    ensures ours { All (IsOurGroup yard.now) groups.new.items }
    ensures worked { AllZip (GroupWorked crew.rounds crew.block) groups.old.items groups.new.items }
{
    let groups = groups.as_mut_slice();
    run_groups(rt, yard, groups, crew.rounds, crew.block, gate);
}

// All board, work, and leave. Where there is no memory for all to board, those that did leave again.
fn work_groups<R: Threads + Wait + Sync, G: Gate>(
    rt: &R,
    alloc: Global,
    yard: &Yard<'_>,
    root: &mut Root,
    trains: u32,
    crew: Crew,
    gate: &G,
) -> Result<(), AllocError>
    requires fresh { root.old ≡ fresh_root yard.now }
    requires trains { trains ≡ trains_of root.old.yard.setup }
    requires few { trains ≤ 32 }
    requires crew { IsCrew crew }
    requires calls { 4000000 < root.old.yard.setup.calls }
    ensures { OnOk result (HasWorked yard.now crew root.new) }
{
    let mut groups = Vec::with_capacity(alloc, crew.workers as usize + 1)?;
    if let Err(error) = board_all(yard, alloc, root, &mut groups, trains, crew.workers) {
        leave_all(yard, groups, root);
        return Err(error);
    }
    run_all(rt, yard, &mut groups, crew, gate);
    leave_all(yard, groups, root);
    Ok(())
}

// The state and the lines after a crew has worked at a yard from which nobody has boarded. Where there is no memory for all to board, or
// for the state, whoever boarded has left.
fn work_at<R: Threads + Wait + Sync, G: Gate>(
    rt: &R,
    alloc: Global,
    yard: Yard<'_>,
    mut root: Root,
    trains: u32,
    crew: Crew,
    gate: &G,
) -> Result<PlainState, AllocError>
    requires fresh { root ≡ fresh_root yard }
    requires trains { trains ≡ trains_of root.yard.setup }
    requires few { trains ≤ 32 }
    requires crew { IsCrew crew }
    requires calls { 4000000 < root.yard.setup.calls }
    ensures { IfOk result (IsWorkedTo yard.entry.setup crew) }
{
    work_groups(rt, alloc, &yard, &mut root, trains, crew, gate)?;
    match yard.close(alloc, root) {
        Ok(state) => Ok(state),
        Err(_) => Err(AllocError),
    }
}

// How many entries a pass may make: more than a crew's rounds come to.
const MOST_CALLS: u32 = u32::MAX;

/// The state and the lines after a crew has worked at a shared yard, which opens with a state of a legal run. It may wait for its threads.
///
/// # Errors
///
/// Out of memory alone. Whoever boarded has left.
pub fn work<R: Threads + Wait + Sync, G: Gate>(
    rt: &R,
    alloc: Global,
    layout: &Layout,
    tables: &[Accepted],
    opening: PlainState,
    crew: Crew,
    gate: &G,
) -> Result<PlainState, AllocError>
    requires setup { IsSetup (setup layout.now tables.now opening) }
    requires crew { IsCrew crew }
    ensures { IfOk result (IsWorkedTo (setup layout.now tables.now opening) crew) }
{
    let trains = trains_of(tables[0].table());
    match Yard::resume(alloc, layout, tables, opening, MOST_CALLS) {
        Ok((yard, root)) => work_at(rt, alloc, yard, root, trains, crew, gate),
        Err(_opening) => Err(AllocError),
    }
}
