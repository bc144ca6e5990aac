// Groups of passes, each a piece of work of its own.
ghost use Rattle.std.specs.Prelude.{◌≤◌, All};
ghost use Rattle.std.specs.List.{AllZip};
ghost use Rattle.shared_run.specs.Groups.{IsOurGroup, GroupWorked};

use crate::rounds::{drive, exchange};
use ats_io::Gate;
use std::sync::Wait;
use std::thread;
use std::thread::Threads;
use zone_yard::{Control, Driver, Yard};

/// Drivers that one thread works in turn, or the control.
#[derive(Drop)]
pub enum Group {
    Drivers(Vec<Driver>),
    Control(Control),
}

// The work of one group.
fn work<R: Wait, G: Gate>(
    rt: &R,
    yard: &Yard<'_>,
    group: &mut Group,
    rounds: u32,
    block: u32,
    gate: &G,
)
    requires ours { IsOurGroup yard.now group.old }
    requires block { (1 ≤ block) × (block ≤ 4) }
    ensures ours { IsOurGroup yard.now group.new }
    ensures worked { GroupWorked rounds block group.old group.new }
{
    match group {
        Group::Drivers(drivers) => drive(rt, yard, drivers.as_mut_slice(), rounds, block, gate),
        Group::Control(control) => exchange(rt, yard, control, rounds, gate),
    }
}

/// Works all groups, each beside the others. A group of drivers makes `rounds` rounds of one request for each driver in order, of `block`
/// steps at once, or of fewer where they can't be granted whole; it ends early after the first round in which every answer was `Arrived`
/// or `Spent`. The control makes `rounds` exchanges; it ends early with the first `NoMore` or `Spent`.
pub fn run_groups<R: Threads + Wait + Sync, G: Gate>(
    rt: &R,
    yard: &Yard<'_>,
    groups: &mut [Group],
    rounds: u32,
    block: u32,
    gate: &G,
)
    requires ours { All (IsOurGroup yard.now) groups.old }
    requires block { (1 ≤ block) × (block ≤ 4) }
    ensures ours { All (IsOurGroup yard.now) groups.new }
    ensures worked { AllZip (GroupWorked rounds block) groups.old groups.new }
{
    if groups.is_empty() {
        return;
    }
    let count = groups.len();
    thread::for_each_mut(
        rt,
        groups,
        count,
        &|_i: usize, group: &mut Group|
            requires { IsOurGroup yard.now group.old × ((1 ≤ block) × (block ≤ 4)) }
            ensures { IsOurGroup yard.entry.now group.new × GroupWorked rounds block group.old group.new }
        { work(rt, yard, group, rounds, block, gate) },
    );
}
