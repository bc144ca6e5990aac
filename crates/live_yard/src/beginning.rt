// Where trains count as being when a session begins.
ghost use Rattle.std.specs.Prelude.{◌≡◌, ◌<◌, ◌≤◌, ◌^◌, length, IfOk};
ghost use Rattle.live_yard.specs.Reported.{AreFirstReports, BeginsAt, IsFirstReport};

use crate::{Passed, passed_place};
use rail_model::{Line, State};
use std::alloc::{AllocError, Global};

// The place that a train counts as having reported when a session with reports begins.
fn first_report(lines: &[Line], train: u32, at: u32) -> u32
    requires { length lines.now < 2 ^ 31 }
    ensures first { IsFirstReport lines.now train at result }
    ensures behind { result ≤ at }
{
    match passed_place(lines, train, at, at) {
        Passed::Granted { .. } => at.saturating_sub(1),
        Passed::Begun { .. } => at,
    }
}

// The places that all trains count as having reported when a session with reports begins.
fn first_reports(
    alloc: Global,
    trains: u32,
    lines: &[Line],
    positions: &State,
) -> Result<State, AllocError>
    requires few { length lines.now < 2 ^ 31 }
    requires trains { trains ≡ length positions.now }
    ensures { IfOk result (λ there. AreFirstReports lines.now positions.now there) }
{
    let mut there = positions.copy(alloc)?;
    for train in 0..trains {
        let place = first_report(lines, train, positions.place(train));
        there.set(train, place);
    }
    Ok(there)
}

/// The places where all trains count as being when a session begins.
pub(crate) fn first_places(
    alloc: Global,
    trains: u32,
    lines: &[Line],
    positions: &State,
    reports: bool,
) -> Result<State, AllocError>
    requires few { length lines.now < 2 ^ 31 }
    requires trains { trains ≡ length positions.now }
    ensures { IfOk result (λ there. BeginsAt lines.now positions.now reports there) }
{
    if reports {
        first_reports(alloc, trains, lines, positions)
    } else {
        positions.copy(alloc)
    }
}
