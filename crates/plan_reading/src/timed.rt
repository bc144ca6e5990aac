// Whether the times of a train are what is said of them and of its dwell.
ghost use Rattle.std.specs.Prelude.{◌≡◌, pos, map, IfOk, option_map};
ghost use Rattle.std.specs.Cmp.Lexicographic.{pointwise};
ghost use Rattle.std.specs.Ordering.{int_eq};
ghost use Rattle.toml.specs.View.{view};
ghost use Rattle.plan_reading.specs.Timed as spec;

use plan_making::times_said;
use rail_model::TrainTimes;
use std::alloc::{AllocError, Global};
use toml::Value;

// Whether these times are the numbers that are said.
fn are_said(said: &[i128], times: &[u32]) -> bool
    ensures { result ≡ pointwise int_eq said.now (map pos times.now) }
{
    said.len() == times.len()
        && said
            .iter()
            .zip(times)
            .all(|(said, time)| *said == i128::from(*time))
}

/// Whether the times of a train are those that are said for its route, with the dwell at its points.
pub(crate) fn are_times(
    alloc: Global,
    said: Option<&Value>,
    dwell: Option<&Value>,
    route: &[String],
    exits: bool,
    times: &TrainTimes,
) -> Result<bool, AllocError>
    ensures { IfOk result (λ agree. agree ≡ spec.are_times (option_map (λ v. view v.now) said.entry) (option_map (λ v. view v.now) dwell.entry) route.now exits times.now) }
{
    let said = times_said(alloc, said, dwell, route, exits)?;
    Ok(are_said(said.as_slice(), times.as_slice()))
}
