// Which times a text says for a route.
ghost use Rattle.std.specs.Prelude.{◌≡◌, IfOk, option_and_then, option_map, string_bytes};
ghost use Rattle.toml.specs.View.{view};
ghost use Rattle.plan_entries.specs.Found.{number_in as number_of};
ghost use Rattle.plan_making.specs.Timed as spec;

use std::alloc::{AllocError, Global};
use toml::Value;

// The time of a step, if no number is said.
const USUAL: i64 = 1;

// The name of a link.
fn link(alloc: Global, from: &String, to: &String) -> Result<String, AllocError>
    ensures { IfOk result (λ name. string_bytes name ≡ spec.link from.now to.now) }
{
    format!(in alloc; "{from} {to}")
}

// The number at a key of a table of numbers.
fn number_at(said: &Value, key: &str) -> Option<i64>
    ensures { result ≡ number_of key.now (view said.now) }
{
    said.get(key)?.as_integer()
}

// The number at a key, if a table of numbers is said.
fn number_in(said: Option<&Value>, key: &str) -> Option<i64>
    ensures { result ≡ option_and_then (number_of key.now) (option_map (λ v. view v.now) said.entry) }
{
    match said {
        Some(said) => number_at(said, key),
        None => None,
    }
}

/// The number for all steps, or for all points, that have none of their own, if it is said.
pub(crate) fn default_in(said: &Value) -> Option<i64>
    ensures { result ≡ spec.default_in (view said.now) }
{
    match said.as_integer() {
        Some(number) => Some(number),
        None => number_at(said, "default"),
    }
}

// That number, or else another, if it isn't said.
fn default_or(said: Option<&Value>, other: i64) -> i64
    ensures { result ≡ spec.default_or (option_map (λ v. view v.now) said.entry) other }
{
    match said {
        Some(said) => default_in(said).unwrap_or(other),
        None => other,
    }
}

// The time of the step out of the layout, and the running time of each step that has none of its own.
fn usual_time(said: Option<&Value>) -> i64
    ensures { result ≡ spec.usual_time (option_map (λ v. view v.now) said.entry) }
{
    default_or(said, USUAL)
}

/// The running time of a step from one point to another.
pub(crate) fn running_time(
    alloc: Global,
    said: Option<&Value>,
    from: &String,
    to: &String,
) -> Result<i64, AllocError>
    ensures { IfOk result (λ time. time ≡ spec.running_time (option_map (λ v. view v.now) said.entry) from.now to.now) }
{
    let name = link(alloc, from, to)?;
    let own = number_in(said, name.as_str());
    Ok(own.unwrap_or(usual_time(said)))
}

/// How long a train stands at a point that it comes to.
pub(crate) fn dwell_at(dwell: Option<&Value>, point: &String) -> i64
    ensures { result ≡ spec.dwell_at (option_map (λ v. view v.now) dwell.entry) point.now }
{
    let own = number_in(dwell, point.as_str());
    own.unwrap_or(default_or(dwell, 0))
}

// The time of a step from one point to another, with the dwell at the point to which it leads.
fn step_time(
    alloc: Global,
    said: Option<&Value>,
    dwell: Option<&Value>,
    from: &String,
    to: &String,
) -> Result<i128, AllocError>
    ensures { IfOk result (λ time. time ≡ spec.step_time (option_map (λ v. view v.now) said.entry) (option_map (λ v. view v.now) dwell.entry) from.now to.now) }
{
    let time = running_time(alloc, said, from, to)?;
    let stay = dwell_at(dwell, to);
    Ok(i128::from(time) + i128::from(stay))
}

/// The times that are said for the steps of a route, with the dwell at the points that they lead to, and for the step out of the
/// layout, if the train exits.
pub fn times_said(
    alloc: Global,
    said: Option<&Value>,
    dwell: Option<&Value>,
    route: &[String],
    exits: bool,
) -> Result<Vec<i128>, AllocError>
    ensures { IfOk result (λ times. times.items ≡ spec.times_said (option_map (λ v. view v.now) said.entry) (option_map (λ v. view v.now) dwell.entry) route.now exits) }
{
    let mut times = Vec::new(alloc);
    for (from, to) in route.iter().zip(route.iter().skip(1)) {
        times.push(step_time(alloc, said, dwell, from, to)?)?;
    }
    if exits {
        times.push(i128::from(usual_time(said)))?;
    }
    Ok(times)
}
