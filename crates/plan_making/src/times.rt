// Travel times, by the links of a route, and how long a train stands at the points that it comes to.
use crate::names::{find, tell_of, text_of};
use crate::ranges::Range;
use crate::timed::{default_in, dwell_at, running_time, times_said};
use plan_entries::{Entry, Faults, Part};
use rail_model::TrainTimes;
use std::alloc::{AllocError, Global};
use toml::{Table, Value};

const TIMES: Range = Range {
    least: 1,
    most: 1000,
    form: "a time is 1 to 1000, and this is {}",
};

const DWELL: Range = Range {
    least: 0,
    most: 1000,
    form: "a dwell is 0 to 1000, and this is {}",
};

// The keys of a train that take numbers of ticks.
#[derive(Clone, Copy)]
enum Ticks {
    // By links.
    Times,
    // By points.
    Dwell,
}

impl Ticks {
    fn key(self) -> &'static str {
        match self {
            Ticks::Times => "times",
            Ticks::Dwell => "dwell",
        }
    }

    fn range(self) -> Range {
        match self {
            Ticks::Times => TIMES,
            Ticks::Dwell => DWELL,
        }
    }
}

// Whether a route goes from one point to another in one step.
fn has_step(route: &[Value], one: &str, other: &str) -> bool {
    let mut is_after = false;
    for value in route {
        let name = text_of(value);
        if is_after && name == other {
            return true;
        }
        is_after = name == one;
    }
    false
}

// Tells the name of a link that a train's route doesn't have.
fn check_link<'x>(
    faults: &mut Faults,
    train: &Entry<'x>,
    link: &'x str,
    points: &[&str],
    route: &[Value],
) {
    let Some((one, other)) = link.split_once(" ") else {
        let form = "{} is no link: two points with a space between them";
        return tell_of(faults, train, "times", link, form);
    };
    if find(faults, train, "times", one, "point", points).is_some()
        && find(faults, train, "times", other, "point", points).is_some()
        && !has_step(route, one, other)
    {
        tell_of(faults, train, "times", link, "{} is no step of the route");
    }
}

// Whether a route comes to a point after its first place.
fn comes_to(route: &[Value], point: &str) -> bool {
    for value in route.iter().skip(1) {
        if text_of(value) == point {
            return true;
        }
    }
    false
}

// Tells the name of a point to which a train's route doesn't come after its first place.
fn check_stop<'x>(
    faults: &mut Faults,
    train: &Entry<'x>,
    point: &'x str,
    points: &[&str],
    route: &[Value],
) {
    if find(faults, train, "dwell", point, "point", points).is_some() && !comes_to(route, point) {
        let form = "the train doesn't come to {}";
        tell_of(faults, train, "dwell", point, form);
    }
}

// Tells what is wrong with a table of ticks.
fn check_table<'x>(
    faults: &mut Faults,
    train: &Entry<'x>,
    ticks: Ticks,
    table: &'x Table,
    points: &[&str],
    route: &[Value],
) {
    let range = ticks.range();
    for (name, value) in table {
        if let Some(number) = value.as_integer()
            && name.as_str() != "default"
        {
            let name = name.as_str();
            match ticks {
                Ticks::Times => check_link(faults, train, name, points, route),
                Ticks::Dwell => check_stop(faults, train, name, points, route),
            }
            range.check(faults, train, ticks.key(), name, number);
        }
    }
}

// Tells what is wrong with the ticks at a key of a train.
fn check_ticks(faults: &mut Faults, train: &Entry, ticks: Ticks, points: &[&str], route: &[Value]) {
    let Some(said) = train.value(ticks.key()) else {
        return;
    };
    if let Some(number) = default_in(said) {
        let range = ticks.range();
        range.check(faults, &*train, ticks.key(), "", number);
    }
    if let Value::Table(table) = said {
        check_table(faults, train, ticks, table, points, route);
    }
}

/// Tells what is wrong with the times and the dwell of a train.
pub(crate) fn check_times(faults: &mut Faults, train: &Entry, points: &[&str], route: &[Value]) {
    check_ticks(faults, train, Ticks::Times, points, route);
    check_ticks(faults, train, Ticks::Dwell, points, route);
}

// A running time and a dwell together, if both are in range.
fn together(time: i64, stay: i64) -> Option<u32> {
    let time = TIMES.number(time)?;
    let stay = DWELL.number(stay)?;
    Some(time.saturating_add(stay))
}

// The key of a train that messages about a time with its dwell are about.
fn key_of(train: &Entry) -> &'static str {
    match train.value("dwell") {
        Some(_) => "dwell",
        None => "times",
    }
}

// Tells a step that takes too long with the dwell at the point to which it leads.
fn check_step<'x>(
    faults: &mut Faults,
    train: &Entry<'x>,
    said: Option<&Value>,
    dwell: Option<&Value>,
    from: &'x String,
    to: &'x String,
) {
    let Ok(time) = running_time(faults.alloc(), said, from, to) else {
        return faults.lose();
    };
    if let Some(ticks) = together(time, dwell_at(dwell, to))
        && TIMES.most < ticks
    {
        let form = "the step from {} to {} takes {} ticks with its dwell: 1000 are the most";
        let parts = [
            Part::Name(from.as_str()),
            Part::Name(to.as_str()),
            Part::Number(i64::from(ticks)),
        ];
        faults.tell(&train.at(key_of(train)).of(to.as_str()), form, &parts);
    }
}

/// Tells each step of a route that takes too long with the dwell at the point to which it leads.
pub(crate) fn check_steps<'x>(
    faults: &mut Faults,
    train: &Entry<'x>,
    said: Option<&Value>,
    dwell: Option<&Value>,
    route: &'x [String],
) {
    for (from, to) in route.iter().zip(route.iter().skip(1)) {
        check_step(faults, train, said, dwell, from, to);
    }
}

// A time, if it is in range; else the least that there is.
fn time_within(time: &i128) -> u32 {
    match i64::try_from(*time) {
        Ok(time) => TIMES.number(time).unwrap_or(TIMES.least),
        Err(_) => TIMES.least,
    }
}

/// The times of the steps of a route; in place of one that is out of range, which is reported, the least that there is.
pub(crate) fn times_of(
    alloc: Global,
    said: Option<&Value>,
    dwell: Option<&Value>,
    route: &[String],
    exits: bool,
) -> Result<TrainTimes, AllocError> {
    let said = times_said(alloc, said, dwell, route, exits)?;
    let times: Vec<u32> = said.iter().map(time_within).collect(alloc)?;
    Ok(TrainTimes::from(times))
}
