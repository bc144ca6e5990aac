// The comparison of two runs by trains, in columns.
ghost use Rattle.std.specs.Prelude.{◌≡◌, ◌++◌, IfOk, OnOk, flat_map, string_bytes};
ghost use Rattle.run_comparison.specs.Columns as spec;

use crate::Side;
use crate::cells::{Pair, push_left, push_pair};
use crate::times::{Times, all_times, same_times, train_times};
use crate::unchanged::{are_unchanged, only_in_second};
use rail_model::Names;
use run_timetable::train_name;
use std::alloc::{AllocError, Global};

// How wide the names of a run's trains are, and the heading.
fn width_of(side: Side<'_>) -> usize
    ensures { result ≡ spec.width_of side.entry }
{
    let mut width: usize = 5;
    for train in 0..side.run.trains() {
        width = width.max(train_name(side.names, train).len());
    }
    width
}

// Adds the headings.
#[tactic(auto, unfolding(crate::specs::Columns::head_text))]
fn push_head(out: &mut String, width: usize) -> Result<(), AllocError>
    ensures { OnOk result (string_bytes out.new ≡ string_bytes out.old ++ spec.head_text width) }
{
    push_left(out, "train", width)?;
    out.push_str("  ends  then  later  waits  then  longer\n")
}

// Adds a line.
#[tactic(auto, unfolding(crate::specs::Columns::line_text))]
fn push_line(
    alloc: Global,
    out: &mut String,
    width: usize,
    name: &str,
    first: Times,
    second: Option<Times>,
) -> Result<(), AllocError>
    ensures { OnOk result (string_bytes out.new ≡ string_bytes out.old ++ spec.line_text width name.now first second) }
{
    let ends = Pair {
        number: 4,
        difference: 5,
    };
    let waits = Pair {
        number: 5,
        difference: 6,
    };
    push_left(out, name, width)?;
    push_pair(alloc, out, ends, first.ends, second.map(|times| times.ends))?;
    push_pair(
        alloc,
        out,
        waits,
        first.waits,
        second.map(|times| times.waits),
    )?;
    out.push_str("\n")
}

// Adds the line of a train of the first run.
fn push_train(
    alloc: Global,
    out: &mut String,
    first: Side<'_>,
    second: Side<'_>,
    width: usize,
    train: u32,
) -> Result<(), AllocError>
    ensures { OnOk result (string_bytes out.new ≡ string_bytes out.old ++ spec.train_line first.entry second.entry width train) }
{
    let times = train_times(alloc, first.run, train)?;
    let others = same_times(alloc, first, second, train)?;
    push_line(
        alloc,
        out,
        width,
        train_name(first.names, train),
        times,
        others,
    )
}

// Adds the lines of all trains of the first run.
fn push_trains(
    alloc: Global,
    out: &mut String,
    first: Side<'_>,
    second: Side<'_>,
    width: usize,
) -> Result<(), AllocError>
    ensures { OnOk result (string_bytes out.new ≡ string_bytes out.old ++ spec.all_train_lines first.entry second.entry width) }
{
    for train in 0..first.run.trains() {
        push_train(alloc, out, first, second, width, train)?;
    }
    Ok(())
}

// Adds the line of all trains.
fn push_all(
    alloc: Global,
    out: &mut String,
    first: Side<'_>,
    second: Side<'_>,
    width: usize,
) -> Result<(), AllocError>
    ensures { OnOk result (string_bytes out.new ≡ string_bytes out.old ++ spec.all_line first.entry second.entry width) }
{
    let times = all_times(alloc, first.run)?;
    let others = all_times(alloc, second.run)?;
    push_line(alloc, out, width, "all", times, Some(others))
}

// Adds a further train.
#[tactic(auto, unfolding(crate::specs::Columns::further_text))]
fn push_further(out: &mut String, names: &Names, train: u32) -> Result<(), AllocError>
    ensures { OnOk result (string_bytes out.new ≡ string_bytes out.old ++ spec.further_text names.now train) }
{
    out.push_str(", ")?;
    out.push_str(train_name(names, train))
}

// Adds further trains.
fn push_all_further(out: &mut String, names: &Names, trains: &[u32]) -> Result<(), AllocError>
    ensures { OnOk result (string_bytes out.new ≡ string_bytes out.old ++ flat_map (spec.further_text names.now) trains.now) }
{
    for train in trains {
        push_further(out, names, *train)?;
    }
    Ok(())
}

// Adds how the line begins that names the trains of only the second run.
#[tactic(auto, unfolding(crate::specs::Columns::only_head))]
fn push_only_head(out: &mut String) -> Result<(), AllocError>
    ensures { OnOk result (string_bytes out.new ≡ string_bytes out.old ++ spec.only_head) }
{
    out.push_str("only in the second run: ")
}

// Adds the line of trains that only the second run has.
#[tactic(auto, unfolding(crate::specs::Columns::only_line))]
fn push_only_line(
    out: &mut String,
    names: &Names,
    train: u32,
    later: &[u32],
) -> Result<(), AllocError>
    ensures { OnOk result (string_bytes out.new ≡ string_bytes out.old ++ spec.only_line names.now train later.now) }
{
    push_only_head(out)?;
    out.push_str(train_name(names, train))?;
    push_all_further(out, names, later)?;
    out.push_str("\n")
}

// Adds that line, if there are any.
fn push_only(out: &mut String, names: &Names, trains: &[u32]) -> Result<(), AllocError>
    ensures { OnOk result (string_bytes out.new ≡ string_bytes out.old ++ spec.only_text names.now trains.now) }
{
    match trains.split_first() {
        Some((train, later)) => push_only_line(out, names, *train, later),
        None => Ok(()),
    }
}

// Adds what is said of runs that are the same.
#[tactic(auto, unfolding(crate::specs::Columns::same_text))]
fn push_same(out: &mut String) -> Result<(), AllocError>
    ensures { OnOk result (string_bytes out.new ≡ string_bytes out.old ++ spec.same_text) }
{
    out.push_str("no train is earlier or later\n")
}

// Adds what stands below the line of all trains.
fn push_end(
    alloc: Global,
    out: &mut String,
    first: Side<'_>,
    second: Side<'_>,
) -> Result<(), AllocError>
    ensures { OnOk result (string_bytes out.new ≡ string_bytes out.old ++ spec.end_text first.entry second.entry) }
{
    let only = only_in_second(alloc, first, second)?;
    let unchanged = are_unchanged(alloc, first, second)?;
    push_only(out, second.names, &only)?;
    if only.is_empty() && unchanged {
        push_same(out)
    } else {
        Ok(())
    }
}

/// The comparison by trains, in columns: when each train of the first run ends in both runs, and how long it waits in all; the same of
/// all trains; the trains that only the second run has; and whether the runs are the same.
pub fn columns(alloc: Global, first: Side<'_>, second: Side<'_>) -> Result<String, AllocError>
    ensures { IfOk result (λ text. string_bytes text ≡ spec.columns_text first.entry second.entry) }
{
    let mut out = String::new(alloc);
    let width = width_of(first);
    push_head(&mut out, width)?;
    push_trains(alloc, &mut out, first, second, width)?;
    push_all(alloc, &mut out, first, second, width)?;
    push_end(alloc, &mut out, first, second)?;
    Ok(out)
}
