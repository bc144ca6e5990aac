// What a viewer shows when the pointer rests on the line of a train.
ghost use Rattle.std.specs.Prelude.{◌≡◌, ◌++◌, IfOk, OnOk, option_map, string_bytes};
ghost use Rattle.train_graph.specs.Titles as spec;

use rail_model::{Layout, Names};
use run_timetable::{Row, Step, point_name, push_number, train_name};
use std::alloc::{AllocError, Global};
use wait_causes::{Wait, cause_of};

/// What is shown for the mark of a step.
pub(crate) fn move_title(
    alloc: Global,
    layout: &Layout,
    names: &Names,
    step: &Step,
) -> Result<String, AllocError>
    ensures { IfOk result (λ title. string_bytes title ≡ spec.move_title layout.now names.now step.now) }
{
    let mut title = String::new(alloc);
    push_move(&mut title, layout, names, step)?;
    Ok(title)
}

// Adds a move.
#[tactic(auto, unfolding(crate::specs::Titles::move_title))]
fn push_move(
    out: &mut String,
    layout: &Layout,
    names: &Names,
    step: &Step,
) -> Result<(), AllocError>
    ensures { OnOk result (string_bytes out.new ≡ string_bytes out.old ++ spec.move_title layout.now names.now step.now) }
{
    let train = train_name(names, step.train);
    let from = point_name(layout, step.from);
    let begins = step.tick;
    let ends = step.arrival();
    write!(out, "{train} from {from}")?;
    push_target(out, layout, step.to)?;
    write!(out, ", {begins} to {ends}")
}

// Adds where a move leads.
#[tactic(auto, unfolding(crate::specs::Titles::target_text))]
fn push_target(out: &mut String, layout: &Layout, to: Option<u32>) -> Result<(), AllocError>
    ensures { OnOk result (string_bytes out.new ≡ string_bytes out.old ++ spec.target_text layout.now to) }
{
    match to {
        Some(point) => {
            let to = point_name(layout, point);
            write!(out, " to {to}")
        }
        None => out.push_str(", out of the layout"),
    }
}

/// What is shown for the level line of a row at a point.
pub(crate) fn level_title(
    alloc: Global,
    layout: &Layout,
    names: &Names,
    waits: &[Wait],
    row: &Row,
    point: u32,
) -> Result<String, AllocError>
    ensures { IfOk result (λ title. string_bytes title ≡ spec.level_title layout.now names.now waits.now row.now point) }
{
    let mut title = String::new(alloc);
    push_level_title(&mut title, layout, names, waits, row, point)?;
    Ok(title)
}

// Adds a train at a point: when it arrives and leaves, and how long it waits, and for what.
#[tactic(auto, unfolding(crate::specs::Titles::level_title))]
fn push_level_title(
    out: &mut String,
    layout: &Layout,
    names: &Names,
    waits: &[Wait],
    row: &Row,
    point: u32,
) -> Result<(), AllocError>
    ensures { OnOk result (string_bytes out.new ≡ string_bytes out.old ++ spec.level_title layout.now names.now waits.now row.now point) }
{
    let train = train_name(names, row.train);
    let at = point_name(layout, point);
    write!(out, "{train} at {at}")?;
    push_times(out, row.arrives, row.leaves)?;
    push_wait(out, waits, row)
}

// Adds when a train arrives and when it leaves, as far as it does.
#[tactic(auto, unfolding(crate::specs::Titles::times_text))]
fn push_times(out: &mut String, arrives: Option<u64>, leaves: Option<u64>) -> Result<(), AllocError>
    ensures { OnOk result (string_bytes out.new ≡ string_bytes out.old ++ spec.times_text arrives leaves) }
{
    match (arrives, leaves) {
        (None, None) => Ok(()),
        (None, Some(leaves)) => write!(out, ": leaves {leaves}"),
        (Some(arrives), None) => write!(out, ": arrives {arrives}"),
        (Some(arrives), Some(leaves)) => write!(out, ": arrives {arrives}, leaves {leaves}"),
    }
}

// Adds how long a train waits, and for what, if it leaves.
#[tactic(auto, unfolding(crate::specs::Titles::wait_text))]
fn push_wait(out: &mut String, waits: &[Wait], row: &Row) -> Result<(), AllocError>
    ensures { OnOk result (string_bytes out.new ≡ string_bytes out.old ++ spec.wait_text waits.now row.now row.now.leaves) }
{
    let Some(leaves) = row.leaves else {
        return Ok(());
    };
    out.push_str(", waits ")?;
    push_number(out, row.wait())?;
    push_cause(out, cause_of(waits, row.train, leaves))
}

// Adds what a train waits for, after a space, if it is known.
#[tactic(auto, unfolding(crate::specs::Titles::cause_text))]
fn push_cause(out: &mut String, cause: Option<&str>) -> Result<(), AllocError>
    ensures { OnOk result (string_bytes out.new ≡ string_bytes out.old ++ spec.cause_text (option_map (λ s. s.now) cause.entry)) }
{
    match cause {
        Some(words) => write!(out, " {words}"),
        None => Ok(()),
    }
}
