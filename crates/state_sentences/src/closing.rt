// The last sentences: whether the state is stuck, and what keeps it out.
ghost use Rattle.std.specs.Prelude.{◌≡◌, ◌++◌, ◌↔◌, IsTrue, OnOk, string_bytes};
ghost use Rattle.rail_model.specs.State.{Arrived};
ghost use Rattle.state_sentences.specs.Text.{remedy_words, cure_words, verdict_words};
ghost use Rattle.state_sentences.specs.Tells.{HasMove, IsVerdict};

use crate::Scene;
use crate::knots::has_arrived;
use rail_model::{Ask, Table, connections_of, last_of};
use state_core::Group;
use std::alloc::AllocError;

/// Whether trains can go on from a state.
#[derive(Clone, Copy)]
pub(crate) enum Verdict {
    Arrived,
    Going,
    Stuck,
}

// Whether all trains have arrived.
fn have_arrived(scene: &Scene) -> bool
    ensures { IsTrue result ↔ Arrived scene.now.table.now scene.now.state.now }
{
    for train in 0..scene.trains() {
        if scene.place(train) != last_of(scene.table, train) {
            return false;
        }
    }
    true
}

// Whether some train has a move.
fn may_go(scene: &Scene) -> bool
    ensures { IsTrue result ↔ HasMove scene.now.table.now scene.now.state.now }
{
    for train in 0..scene.trains() {
        if let Ask::Yes = scene.told(train) {
            return true;
        }
    }
    false
}

/// Whether all trains have arrived, some train may move, or the state is stuck.
pub(crate) fn verdict_of(scene: &Scene) -> Verdict
    ensures { IsVerdict scene.now.table.now scene.now.state.now result }
{
    if have_arrived(scene) {
        Verdict::Arrived
    } else if may_go(scene) {
        Verdict::Going
    } else {
        Verdict::Stuck
    }
}

// Adds that a section keeps a stuck state out.
fn write_remedy(out: &mut String, table: &Table) -> Result<(), AllocError>
    ensures { OnOk result (string_bytes out.new ≡ string_bytes out.old ++ remedy_words table.now) }
{
    if connections_of(table) == 0 {
        out.push_str(
            "A section keeps it out: write one that these places overfill, or let planner protect make one.\n",
        )
    } else {
        out.push_str(
            "A section keeps it out: write one that these places overfill. ats repair refuses a table with connections.\n",
        )
    }
}

// Adds what keeps a stuck state out.
fn write_cure(out: &mut String, scene: &Scene, knot: &Group) -> Result<(), AllocError>
    ensures { OnOk result (string_bytes out.new ≡ string_bytes out.old ++ cure_words scene.now.table.now scene.now.state.now knot.now) }
{
    if has_arrived(scene, knot) {
        out.push_str(
            "A train of the knot has arrived where it is in the way: it has to come later, or to end elsewhere.\n",
        )
    } else {
        write_remedy(out, scene.table)
    }
}

/// Adds whether the state is stuck, and what keeps it out.
pub(crate) fn write_verdict(
    out: &mut String,
    scene: &Scene,
    knot: &Group,
    table: u32,
    verdict: Verdict,
) -> Result<(), AllocError>
    ensures { OnOk result (string_bytes out.new ≡ string_bytes out.old
        ++ verdict_words scene.now.table.now scene.now.state.now table knot.now verdict) }
{
    match verdict {
        Verdict::Arrived => out.push_str("All trains have arrived.\n"),
        Verdict::Going => out.push_str("The state isn't stuck: a train may move.\n"),
        Verdict::Stuck => {
            write!(
                out,
                "No train can move, so the state is stuck. The sections of table {table} allow it, whether or not trains can come to it from the start.\n"
            )?;
            write_cure(out, scene, knot)
        }
    }
}
