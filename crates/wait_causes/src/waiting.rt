// The waits of a run.
ghost use Rattle.std.specs.Prelude.{IfOk};
ghost use Rattle.wait_causes.specs.Waits.{AreWaits, IsWait};

use crate::Wait;
use crate::causes::cause_until;
use crate::departures::{Departure, departures};
use document_json::Doc;
use run_timetable::Run;
use std::alloc::{AllocError, Global};

// The wait that ends with a departure.
fn wait_until(
    alloc: Global,
    doc: &Doc,
    run: &Run,
    sections: &[Vec<String>],
    departure: Departure,
) -> Result<Wait, AllocError>
    ensures { IfOk result (IsWait doc.now sections.now run.now departure) }
{
    let Departure { train, leaves } = departure;
    let cause = cause_until(alloc, doc, run, sections, train, leaves)?;
    Ok(Wait {
        train,
        leaves,
        cause,
    })
}

/// The waits of a run of a document, train by train, each with its cause, by the names of the sections of each table. A cause is what the
/// train is told that asks to move when the tick begins at which it leaves. If it may go then, the cause is what it was told one tick
/// before. There is no cause if nothing kept the train at either tick, or if the positions aren't legal, as may be in a run of another document.
pub fn waits(
    alloc: Global,
    doc: &Doc,
    run: &Run,
    sections: &[Vec<String>],
) -> Result<Vec<Wait>, AllocError>
    ensures { IfOk result (λ waits. AreWaits doc.now sections.now run.now waits.items) }
{
    let found = departures(alloc, run)?;
    let mut waits = Vec::new(alloc);
    for departure in &found {
        waits.push(wait_until(alloc, doc, run, sections, *departure)?)?;
    }
    Ok(waits)
}
