// Rows and answers on what trains are told.
ghost use Rattle.std.specs.Prelude.{◌≡◌, ◌<◌, ◌≤◌, OnOk, count_by, length};
ghost use Rattle.rail_model.specs.Table.{trains};
ghost use Rattle.live_answers.specs.Seen.{AreTold, IsTold, told_at};
ghost use Rattle.live_lines.specs.declared.session.SessionAnswer.TheVariants.{Could};
ghost use Rattle.live_answers.specs.Prospects.{HasNames};
ghost use Rattle.live_answers.specs.Rows.{AreRows, IsAtRow, IsToldAnswer, IsToldRow, Says, TellsAll};
ghost use Rattle.live_answers.specs.Rows.{TellsState};
ghost use Rattle.live_answers.specs.Rows.{is_arrived as is_arrived_told, is_may as is_may_told, there_of};
ghost use Rattle.live_answers.specs.Rows.{waits as waits_told};

use crate::prospects::{prospect_of, spot};
use crate::{Scene, in_the_way, tolds_of};
use live_lines::{Answer, Counts, Page, Row, SessionAnswer, TrainAnswer};
use live_yard::Told;
use std::alloc::AllocError;

/// Adds what a train was told, as the answer to its request.
pub fn push_told(
    page: &Page<'_>,
    out: &mut Vec<u8>,
    scene: &Scene<'_>,
    train: u32,
    told: Told,
) -> Result<(), AllocError>
    requires named { HasNames page.now.names.now scene.now.table }
    requires train { train < trains scene.now.table }
    requires told { IsTold scene.now train told }
    ensures { OnOk result (Says (IsToldAnswer page.now.names.now scene.now page.now.tag.now train told)
        out.old.items out.new.items) }
{
    let by = in_the_way(page.alloc, scene, train, told)?;
    let prospect = prospect_of(scene, train, told, &by);
    page.push_answer(out, Answer::Train(TrainAnswer::Told { prospect }))
}

/// Adds a row with what a train is told.
pub(crate) fn push_told_row(
    page: &Page<'_>,
    out: &mut Vec<u8>,
    scene: &Scene<'_>,
    tolds: &[Told],
    train: u32,
) -> Result<(), AllocError>
    requires named { HasNames page.now.names.now scene.now.table }
    requires told { AreTold scene.now tolds.now }
    requires train { train < trains scene.now.table }
    ensures { OnOk result (Says (IsToldRow page.now.names.now scene.now page.now.tag.now train
        (told_at tolds.now train)) out.old.items out.new.items) }
{
    let told = tolds[train as usize];
    let by = in_the_way(page.alloc, scene, train, told)?;
    let prospect = prospect_of(scene, train, told, &by);
    page.push_row(out, Row::Told { prospect })
}

// Adds a row for each train.
fn push_told_rows(
    page: &Page<'_>,
    out: &mut Vec<u8>,
    scene: &Scene<'_>,
    tolds: &[Told],
) -> Result<(), AllocError>
    requires named { HasNames page.now.names.now scene.now.table }
    requires told { AreTold scene.now tolds.now }
    ensures { OnOk result (Says (AreRows (λ i. IsToldRow page.now.names.now scene.now page.now.tag.now i (told_at tolds.now i))
        (trains scene.now.table))
        out.old.items out.new.items) }
{
    for train in 0..scene.trains() {
        push_told_row(page, out, scene, tolds, train)?;
    }
    Ok(())
}

// How many trains may go on.
fn may_of(tolds: &[Told]) -> usize
    ensures { result ≡ count_by is_may_told tolds.now }
{
    tolds
        .iter()
        .filter(|told| matches!(told, Told::May))
        .count()
}

// How many trains have arrived.
fn arrived_of(tolds: &[Told]) -> usize
    ensures { result ≡ count_by is_arrived_told tolds.now }
{
    tolds
        .iter()
        .filter(|told| matches!(told, Told::Arrived))
        .count()
}

// How many trains wait.
fn waiting_of(tolds: &[Told]) -> usize
    ensures { result ≡ count_by waits_told tolds.now }
{
    tolds
        .iter()
        .filter(|told| !matches!(told, Told::May | Told::Arrived))
        .count()
}

// How many trains may go on, wait and have arrived.
fn could_of(tolds: &[Told]) -> SessionAnswer<'static>
    requires { length tolds.now ≤ 32 }
    ensures { result ≡ Could (count_by is_may_told tolds.now) (count_by waits_told tolds.now)
        (count_by is_arrived_told tolds.now) }
{
    let may = may_of(tolds) as u32;
    let wait = waiting_of(tolds) as u32;
    let arrived = arrived_of(tolds) as u32;
    SessionAnswer::Could { may, wait, arrived }
}

// Adds what these trains are told, a row each, and how many may go on, wait and have arrived.
fn push_tolds(
    page: &Page<'_>,
    out: &mut Vec<u8>,
    scene: &Scene<'_>,
    tolds: &[Told],
) -> Result<(), AllocError>
    requires named { HasNames page.now.names.now scene.now.table }
    requires told { AreTold scene.now tolds.now }
    requires few { length tolds.now ≤ 32 }
    ensures { OnOk result (Says (TellsAll page.now.names.now scene.now page.now.tag.now) out.old.items out.new.items) }
{
    push_told_rows(page, out, scene, tolds)?;
    page.push_answer(out, Answer::Session(could_of(tolds)))
}

/// Adds what each train is told, a row each, and how many may go on, wait and have arrived.
pub fn push_told_all(
    page: &Page<'_>,
    out: &mut Vec<u8>,
    scene: &Scene<'_>,
) -> Result<(), AllocError>
    requires { HasNames page.now.names.now scene.now.table }
    ensures { OnOk result (Says (TellsAll page.now.names.now scene.now page.now.tag.now) out.old.items out.new.items) }
{
    let tolds = tolds_of(page.alloc, scene)?;
    push_tolds(page, out, scene, &tolds)
}

// The place that a train has reported, where trains report.
fn there(scene: &Scene<'_>, reports: bool, train: u32) -> Option<u32>
    requires { train < trains scene.now.table }
    ensures { result ≡ there_of scene.now reports train }
{
    if reports {
        Some(scene.reported(train))
    } else {
        None
    }
}

// Adds where a train is and what it is told, as a row.
fn push_at_row(
    page: &Page<'_>,
    out: &mut Vec<u8>,
    scene: &Scene<'_>,
    reports: bool,
    tolds: &[Told],
    train: u32,
) -> Result<(), AllocError>
    requires named { HasNames page.now.names.now scene.now.table }
    requires train { train < trains scene.now.table }
    requires told { AreTold scene.now tolds.now }
    ensures { OnOk result (Says (IsAtRow page.now.names.now scene.now page.now.tag.now reports tolds.now train) out.old.items
        out.new.items) }
{
    let row = Row::At {
        spot: spot(scene, train, scene.place(train)),
        told: tolds[train as usize],
        there: there(scene, reports, train),
    };
    page.push_row(out, row)
}

// Adds a row for each train.
fn push_at_rows(
    page: &Page<'_>,
    out: &mut Vec<u8>,
    scene: &Scene<'_>,
    reports: bool,
    tolds: &[Told],
) -> Result<(), AllocError>
    requires named { HasNames page.now.names.now scene.now.table }
    requires told { AreTold scene.now tolds.now }
    ensures { OnOk result (Says (AreRows (IsAtRow page.now.names.now scene.now page.now.tag.now reports tolds.now)
        (trains scene.now.table))
        out.old.items out.new.items) }
{
    for train in 0..scene.trains() {
        push_at_row(page, out, scene, reports, tolds, train)?;
    }
    Ok(())
}

/// Adds where each train is and what it is told, a row each, and the counts.
pub fn push_state(
    page: &Page<'_>,
    out: &mut Vec<u8>,
    scene: &Scene<'_>,
    reports: bool,
    counts: Counts,
) -> Result<(), AllocError>
    requires { HasNames page.now.names.now scene.now.table }
    ensures { OnOk result (Says (TellsState page.now.names.now scene.now page.now.tag.now reports counts) out.old.items out.new.items) }
{
    let tolds = tolds_of(page.alloc, scene)?;
    push_at_rows(page, out, scene, reports, &tolds)?;
    page.push_answer(out, Answer::Session(SessionAnswer::State { counts }))
}
