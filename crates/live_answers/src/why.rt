// What a train waits for, directly or through others.
ghost use Rattle.std.specs.Prelude.{◌≡◌, ◌<◌, ◌≤◌, ◌++◌, All, IfOk, OnOk, filter, length, slice_index};
ghost use Rattle.rail_model.specs.Table.{trains};
ghost use Rattle.live_answers.specs.Seen.{AreTold, told_at};
ghost use Rattle.live_answers.specs.Waiting.{AreAwaited};
ghost use Rattle.live_answers.specs.Prospects.{HasNames};
ghost use Rattle.live_answers.specs.Rows.{AreRows, IsToldRow, Says, TellsWhy, is_one_of, of_told, why_line};

use crate::rows::push_told_row;
use crate::{Scene, awaited, tolds_of};
use live_lines::{Answer, Page, TrainAnswer};
use live_yard::Told;
use std::alloc::{AllocError, Global};

// Adds a row for each train of a list.
fn push_rows_of(
    page: &Page<'_>,
    out: &mut Vec<u8>,
    scene: &Scene<'_>,
    tolds: &[Told],
    waiting: &[u32],
) -> Result<(), AllocError>
    requires named { HasNames page.now.names.now scene.now.table }
    requires told { AreTold scene.now tolds.now }
    requires below { All (λ i. i < trains scene.now.table) waiting.now }
    ensures { OnOk result (Says (AreRows (λ k. IsToldRow page.now.names.now scene.now page.now.tag.now (slice_index waiting.now k)
        (told_at tolds.now (slice_index waiting.now k))) (length waiting.now)) out.old.items out.new.items) }
{
    for index in 0..waiting.len() {
        push_told_row(page, out, scene, tolds, waiting[index])?;
    }
    Ok(())
}

// Whether a train that was told this may go on, or whether it hasn't reported.
fn is_one(told: Told, away: bool) -> bool
    ensures { result ≡ is_one_of away told }
{
    if away {
        matches!(told, Told::Away)
    } else {
        matches!(told, Told::May)
    }
}

// Those trains of a list that may go on, or those that haven't reported.
fn some_of(
    alloc: Global,
    tolds: &[Told],
    waiting: &[u32],
    away: bool,
) -> Result<Vec<u32>, AllocError>
    requires { All (λ i. i < length tolds.now) waiting.now }
    ensures { IfOk result (λ some. some.items ≡ filter (of_told (is_one_of away) tolds.now) waiting.now) }
{
    let mut some = Vec::new(alloc);
    for train in waiting {
        if is_one(tolds[*train as usize], away) {
            some.push(*train)?;
        }
    }
    Ok(some)
}

// Adds the answer on a train and those that it waits for.
fn push_why_answer(
    page: &Page<'_>,
    out: &mut Vec<u8>,
    train: u32,
    tolds: &[Told],
    waiting: &[u32],
) -> Result<(), AllocError>
    requires train { train < length tolds.now }
    requires below { All (λ i. i < length tolds.now) waiting.now }
    requires few { length waiting.now ≤ 32 }
    requires named { length tolds.now ≤ length page.now.names.now.trains }
    ensures { OnOk result (out.new.items ≡ out.old.items ++ why_line page.now.names.now page.now.tag.now tolds.now waiting.now train) }
{
    let may = some_of(page.alloc, tolds, waiting, false)?;
    let away = some_of(page.alloc, tolds, waiting, true)?;
    let why = TrainAnswer::Why {
        train,
        trains: waiting.len() as u32,
        may: &may,
        away: &away,
    };
    page.push_answer(out, Answer::Train(why))
}

// Adds a row for each train of a list that one waits for, and then the answer.
fn push_waiting(
    page: &Page<'_>,
    out: &mut Vec<u8>,
    scene: &Scene<'_>,
    train: u32,
    tolds: &[Told],
    waiting: &[u32],
) -> Result<(), AllocError>
    requires named { HasNames page.now.names.now scene.now.table }
    requires train { train < trains scene.now.table }
    requires told { AreTold scene.now tolds.now }
    requires few { length tolds.now ≤ 32 }
    requires awaited { AreAwaited scene.now tolds.now train waiting.now }
    ensures { OnOk result (Says (TellsWhy page.now.names.now scene.now page.now.tag.now train) out.old.items out.new.items) }
{
    push_rows_of(page, out, scene, tolds, waiting)?;
    push_why_answer(page, out, train, tolds, waiting)
}

/// Adds what a train waits for: a row for it and for each train that one of them waits for, and how many they are.
pub fn push_why(
    page: &Page<'_>,
    out: &mut Vec<u8>,
    scene: &Scene<'_>,
    train: u32,
) -> Result<(), AllocError>
    requires named { HasNames page.now.names.now scene.now.table }
    requires train { train < trains scene.now.table }
    ensures { OnOk result (Says (TellsWhy page.now.names.now scene.now page.now.tag.now train) out.old.items out.new.items) }
{
    let tolds = tolds_of(page.alloc, scene)?;
    let waiting = awaited(page.alloc, scene, &tolds, train)?;
    push_waiting(page, out, scene, train, &tolds, waiting.as_slice())
}
