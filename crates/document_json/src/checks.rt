// What is wrong with the number of tables, when they are due, their travel times, and the start.
ghost use Rattle.std.specs.Prelude.{◌≡◌, ◌<◌, ◌^◌, ℕ, length, OnOk, [], slice_index_or};
ghost use Rattle.std.specs.Result.{result_err};
ghost use Rattle.rail_model.specs.Table.{IsTable, trains, last};
ghost use Rattle.rail_model.specs.State.{Legal};
ghost use Rattle.rail_model.specs.Turns.{first_below};
ghost use Rattle.document_json.specs.Reading.{tables_refusal};
ghost use Rattle.document_json.specs.Start.{start_refusal};
ghost use Rattle.document_json.specs.Tables.{after_refusal, times_refusal, other_lists, bad_length, bad_time, bad_times};

use crate::DocRefused;
use legal_state::judge;
use rail_model::{State, Table, TrainTimes, last_of, trains_of};

const MOST_TABLES: usize = 16;

// The moves after which a table is due at the latest.
const LATEST_DUE: u32 = 1_000_000;

const MOST_TICKS: u32 = 1000;

/// Refuses no table, and more than 16.
pub(crate) fn check_count(count: usize) -> Result<(), DocRefused>
    ensures { result_err result ≡ tables_refusal count }
{
    if count == 0 || count > MOST_TABLES {
        return Err(DocRefused::Tables { count });
    }
    Ok(())
}

/// Refuses a table that is due too late.
pub(crate) fn check_after(table: usize, value: u32) -> Result<(), DocRefused>
    ensures { result_err result ≡ after_refusal table value }
{
    let most = if table == 0 { 0 } else { LATEST_DUE };
    if value > most {
        return Err(DocRefused::After { table, value });
    }
    Ok(())
}

// Refuses another number of lists than trains.
fn check_lists(number: usize, table: &Table, times: &[TrainTimes]) -> Result<(), DocRefused>
    ensures { result_err result ≡ other_lists number table.now times.now }
{
    let train = trains_of(table) as usize;
    let count = times.len();
    if count != train {
        return Err(DocRefused::TimesLength {
            table: number,
            train,
            count,
        });
    }
    Ok(())
}

// Refuses a train without one time per step.
fn check_length(
    number: usize,
    table: &Table,
    times: &[TrainTimes],
    train: u32,
) -> Result<(), DocRefused>
    requires lists { length times.now ≡ trains table.now }
    requires train { train < trains table.now }
    ensures { result_err result ≡ bad_length number table.now times.now train }
{
    let count = times[train as usize].as_slice().len();
    if count != last_of(table, train) as usize {
        return Err(DocRefused::TimesLength {
            table: number,
            train: train as usize,
            count,
        });
    }
    Ok(())
}

// Refuses the first train without one time per step.
fn check_lengths(number: usize, table: &Table, times: &[TrainTimes]) -> Result<(), DocRefused>
    requires { length times.now ≡ trains table.now }
    ensures { result_err result ≡ first_below (trains table.now) (bad_length number table.now times.now) }
{
    for train in 0..trains_of(table) {
        check_length(number, table, times, train)?;
    }
    Ok(())
}

// Refuses a time that isn't 1 to 1,000.
fn check_time(table: usize, train: u32, place: u32, value: u32) -> Result<(), DocRefused>
    ensures { result_err result ≡ bad_time table train place value }
{
    if value == 0 || value > MOST_TICKS {
        return Err(DocRefused::TimesValue {
            table,
            train,
            place,
            value,
        });
    }
    Ok(())
}

// Refuses the first time of a train that isn't 1 to 1,000.
fn check_train(table: usize, train: u32, times: &[u32]) -> Result<(), DocRefused>
    requires { length times.now < 2 ^ 32 }
    ensures { result_err result ≡ bad_times table train times.now }
{
    for (place, &value) in times.iter().enumerate() {
        check_time(table, train, place as u32, value)?;
    }
    Ok(())
}

// Refuses the first time that isn't 1 to 1,000.
fn check_values(number: usize, table: &Table, times: &[TrainTimes]) -> Result<(), DocRefused>
    requires lists { length times.now ≡ trains table.now }
    requires lengths { (i : ℕ) → i < trains table.now → length (slice_index_or times.now i []) ≡ last table.now i }
    ensures { result_err result ≡ first_below (trains table.now) (λ i. bad_times number i (slice_index_or times.now i [])) }
{
    for train in 0..trains_of(table) {
        // This read gives the proof that a train has at most 127 places.
        let _last = last_of(table, train);
        check_train(number, train, times[train as usize].as_slice())?;
    }
    Ok(())
}

/// Refuses another number of lists than trains, then the first train without one time per step, then the first
/// time that isn't 1 to 1,000.
pub(crate) fn check_times(
    number: usize,
    table: &Table,
    times: &[TrainTimes],
) -> Result<(), DocRefused>
    ensures { result_err result ≡ times_refusal number table.now times.now }
{
    check_lists(number, table, times)?;
    check_lengths(number, table, times)?;
    check_values(number, table, times)
}

/// Refuses another number of positions than trains, and a start that is illegal.
pub(crate) fn check_start(table: &Table, start: &State) -> Result<(), DocRefused>
    ensures refusal { result_err result ≡ start_refusal table.now start.now }
    ensures legal { OnOk result (Legal table.now start.now) }
{
    let count = start.len();
    if count != trains_of(table) as usize {
        return Err(DocRefused::StartLength { count });
    }
    match judge(table, start) {
        Ok(()) => Ok(()),
        Err(illegal) => Err(DocRefused::Start(illegal)),
    }
}
