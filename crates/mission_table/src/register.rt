// The maker of trains.
ghost use Rattle.std.specs.Prelude.{◌≡◌, ◌≤◌, length, map, string_bytes};
ghost use Rattle.std.specs.Result.{result_err};
ghost use Rattle.rail_model.specs.Turns.{AnswersAs};
ghost use Rattle.mission_table.specs.Roster.{too_many, bad_name, trains_from};
ghost use Rattle.mission_table.specs.Seen.{names_seen};

use crate::{TrainRefused, Trains};
use rail_model::first_bad_name;
use std::alloc::Global;
use track_layout::Numbers;

// The most trains of a document.
const MOST_TRAINS: usize = 32;

/// The trains with these names.
///
/// # Errors
///
/// The first thing wrong with the names, in the order of `TrainRefused`; out of memory.
pub fn trains(alloc: Global, names: Vec<String>) -> Result<Trains, TrainRefused>
    ensures { AnswersAs TrainRefused.Memory (λ trains. trains) result (trains_from (names_seen names.items)) }
{
    check_count(names.len())?;
    check_names(&names)?;
    let names = Numbers::new(alloc, names)?.into_names(alloc)?;
    Ok(Trains::new(names))
}

fn check_count(count: usize) -> Result<(), TrainRefused>
    ensures { result_err result ≡ too_many count }
{
    if count > MOST_TRAINS {
        return Err(TrainRefused::TooMany { count });
    }
    Ok(())
}

fn check_names(names: &[String]) -> Result<(), TrainRefused>
    requires { length names.now ≤ 32 }
    ensures { result_err result ≡ bad_name (names_seen names.now) }
{
    match first_bad_name(names) {
        Some(train) => Err(TrainRefused::Name {
            train: train as u32,
        }),
        None => Ok(()),
    }
}
