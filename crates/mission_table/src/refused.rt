// What is wrong with trains and with their missions.
ghost use Rattle.std.specs.Prelude.{◌≡◌};

use std::alloc::{AllocError, AllocFailed};
use thiserror::Error;
use track_layout::NotNumbered;

/// Why names are no trains. Trains go by number, counted from 0.
#[derive(Clone, Copy, Debug, Error)]
pub enum TrainRefused {
    /// More than 32 trains.
    #[error("there are {count} trains; at most 32 are allowed")]
    TooMany { count: usize },
    /// The first train whose name isn't 1 to 16 letters, digits and `_`.
    #[error("the name of train {train} isn't 1 to 16 letters, digits and `_`")]
    Name { train: u32 },
    /// The first train whose name an earlier one has, with that earlier one.
    #[error("the trains {first} and {second} have the same name")]
    DoubleName { first: u32, second: u32 },
    /// Memory ran out.
    #[error("out of memory")]
    Memory,
}

impl From<AllocError> for TrainRefused {
    ghost use Rattle.mission_table.specs.declared.refused.TrainRefused.TheVariants.{Memory};

    ghost from_gives = { λ _ e. e ≡ Memory };

    fn from(_error: AllocError) -> TrainRefused {
        TrainRefused::Memory
    }
}

impl From<NotNumbered> for TrainRefused {
    ghost use Rattle.mission_table.specs.Doubling.{train_refusal};

    ghost from_gives = { λ e refused. refused ≡ train_refusal e };

    fn from(error: NotNumbered) -> TrainRefused {
        match error {
            NotNumbered::Double { first, second } => TrainRefused::DoubleName { first, second },
            NotNumbered::Memory => TrainRefused::Memory,
        }
    }
}

/// Why lists of names are no missions. Trains and places go by number, counted from 0.
#[derive(Clone, Copy, Debug, Error)]
pub enum MissionRefused {
    /// Another number of missions than trains.
    #[error("there are {count} missions, but another number of trains")]
    Lists { count: usize },
    /// Another number of exits than trains.
    #[error("there are {count} exits, but another number of trains")]
    Exits { count: usize },
    /// No point, more than 128, or more than 127 with an exit.
    #[error("the mission of train {train} has {count} points; 1 to 128 are allowed, 1 to 127 with an exit")]
    Length { train: u32, count: usize },
    /// No point has the name at this place.
    #[error("train {train}, place {place}: no point has this name")]
    UnknownPoint { train: u32, place: u32 },
    /// The points before and at this place have no link.
    #[error("train {train}, place {place}: the point has no link with the one before it")]
    NotLinked { train: u32, place: u32 },
    /// Memory ran out.
    #[error("out of memory")]
    Memory,
}

impl From<AllocError> for MissionRefused {
    ghost use Rattle.mission_table.specs.declared.refused.MissionRefused.TheVariants.{Memory};

    ghost from_gives = { λ _ e. e ≡ Memory };

    fn from(_error: AllocError) -> MissionRefused {
        MissionRefused::Memory
    }
}

impl<T: Drop> From<AllocFailed<T>> for MissionRefused {
    ghost use Rattle.mission_table.specs.declared.refused.MissionRefused.TheVariants.{Memory};

    ghost from_gives = { λ _ e. e ≡ Memory };

    fn from(_error: AllocFailed<T>) -> MissionRefused {
        MissionRefused::Memory
    }
}
