// What a delay is, and why there is none.
use std::alloc::{AllocError, AllocFailed};

/// A delay: the train, the point that it comes to later, and by how many ticks.
#[derive(Clone, Copy)]
pub struct Delay<'a> {
    pub train: &'a str,
    pub point: &'a str,
    pub ticks: u32,
}

/// Why there is no such delay.
#[derive(Clone, Copy, Debug, PartialEq, Eq)]
pub enum NotDelayed {
    /// There is no memory.
    Memory,
    /// No train is called so.
    NoTrain,
    /// The train's way leads to no point that is called so, under no table.
    NoPoint,
    /// The step there takes so many ticks already, and with the delay it would take more than 1,000.
    TooLong { takes: u32 },
}

impl From<AllocError> for NotDelayed {
    ghost use Rattle.std.specs.Prelude.{◌≡◌};
    ghost use Rattle.delayed_documents.specs.declared.delay.NotDelayed.TheVariants.{Memory};

    ghost from_gives = { λ _ e. e ≡ Memory };

    fn from(_: AllocError) -> Self {
        NotDelayed::Memory
    }
}

impl<T: Drop> From<AllocFailed<T>> for NotDelayed {
    ghost use Rattle.std.specs.Prelude.{◌≡◌};
    ghost use Rattle.delayed_documents.specs.declared.delay.NotDelayed.TheVariants.{Memory};

    ghost from_gives = { λ _ e. e ≡ Memory };

    fn from(_: AllocFailed<T>) -> Self {
        NotDelayed::Memory
    }
}
