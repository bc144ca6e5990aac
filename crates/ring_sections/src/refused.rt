// Why there is no list of circular waits.
ghost use Rattle.std.specs.Prelude.{◌≡◌};

use std::alloc::{AllocError, AllocFailed};

/// Why the circular waits are not listed.
#[derive(Clone, Copy, Debug, PartialEq, Eq)]
pub enum Rings {
    /// More than 64; `count` is 65.
    Many { count: u32 },
    /// Memory ran out.
    Memory,
}

impl From<AllocError> for Rings {
    ghost use Rattle.ring_sections.specs.declared.refused.Rings.TheVariants.{Memory};

    ghost from_gives = { λ _ e. e ≡ Memory };

    fn from(_error: AllocError) -> Rings {
        Rings::Memory
    }
}

impl<T: Drop> From<AllocFailed<T>> for Rings {
    ghost use Rattle.ring_sections.specs.declared.refused.Rings.TheVariants.{Memory};

    ghost from_gives = { λ _ e. e ≡ Memory };

    fn from(_error: AllocFailed<T>) -> Rings {
        Rings::Memory
    }
}
