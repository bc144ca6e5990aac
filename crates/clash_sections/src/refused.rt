// Why there are no sections.
ghost use Rattle.std.specs.Prelude.{◌≡◌};

use std::alloc::{AllocError, AllocFailed};

/// Why there are no sections that forbid exactly the clashes.
#[derive(Clone, Copy)]
pub enum Refused {
    /// More than 64 sections would be needed: so many were found.
    Many { count: usize },
    /// A stand that clashes with another one is free of itself, so that any number of trains may be on it.
    FreeOfItself { stand: usize, other: usize },
    /// Memory ran out.
    Memory,
}

impl From<AllocError> for Refused {
    ghost use Rattle.clash_sections.specs.declared.refused.Refused.TheVariants.{Memory};

    ghost from_gives = { λ _ e. e ≡ Memory };

    fn from(_error: AllocError) -> Refused {
        Refused::Memory
    }
}

impl<T: Drop> From<AllocFailed<T>> for Refused {
    ghost use Rattle.clash_sections.specs.declared.refused.Refused.TheVariants.{Memory};

    ghost from_gives = { λ _ e. e ≡ Memory };

    fn from(_error: AllocFailed<T>) -> Refused {
        Refused::Memory
    }
}
