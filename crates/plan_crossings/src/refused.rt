// Why there are no sections.
ghost use Rattle.std.specs.Prelude.{◌≡◌};

use std::alloc::{AllocError, AllocFailed};

/// What is wrong with a crossing.
#[derive(Clone, Copy)]
pub enum Fault {
    /// A way has no point between its ends, and a train is never between two points.
    NoInner { way: usize },
    /// Two parallel ways have a point between their ends in common.
    Common { way: usize, other: usize },
    /// A train comes to a point of the crossing by none of its ways.
    Stray { train: usize, place: usize },
}

/// Why there are no sections.
#[derive(Clone, Copy)]
pub enum Refused {
    /// Something is wrong with a crossing.
    Faulty { crossing: usize, fault: Fault },
    /// So many sections would do, which is more than there is room for.
    Many { crossing: usize, count: usize },
    /// Memory ran out.
    Memory,
}

impl From<AllocError> for Refused {
    ghost use Rattle.plan_crossings.specs.declared.refused.Refused.TheVariants.{Memory};

    ghost from_gives = { λ _ e. e ≡ Memory };

    fn from(_error: AllocError) -> Refused {
        Refused::Memory
    }
}

impl<T: Drop> From<AllocFailed<T>> for Refused {
    ghost use Rattle.plan_crossings.specs.declared.refused.Refused.TheVariants.{Memory};

    ghost from_gives = { λ _ e. e ≡ Memory };

    fn from(_error: AllocFailed<T>) -> Refused {
        Refused::Memory
    }
}
