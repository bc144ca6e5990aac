// Why a document gets no certificates.
ghost use Rattle.std.specs.Prelude.{◌≡◌};
ghost use Rattle.document_certificates.specs.declared.uncertified.Uncertified.TheVariants.{Memory};

use rail_model::State;
use std::alloc::{AllocError, AllocFailed};

/// Why a document gets no certificates.
#[derive(Drop)]
pub enum Uncertified {
    /// There is no memory.
    Memory,
    /// A state of a table is stuck.
    Stuck { table: u32, at: State },
    /// The searches for a table's certificate gave up, after this many nodes each.
    GaveUp { table: u32, nodes: u32 },
}

impl From<AllocError> for Uncertified {
    ghost from_gives = { λ _ e. e ≡ Memory };

    fn from(_: AllocError) -> Self {
        Uncertified::Memory
    }
}

impl<T: Drop> From<AllocFailed<T>> for Uncertified {
    ghost from_gives = { λ _ e. e ≡ Memory };

    fn from(_: AllocFailed<T>) -> Self {
        Uncertified::Memory
    }
}
