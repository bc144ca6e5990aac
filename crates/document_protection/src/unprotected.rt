// Why a document isn't protected.
use crate::Guards;
use rail_model::State;
use std::alloc::{AllocError, AllocFailed};

/// Why a table has no certificate.
#[derive(Drop)]
pub enum Why {
    /// The searches gave up, after this many nodes.
    GaveUp { nodes: u32 },
    /// This state is stuck, and there is no room for a section more.
    Full { at: State },
    /// This state is stuck, and no more guards were to be made.
    Spent { at: State },
}

/// Why a document isn't protected.
#[derive(Drop)]
pub enum Unprotected {
    /// There is no memory.
    Memory,
    /// The tables up to this one got these guards, and this one no certificate.
    Uncertified {
        table: u32,
        guards: Vec<Guards>,
        why: Why,
    },
    /// All tables got guards, and those of the first one forbid the start, so that not all trains can arrive from it.
    Start {
        guards: Vec<Guards>,
    },
}

impl From<AllocError> for Unprotected {
    ghost use Rattle.std.specs.Prelude.{◌≡◌};
    ghost use Rattle.document_protection.specs.declared.unprotected.Unprotected.TheVariants.{Memory};

    ghost from_gives = { λ _ e. e ≡ Memory };

    fn from(_: AllocError) -> Self {
        Unprotected::Memory
    }
}

impl<T: Drop> From<AllocFailed<T>> for Unprotected {
    ghost use Rattle.std.specs.Prelude.{◌≡◌};
    ghost use Rattle.document_protection.specs.declared.unprotected.Unprotected.TheVariants.{Memory};

    ghost from_gives = { λ _ e. e ≡ Memory };

    fn from(_: AllocFailed<T>) -> Self {
        Unprotected::Memory
    }
}
