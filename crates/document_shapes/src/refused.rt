// Why bytes are not read.
ghost use Rattle.std.specs.Prelude.{◌≡◌};

use crate::Member;
use std::alloc::{AllocError, AllocFailed};

/// Why bytes are not the members of a document.
#[derive(Clone, Copy)]
pub enum ShapeRefused {
    /// The bytes are no JSON text.
    NotJson,
    /// A member is missing or has another shape; a member of a table with the table's number.
    Shape {
        table: Option<usize>,
        member: Member,
    },
    /// A version that is not known.
    Version {
        value: u32,
    },
    /// Memory ran out.
    Memory,
}

/// Why a value is not read: it has another shape, or memory ran out.
#[derive(Clone, Copy)]
pub(crate) enum Misfit {
    Shape,
    Memory,
}

impl From<AllocError> for Misfit {
    ghost use Rattle.document_shapes.specs.declared.refused.Misfit.TheVariants.{Memory};

    ghost from_gives = { λ _ e. e ≡ Memory };

    fn from(_error: AllocError) -> Misfit {
        Misfit::Memory
    }
}

impl<T: Drop> From<AllocFailed<T>> for Misfit {
    ghost use Rattle.document_shapes.specs.declared.refused.Misfit.TheVariants.{Memory};

    ghost from_gives = { λ _ e. e ≡ Memory };

    fn from(_error: AllocFailed<T>) -> Misfit {
        Misfit::Memory
    }
}

impl<T: Drop> From<AllocFailed<T>> for ShapeRefused {
    ghost use Rattle.document_shapes.specs.declared.refused.ShapeRefused.TheVariants.{Memory};

    ghost from_gives = { λ _ e. e ≡ Memory };

    fn from(_error: AllocFailed<T>) -> ShapeRefused {
        ShapeRefused::Memory
    }
}

impl From<AllocError> for ShapeRefused {
    ghost use Rattle.document_shapes.specs.declared.refused.ShapeRefused.TheVariants.{Memory};

    ghost from_gives = { λ _ e. e ≡ Memory };

    fn from(_error: AllocError) -> ShapeRefused {
        ShapeRefused::Memory
    }
}
