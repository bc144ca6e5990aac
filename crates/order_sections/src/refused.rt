// Why no sections are added.
ghost use Rattle.std.specs.Prelude.{◌≡◌};

use section_marks::MarkRefused;
use std::alloc::{AllocError, AllocFailed};

/// Why no sections are added.
#[derive(Clone, Copy, Debug, PartialEq, Eq)]
pub enum OrderRefused {
    /// Memory ran out.
    Memory,
    /// What was found didn't pass a test. That isn't known to happen if the start is legal.
    Untrue,
}

impl From<AllocError> for OrderRefused {
    ghost use Rattle.order_sections.specs.declared.refused.OrderRefused.TheVariants.{Memory};

    ghost from_gives = { λ _ e. e ≡ Memory };

    fn from(_error: AllocError) -> OrderRefused {
        OrderRefused::Memory
    }
}

impl<T: Drop> From<AllocFailed<T>> for OrderRefused {
    ghost use Rattle.order_sections.specs.declared.refused.OrderRefused.TheVariants.{Memory};

    ghost from_gives = { λ _ e. e ≡ Memory };

    fn from(_error: AllocFailed<T>) -> OrderRefused {
        OrderRefused::Memory
    }
}

impl From<MarkRefused> for OrderRefused {
    ghost use Rattle.order_sections.specs.declared.refused.OrderRefused.TheVariants.{Untrue};

    ghost from_gives = { λ _ e. e ≡ Untrue };

    fn from(_error: MarkRefused) -> OrderRefused {
        OrderRefused::Untrue
    }
}
