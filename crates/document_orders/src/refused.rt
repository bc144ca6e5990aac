// Why a document gets no orders.
use order_sections::OrderRefused;
use std::alloc::{AllocError, AllocFailed};

/// Why a document gets no orders.
#[derive(Clone, Copy, Debug, PartialEq, Eq)]
pub enum NotOrdered {
    /// There is no memory.
    Memory,
    /// No table has room for a section, or none for all sections of an order.
    NoRoom,
    /// What was found didn't pass a test. That isn't known to happen.
    Untrue,
}

impl From<AllocError> for NotOrdered {
    ghost use Rattle.std.specs.Prelude.{◌≡◌};
    ghost use Rattle.document_orders.specs.declared.refused.NotOrdered.TheVariants.{Memory};

    ghost from_gives = { λ _ e. e ≡ Memory };

    fn from(_: AllocError) -> Self {
        NotOrdered::Memory
    }
}

impl<T: Drop> From<AllocFailed<T>> for NotOrdered {
    ghost use Rattle.std.specs.Prelude.{◌≡◌};
    ghost use Rattle.document_orders.specs.declared.refused.NotOrdered.TheVariants.{Memory};

    ghost from_gives = { λ _ e. e ≡ Memory };

    fn from(_: AllocFailed<T>) -> Self {
        NotOrdered::Memory
    }
}

impl From<OrderRefused> for NotOrdered {
    ghost from_gives = { λ _ _. Unit {0} };

    fn from(refused: OrderRefused) -> Self {
        match refused {
            OrderRefused::Memory => NotOrdered::Memory,
            OrderRefused::Untrue => NotOrdered::Untrue,
        }
    }
}
