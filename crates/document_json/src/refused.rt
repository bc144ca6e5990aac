// What is wrong with a document.
ghost use Rattle.std.specs.Prelude.{◌≡◌};

use document_shapes::ShapeRefused;
use legal_state::Illegal;
use mission_table::{MissionRefused, TrainRefused};
use section_marks::MarkRefused;
use std::alloc::{AllocError, AllocFailed};
use track_layout::LayoutRefused;

/// Why bytes are no document: the first thing wrong with them, in this order. Tables go by number, counted from 0.
#[derive(Clone, Copy)]
pub enum DocRefused {
    /// Memory ran out.
    Memory,
    /// No JSON, an unknown version, or a member of another shape.
    Shape(ShapeRefused),
    /// No layout.
    Layout(LayoutRefused),
    /// No trains.
    Trains(TrainRefused),
    /// No table, or more than 16.
    Tables {
        count: usize,
    },
    /// Table 0 is due after moves, or another table after more than 1,000,000.
    After {
        table: usize,
        value: u32,
    },
    /// A table's missions.
    Missions {
        table: usize,
        refused: MissionRefused,
    },
    /// A table's sections or connections.
    Marks {
        table: usize,
        refused: MarkRefused,
    },
    /// Another number of lists of times than trains, or the first train without one time per step.
    TimesLength {
        table: usize,
        train: usize,
        count: usize,
    },
    /// The first time that isn't 1 to 1,000.
    TimesValue {
        table: usize,
        train: u32,
        place: u32,
        value: u32,
    },
    /// Another number of positions than trains.
    StartLength {
        count: usize,
    },
    /// The start is illegal under table 0.
    Start(Illegal),
}

impl From<AllocError> for DocRefused {
    ghost use Rattle.document_json.specs.declared.refused.DocRefused.TheVariants.{Memory};

    ghost from_gives = { λ _ e. e ≡ Memory };

    fn from(_error: AllocError) -> DocRefused {
        DocRefused::Memory
    }
}

impl<T: Drop> From<AllocFailed<T>> for DocRefused {
    ghost use Rattle.document_json.specs.declared.refused.DocRefused.TheVariants.{Memory};

    ghost from_gives = { λ _ e. e ≡ Memory };

    fn from(_error: AllocFailed<T>) -> DocRefused {
        DocRefused::Memory
    }
}
