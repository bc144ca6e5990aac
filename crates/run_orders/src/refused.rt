// Why a document gets no orders of a run, and how it is said.
ghost use Rattle.std.specs.Prelude.{◌≡◌};
ghost use Rattle.run_orders.specs.declared.refused.RunRefused.TheVariants.{Memory};

use document_json::DocRefused;
use move_journal::{BadLine, BadText};
use order_sections::OrderRefused;
use refusal_lines::{push_document, push_line, push_text};
use std::alloc::{AllocError, AllocFailed, Global};

/// Why a document gets no orders of a run.
#[derive(Drop)]
pub enum RunRefused {
    /// There is no memory.
    Memory,
    /// The input, or what comes before the line `journal`, is no document.
    Document(DocRefused),
    /// What follows the line `journal` isn't the text of a journal.
    Text(BadText),
    /// The journal isn't right, or lacks something at its end line.
    Line(BadLine),
    /// No run was drawn in which all trains arrive.
    NoRun,
    /// No table has room for a section, or none for all sections of an order.
    NoRoom,
    /// What was found didn't pass a test. That isn't known to happen.
    Untrue,
}

impl From<AllocError> for RunRefused {
    ghost from_gives = { λ _ e. e ≡ Memory };

    fn from(_: AllocError) -> Self {
        RunRefused::Memory
    }
}

impl<T: Drop> From<AllocFailed<T>> for RunRefused {
    ghost from_gives = { λ _ e. e ≡ Memory };

    fn from(_: AllocFailed<T>) -> Self {
        RunRefused::Memory
    }
}

impl From<BadLine> for RunRefused {
    ghost from_gives = { λ _ _. Unit {0} };

    fn from(bad: BadLine) -> Self {
        match bad {
            BadLine::Memory => RunRefused::Memory,
            bad => RunRefused::Line(bad),
        }
    }
}

impl From<OrderRefused> for RunRefused {
    ghost from_gives = { λ _ _. Unit {0} };

    fn from(refused: OrderRefused) -> Self {
        match refused {
            OrderRefused::Memory => RunRefused::Memory,
            OrderRefused::Untrue => RunRefused::Untrue,
        }
    }
}

const NO_RUN: &str =
    "no run was found in which all trains arrive; try another seed, or give the lines with which one begins";

const NO_ROOM: &str = "no room is left for a section: a table has at most 64";

const UNTRUE: &str = "what was found didn't pass its test; please report this document";

// Adds why a document gets no orders of a run.
fn push_refused(out: &mut String, refused: &RunRefused) -> Result<(), AllocError> {
    match refused {
        RunRefused::Memory => Err(AllocError),
        RunRefused::Document(refused) => {
            out.push_str("ats refuses the document: ")?;
            push_document(out, refused)
        }
        RunRefused::Text(fault) => {
            out.push_str("ats refuses the journal: ")?;
            push_text(out, fault)
        }
        RunRefused::Line(fault) => {
            out.push_str("ats refuses the journal: ")?;
            push_line(out, fault)
        }
        RunRefused::NoRun => out.push_str(NO_RUN),
        RunRefused::NoRoom => out.push_str(NO_ROOM),
        RunRefused::Untrue => out.push_str(UNTRUE),
    }
}

/// The line that says why a document gets no orders of a run. The only error is that there is no memory, also to make the orders.
pub fn refused_lines(alloc: Global, refused: &RunRefused) -> Result<String, AllocError> {
    let mut out = String::new(alloc);
    push_refused(&mut out, refused)?;
    out.push_str("\n")?;
    Ok(out)
}
