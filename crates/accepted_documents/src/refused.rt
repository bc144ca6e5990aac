// Why a document isn't accepted, or a journal leads nowhere.
ghost use Rattle.std.specs.Prelude.{◌≡◌};
ghost use Rattle.accepted_documents.specs.Refusing.{bad_text, bad_line};
ghost use Rattle.accepted_documents.specs.declared.refused.Unaccepted.TheVariants.{Memory as NoMemory};

use cert_tree::CertRefused;
use document_json::DocRefused;
use move_journal::{BadLine, BadText};
use rail_model::Bad;
use std::alloc::AllocFailed;

/// Why bytes are no document whose tables accept their certificates: the first cause, in this order.
#[derive(Clone, Copy)]
pub enum Unaccepted {
    /// There was no memory.
    Memory,
    /// The bytes are no document.
    Document(DocRefused),
    /// The nodes of a table spell no tree.
    Tree { table: u32, refused: CertRefused },
    /// A table's certificate has a bad node, the first of which this is.
    Certificate { table: u32, bad: Bad },
}

impl<T: Drop> From<AllocFailed<T>> for Unaccepted {
    ghost from_gives = { λ _ e. e ≡ NoMemory };

    fn from(_: AllocFailed<T>) -> Self {
        Unaccepted::Memory
    }
}

/// Why bytes are no journal that leads anywhere.
#[derive(Clone, Copy)]
pub enum BadJournal {
    /// There was no memory.
    Memory,
    /// The bytes aren't the text that is wanted.
    Text(BadText),
    /// A line isn't right, or a journal with an end isn't whole.
    Line(BadLine),
}

impl From<BadText> for BadJournal {
    ghost from_gives = { λ cause e. e ≡ bad_text cause };

    fn from(cause: BadText) -> Self {
        match cause {
            BadText::Memory => BadJournal::Memory,
            cause => BadJournal::Text(cause),
        }
    }
}

impl From<BadLine> for BadJournal {
    ghost from_gives = { λ cause e. e ≡ bad_line cause };

    fn from(cause: BadLine) -> Self {
        match cause {
            BadLine::Memory => BadJournal::Memory,
            cause => BadJournal::Line(cause),
        }
    }
}
