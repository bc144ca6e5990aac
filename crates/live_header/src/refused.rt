// Why a header begins no session.
ghost use Rattle.std.specs.Prelude.{◌≡◌};
ghost use Rattle.live_header.specs.Refusing.{refused_document, refused_journal};
ghost use Rattle.live_header.specs.declared.refused.Refused.TheVariants.{Memory as NoMemory};

use accepted_documents::{BadJournal, Unaccepted};
use cert_tree::CertRefused;
use document_json::DocRefused;
use move_journal::{BadLine, BadText};
use rail_model::Bad;
use std::alloc::AllocError;

/// Why a whole header begins no session: the first cause, in this order.
#[derive(Clone, Copy)]
pub enum Refused {
    /// There was no memory.
    Memory,
    /// The header names another document.
    Other,
    /// The bytes are no document.
    Document(DocRefused),
    /// The nodes of a table spell no tree.
    Tree { table: u32, refused: CertRefused },
    /// A table's certificate has a bad node, the first of which this is.
    Certificate { table: u32, bad: Bad },
    /// The bytes of the journal are no front of a journal's text, and no journal's text.
    Text(BadText),
    /// The journal isn't right, or isn't whole where it has an end.
    Line(BadLine),
}

impl From<AllocError> for Refused {
    ghost from_gives = { λ _ e. e ≡ NoMemory };

    fn from(_: AllocError) -> Self {
        Refused::Memory
    }
}

impl From<Unaccepted> for Refused {
    ghost from_gives = { λ cause e. e ≡ refused_document cause };

    fn from(cause: Unaccepted) -> Self {
        match cause {
            Unaccepted::Memory => Refused::Memory,
            Unaccepted::Document(refused) => Refused::Document(refused),
            Unaccepted::Tree { table, refused } => Refused::Tree { table, refused },
            Unaccepted::Certificate { table, bad } => Refused::Certificate { table, bad },
        }
    }
}

impl From<BadJournal> for Refused {
    ghost from_gives = { λ cause e. e ≡ refused_journal cause };

    fn from(cause: BadJournal) -> Self {
        match cause {
            BadJournal::Memory => Refused::Memory,
            BadJournal::Text(fault) => Refused::Text(fault),
            BadJournal::Line(fault) => Refused::Line(fault),
        }
    }
}
