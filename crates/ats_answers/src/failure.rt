// Why a call did not end well.
ghost use Rattle.std.specs.Prelude.{◌≡◌};
ghost use Rattle.ats_answers.specs.Ending.{failure_of_document, failure_of_journal};
ghost use Rattle.ats_answers.specs.declared.failure.Failure.TheVariants.{Memory as NoMemory};

use crate::Status;
use accepted_documents::{BadJournal, Unaccepted};
use cert_tree::CertRefused;
use document_json::DocRefused;
use move_journal::{BadLine, BadText};
use rail_model::{Bad, State};
use std::alloc::{AllocError, AllocFailed};

/// What one line on the error sink says.
#[derive(Drop)]
pub enum Failure {
    /// The words ask for no order.
    Words,
    /// There was no memory.
    Memory,
    /// The source failed before its end.
    ReadFault,
    /// The sink failed before it took the whole text.
    WriteFault,
    /// The source held more than 16,777,216 bytes.
    TooLong,
    /// The bytes are no document.
    Document(DocRefused),
    /// The nodes of a table spell no tree.
    Tree { table: u32, refused: CertRefused },
    /// A table's certificate has a bad node, the first of which this is.
    Certificate { table: u32, bad: Bad },
    /// The maker's budget of nodes was spent on a table.
    Spent { table: u32, nodes: u32 },
    /// The maker found a state of a table from which no train can move.
    Stuck { table: u32, at: State },
    /// A repair of a table treated as many stuck states as it may, and there is one more.
    Rounds { table: u32, rounds: u32, at: State },
    /// A table would have more sections than it may.
    Many { table: u32, count: u32 },
    /// A table has a connection, and can't be repaired.
    Connected { table: u32 },
    /// No line parts a document from a journal.
    NoJournal,
    /// The bytes after that line are no journal's text.
    Text(BadText),
    /// The journal isn't right, or isn't whole.
    Line(BadLine),
}

impl From<AllocError> for Failure {
    ghost from_gives = { λ _ e. e ≡ NoMemory };

    fn from(_: AllocError) -> Self {
        Failure::Memory
    }
}

impl<T: Drop> From<AllocFailed<T>> for Failure {
    ghost from_gives = { λ _ e. e ≡ NoMemory };

    fn from(_: AllocFailed<T>) -> Self {
        Failure::Memory
    }
}

impl From<Unaccepted> for Failure {
    ghost from_gives = { λ cause e. e ≡ failure_of_document cause };

    fn from(cause: Unaccepted) -> Self {
        match cause {
            Unaccepted::Memory => Failure::Memory,
            Unaccepted::Document(refused) => Failure::Document(refused),
            Unaccepted::Tree { table, refused } => Failure::Tree { table, refused },
            Unaccepted::Certificate { table, bad } => Failure::Certificate { table, bad },
        }
    }
}

impl From<BadJournal> for Failure {
    ghost from_gives = { λ cause e. e ≡ failure_of_journal cause };

    fn from(cause: BadJournal) -> Self {
        match cause {
            BadJournal::Memory => Failure::Memory,
            BadJournal::Text(fault) => Failure::Text(fault),
            BadJournal::Line(fault) => Failure::Line(fault),
        }
    }
}

impl Failure {
    ghost use Rattle.ats_answers.specs.Ending.{status_of};

    /// The status of a call that ends so.
    pub fn status(&self) -> Status
        ensures { result ≡ status_of self.now }
    {
        match self {
            Failure::Words => Status::Words,
            Failure::Memory => Status::Memory,
            Failure::ReadFault => Status::ReadFault,
            Failure::WriteFault => Status::WriteFault,
            Failure::TooLong
            | Failure::Document(_)
            | Failure::Tree { .. }
            | Failure::Many { .. }
            | Failure::Connected { .. } => Status::Refused,
            Failure::Certificate { .. } => Status::BadCertificate,
            Failure::Spent { .. } | Failure::Rounds { .. } => Status::Spent,
            Failure::Stuck { .. } => Status::Stuck,
            Failure::NoJournal | Failure::Text(_) | Failure::Line(_) => Status::BadJournal,
        }
    }
}
