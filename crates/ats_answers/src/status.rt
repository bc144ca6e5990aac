// How a call ends.
ghost use Rattle.std.specs.Prelude.{◌≡◌};
ghost use Rattle.ats_answers.specs.Ending.{code};

/// How a call ends, in the order of the exit codes 0 to 9.
#[derive(Clone, Copy, PartialEq, Eq)]
pub enum Status {
    /// All was done and written.
    Done,
    /// The words are refused.
    Words,
    /// There was no memory.
    Memory,
    /// The document, a tree, or what was derived of them is refused, or the input is too long.
    Refused,
    /// A certificate has a bad node.
    BadCertificate,
    /// The maker's budget is spent.
    Spent,
    /// The maker found a stuck state.
    Stuck,
    /// The source failed.
    ReadFault,
    /// The sink failed.
    WriteFault,
    /// The journal is refused.
    BadJournal,
}

/// The exit code of a status.
pub fn code(status: Status) -> u8
    ensures { result ≡ code status }
{
    match status {
        Status::Done => 0,
        Status::Words => 1,
        Status::Memory => 2,
        Status::Refused => 3,
        Status::BadCertificate => 4,
        Status::Spent => 5,
        Status::Stuck => 6,
        Status::ReadFault => 7,
        Status::WriteFault => 8,
        Status::BadJournal => 9,
    }
}
