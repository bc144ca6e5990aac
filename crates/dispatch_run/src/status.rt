// How a call ends.
ghost use Rattle.std.specs.Prelude.{◌≡◌};
ghost use Rattle.dispatch_run.specs.Ending.{code};

/// How a call ends.
#[derive(Clone, Copy)]
pub enum Status {
    /// The session was served to its end.
    Done,
    /// The words are refused.
    Words,
    /// There was no memory.
    Memory,
    /// The header or its document is refused.
    Refused,
    /// A certificate has a bad node.
    BadCertificate,
    /// The source failed.
    ReadFault,
    /// The sink failed.
    WriteFault,
    /// The journal is refused.
    BadJournal,
}

/// The exit code of a status: that of `ats`.
pub fn code(status: Status) -> u8
    ensures { result ≡ code status }
{
    match status {
        Status::Done => 0,
        Status::Words => 1,
        Status::Memory => 2,
        Status::Refused => 3,
        Status::BadCertificate => 4,
        Status::ReadFault => 7,
        Status::WriteFault => 8,
        Status::BadJournal => 9,
    }
}
