// Who answers lines, and why there may be no answer.
ghost use Rattle.std.specs.Prelude.{◌≡◌, ◌++◌, ℕ, List, IfOk, OnOk};
ghost use Rattle.line_service.specs.declared.server.Course.{Course as CourseValue};
ghost use Rattle.line_service.specs.declared.server.ServeFault.TheVariants.{Memory};

use std::alloc::{AllocError, AllocFailed};

/// What becomes of a session after a line.
#[derive(Clone, Copy)]
pub enum Course {
    GoesOn,
    Ends,
}

/// Answers lines. What a line is answered with is a relation: the server, the line, the server after it, the text,
/// and whether the session goes on.
pub trait LineServer {
    ghost answers: { Self → List ℕ → Self → List ℕ → CourseValue → Type 0 };

    /// What is written last in a session that ends with this server.
    ghost last: { Self → List ℕ };

    /// Answers a line, which has no newline and no carriage return at its end: adds the answer to the text.
    fn answer(&mut self, line: &[u8], text: &mut Vec<u8>) -> Result<Course, AllocError>
        ensures { IfOk result (λ course. (added : List ℕ)
            × answers self.old line.now self.new added course × (text.new.items ≡ text.old.items ++ added)) };

    /// Adds what is written last.
    fn end(&self, text: &mut Vec<u8>) -> Result<(), AllocError>
        ensures { OnOk result (text.new.items ≡ text.old.items ++ last self.now) };
}

/// Why a service broke off.
#[derive(Clone, Copy)]
pub enum ServeFault {
    /// There was no memory.
    Memory,
    /// The source failed, or gave 2^64 - 1 pieces and no end.
    Read,
    /// The sink failed.
    Write,
}

impl From<AllocError> for ServeFault {
    ghost from_gives = { λ _ e. e ≡ Memory };

    fn from(_: AllocError) -> Self {
        ServeFault::Memory
    }
}

impl<T: Drop> From<AllocFailed<T>> for ServeFault {
    ghost from_gives = { λ _ e. e ≡ Memory };

    fn from(_: AllocFailed<T>) -> Self {
        ServeFault::Memory
    }
}
