// The session as a server of lines.
ghost use Rattle.std.specs.Prelude.{OnOk};
ghost use Rattle.live_answers.specs.Rows.{Says};
ghost use Rattle.live_session.specs.Answering.{IsOpening};

use crate::Session;
use crate::news::push_due;
use crate::status::exchanges_of;
use line_service::{Course, LineServer};
use live_lines::{hear, push_close};
use plain_yard::CheckedTable;
use std::alloc::AllocError;

impl<'a, A: CheckedTable> Session<'a, A> {
    /// Adds what is said at the start: the first line, and that a table is due.
    ///
    /// # Errors
    ///
    /// Out of memory.
    pub fn open(&self, text: &mut Vec<u8>) -> Result<(), AllocError>
        ensures { OnOk result (Says (IsOpening self.now) text.old.items text.new.items) }
    {
        self.push_ready(b"", text)?;
        let now = self.status();
        push_due(self.alloc, text, self.names, None, now.due)
    }
}

impl<'a, A: CheckedTable> LineServer for Session<'a, A> {
    ghost use Rattle.live_session.specs.Answering.{Answers, last_text};

    ghost answers = { Answers };

    ghost last = { last_text };

    fn answer(&mut self, line: &[u8], text: &mut Vec<u8>) -> Result<Course, AllocError> {
        let heard = hear(self.names, self.yard.yard().reports(), line);
        self.push_heard(line, heard, text)
    }

    fn end(&self, text: &mut Vec<u8>) -> Result<(), AllocError> {
        let counts = self.counts();
        let whole = counts.arrived == counts.trains && counts.of.saturating_sub(1) <= counts.tried;
        let tables = exchanges_of(self.lines()) as u32;
        push_close(self.alloc, text, whole, counts.moves, tables)
    }
}
