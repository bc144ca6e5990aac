// The bytes of a header, part by part.
ghost use Rattle.std.specs.Prelude.{◌≡◌, ◌↔◌, IsTrue, OnOk};
ghost use Rattle.live_header.specs.Scan as spec;
ghost use Rattle.live_header.specs.declared.scanning.Stage.TheVariants.{Live as LiveStage};

use crate::naming::is_live;
use std::alloc::AllocError;
use std::marker::Model;

/// The part of a header that is read.
#[derive(Clone, Copy, Debug, PartialEq, Eq)]
pub enum Stage {
    /// The document, up to the line `journal`.
    Document,
    /// The journal, up to a line that begins the session.
    Journal,
    /// The session.
    Live,
}

/// A header as far as it is read: the bytes of the document and of the journal, the line that begins the session, and
/// the bytes of the line that has begun. What follows the header is such a line too.
#[derive(Drop)]
pub struct Header {
    stage: Stage,
    document: Vec<u8>,
    journal: Vec<u8>,
    live: Vec<u8>,
    line: Vec<u8>,
}

impl Model for Header {
    ghost Value = { spec.Header };

    ghost view = { λ h. record {
      stage = h.stage;
      document = h.document.items;
      journal = h.journal.items;
      live = h.live.items;
      line =
          h.line.items;
    } };
}

impl Header {
    /// A header that begins after these bytes of its document.
    pub fn new(document: Vec<u8>) -> Self
        ensures { result ≡ spec.started document.items }
    {
        let alloc = *document.allocator();
        Header {
            stage: Stage::Document,
            document,
            journal: Vec::new(alloc),
            live: Vec::new(alloc),
            line: Vec::new(alloc),
        }
    }

    /// The part that is read.
    pub fn stage(&self) -> Stage
        ensures { result ≡ self.now.stage }
    {
        self.stage
    }

    /// Whether the line was read that begins the session.
    pub fn is_whole(&self) -> bool
        ensures { IsTrue result ↔ (self.now.stage ≡ LiveStage) }
    {
        matches!(self.stage, Stage::Live)
    }

    /// The bytes of the document.
    pub fn document(&self) -> &[u8]
        ensures { result.now ≡ self.now.document }
    {
        &self.document
    }

    /// The bytes of the journal.
    pub fn journal(&self) -> &[u8]
        ensures { result.now ≡ self.now.journal }
    {
        &self.journal
    }

    /// The line that begins the session, without its newline.
    pub fn live(&self) -> &[u8]
        ensures { result.now ≡ self.now.live }
    {
        &self.live
    }

    /// The bytes after the header.
    pub fn rest(&self) -> &[u8]
        ensures { result.now ≡ self.now.line }
    {
        &self.line
    }

    /// Goes on by bytes.
    pub fn hear(&mut self, bytes: &[u8]) -> Result<(), AllocError>
        ensures { OnOk result (self.new ≡ spec.after_bytes self.old bytes.now) }
    {
        for byte in bytes {
            self.hear_byte(*byte)?;
        }
        Ok(())
    }

    // Goes on by a byte.
    fn hear_byte(&mut self, byte: u8) -> Result<(), AllocError>
        ensures { OnOk result (self.new ≡ spec.after_byte self.old byte) }
    {
        if byte == b'\n' {
            return self.end_line();
        }
        self.line.push(byte)?;
        Ok(())
    }

    // Goes on by a newline.
    fn end_line(&mut self) -> Result<(), AllocError>
        ensures { OnOk result (self.new ≡ spec.after_newline self.old) }
    {
        match self.stage {
            Stage::Document => self.end_document_line(),
            Stage::Journal => self.end_journal_line(),
            Stage::Live => {
                self.line.push(b'\n')?;
                Ok(())
            }
        }
    }

    // Goes on by a newline in the document.
    fn end_document_line(&mut self) -> Result<(), AllocError>
        ensures { OnOk result (self.new ≡ spec.after_document_line self.old) }
    {
        if self.line.as_slice() == b"journal".as_slice() {
            self.stage = Stage::Journal;
        } else {
            self.document.extend_from_slice(&self.line)?;
            self.document.push(b'\n')?;
        }
        self.line.clear();
        Ok(())
    }

    // Goes on by a newline in the journal.
    fn end_journal_line(&mut self) -> Result<(), AllocError>
        ensures { OnOk result (self.new ≡ spec.after_journal_line self.old) }
    {
        if is_live(&self.line) {
            self.stage = Stage::Live;
            self.live.clear();
            self.live.extend_from_slice(&self.line)?;
        } else {
            self.journal.extend_from_slice(&self.line)?;
            self.journal.push(b'\n')?;
        }
        self.line.clear();
        Ok(())
    }
}
