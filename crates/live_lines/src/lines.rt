// Lines of the output: words behind a tag, and lines of the journal.
ghost use Rattle.std.specs.Prelude.{◌≡◌, ◌++◌, OnOk, codes, decimal};
ghost use Rattle.rail_model.specs.Journal.{words};
ghost use Rattle.move_journal.specs.Printable.{IsNamed};
ghost use Rattle.live_lines.specs.Lines as spec;

use crate::Page;
use move_journal::push_line;
use rail_model::{Line, Names};
use std::alloc::{AllocError, Global};

// Adds a tag and the blank after it; nothing where there is no tag.
fn push_tag(out: &mut Vec<u8>, tag: &[u8]) -> Result<(), AllocError>
    ensures { OnOk result (out.new.items ≡ out.old.items ++ spec.tag_words tag.now) }
{
    if tag.is_empty() {
        return Ok(());
    }
    out.extend_from_slice(tag)?;
    out.extend_from_slice(b" ")
}

/// Adds a line: its tag, where it has one, and its words.
pub(crate) fn push_words(out: &mut Vec<u8>, tag: &[u8], words: &str) -> Result<(), AllocError>
    ensures { OnOk result (out.new.items ≡ out.old.items ++ spec.line_of tag.now words.now) }
{
    push_tag(out, tag)?;
    out.extend_from_slice(words.as_bytes())?;
    out.extend_from_slice(b"\n")
}

/// Adds a line of the journal, with its number.
pub fn push_journal_line(
    alloc: Global,
    out: &mut Vec<u8>,
    names: &Names,
    number: u64,
    line: &Line,
) -> Result<(), AllocError>
    requires { IsNamed names.now line.now }
    ensures { OnOk result (out.new.items ≡ out.old.items ++ (decimal number ++ words names.now line.now
        ++ codes "\n")) }
{
    let mut text = String::new(alloc);
    push_line(&mut text, names, number, line)?;
    out.extend_from_slice(text.as_bytes())
}

impl<'a> Page<'a> {
    /// Adds a line of the journal as a row, behind the tag of its request.
    pub fn push_journal_row(
        &self,
        out: &mut Vec<u8>,
        number: u64,
        line: &Line,
    ) -> Result<(), AllocError>
        requires { IsNamed self.now.names.now line.now }
        ensures { OnOk result (out.new.items ≡ out.old.items ++ spec.line_of self.now.tag.now
            (codes "| " ++ decimal number ++ words self.now.names.now line.now)) }
    {
        push_tag(out, self.tag)?;
        out.extend_from_slice(b"| ")?;
        push_journal_line(self.alloc, out, self.names, number, line)
    }
}
