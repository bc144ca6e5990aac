// The last line.
ghost use Rattle.std.specs.Prelude.{◌≡◌, ◌++◌, OnOk, string_bytes};
ghost use Rattle.live_lines.specs.Lines as spec;

use crate::lines::push_words;
use std::alloc::{AllocError, Global};

// Adds the words of the last line.
fn write_close(out: &mut String, whole: bool, moves: u32, tables: u32) -> Result<(), AllocError>
    ensures { OnOk result (string_bytes out.new ≡ string_bytes out.old ++ spec.close_words whole moves tables) }
{
    if whole {
        write!(out, "end moves={moves} tables={tables}")
    } else {
        write!(out, "suspend moves={moves} tables={tables}")
    }
}

/// Adds the last line: the end line of a journal that is whole, or how far it has come.
pub fn push_close(
    alloc: Global,
    out: &mut Vec<u8>,
    whole: bool,
    moves: u32,
    tables: u32,
) -> Result<(), AllocError>
    ensures { OnOk result (out.new.items ≡ out.old.items ++ spec.close_text whole moves tables) }
{
    let mut words = String::new(alloc);
    write_close(&mut words, whole, moves, tables)?;
    push_words(out, b"", &words)
}
