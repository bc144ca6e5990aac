// Words without markup.
ghost use Rattle.std.specs.Prelude.{◌≡◌, ◌++◌, OnOk};
ghost use Rattle.svg_text.specs.Text.{escape, escape_byte};

use std::alloc::AllocError;

/// Adds text as it is.
pub fn push_raw(out: &mut Vec<u8>, text: &str) -> Result<(), AllocError>
    ensures { OnOk result (out.new.items ≡ out.old.items ++ text.now) }
{
    out.extend_from_slice(text.as_bytes())
}

// Adds a byte, or the reference for it.
fn push_byte(out: &mut Vec<u8>, byte: u8) -> Result<(), AllocError>
    ensures { OnOk result (out.new.items ≡ out.old.items ++ escape_byte byte) }
{
    match byte {
        b'&' => push_raw(out, "&amp;"),
        b'<' => push_raw(out, "&lt;"),
        b'>' => push_raw(out, "&gt;"),
        b'"' => push_raw(out, "&quot;"),
        _ => Ok(out.push(byte)?),
    }
}

/// Adds words, with the references for `&`, `<`, `>` and `"`: in an element or in the value of an attribute they are read as these words.
pub fn push_escaped(out: &mut Vec<u8>, words: &str) -> Result<(), AllocError>
    ensures { OnOk result (out.new.items ≡ out.old.items ++ escape words.now) }
{
    for byte in words.as_bytes() {
        push_byte(out, *byte)?;
    }
    Ok(())
}
