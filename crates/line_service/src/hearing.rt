// Bytes that become lines.
ghost use Rattle.std.specs.Prelude.{◌≡◌, ◌++◌, ◌∷◌, [], OnOk};
ghost use Rattle.line_service.specs.Lines as lines;

use std::alloc::AllocFailed;

/// The most bytes of a line. Of a longer one a server is handed one byte more.
pub const MOST_BYTES: usize = 256;

/// The byte that ends a line.
pub(crate) const NEWLINE: u8 = b'\n';

// How many bytes of a line are kept: they show a carriage return after the most bytes that a line may have, and a
// byte after that.
const MOST_KEPT: usize = MOST_BYTES + 2;

// A line without the carriage return at its end.
fn without_return(line: &[u8]) -> &[u8]
    ensures { result.now ≡ lines.without_return line.entry.now }
{
    match line.last() {
        Some(b'\r') => &line[..line.len() - 1],
        _ => line,
    }
}

/// The bytes of a line as a server is handed them.
pub(crate) fn handed(begun: &[u8]) -> &[u8]
    ensures { result.now ≡ lines.handed begun.entry.now }
{
    let line = without_return(begun);
    &line[..line.len().min(MOST_BYTES + 1)]
}

/// Goes on with a line by a byte. Of a line that is too long only the first bytes are kept.
pub(crate) fn keep(begun: &mut Vec<u8>, byte: u8) -> Result<(), AllocFailed<u8>>
    ensures { OnOk result (begun.new.items ≡ lines.kept (begun.old.items ++ (byte ∷ []))) }
{
    begun.push(byte)?;
    begun.truncate(MOST_KEPT);
    Ok(())
}
