// Any writer of std as a sink.
ghost use Rattle.std.specs.Prelude.{◌≡◌, ◌≤◌, ◌<◌, length, take, IfOk, MatchResult, None};
ghost use Rattle.std.specs.Io.KnownBytes.{Appends};
ghost use Rattle.ats_io.specs.Adapted.{Adapted};
ghost use Rattle.ats_io.specs.Faults.{next_count};

use crate::{Failed, Sink};
use std::io::Write;
use std::marker::Model;

/// A writer, and how often it has failed. Each piece is written and flushed. As a sink it tells nothing
/// of its bytes.
#[derive(Drop)]
pub struct Writing<W> {
    inner: W,
    faults: u64,
}

impl<W> Model for Writing<W> {
    ghost Value = { Adapted W };

    ghost view = { λ s. record { inner = s.inner; faults = s.faults } };
}

impl<W: Write> Writing<W> {
    /// A sink over this writer, which hasn't failed yet.
    pub fn new(inner: W) -> Self
        ensures { result ≡ record { inner = inner; faults = 0 } }
    {
        Writing { inner, faults: 0 }
    }
}

impl<W: Write> Sink for Writing<W> {
    ghost taken = { λ _. None };

    ghost faults = { λ s. s.faults };

    /// Hands one write on to the writer, and flushes it.
    fn write(&mut self, piece: &[u8]) -> Result<usize, Failed>
        ensures within { IfOk result (λ count. count ≤ length piece.now) }
        ensures some { 0 < length piece.now → IfOk result (λ count. 0 < count) }
        ensures handed_on { IfOk result (λ count. Appends (W.contents self.old.inner) (W.contents self.new.inner) (take count piece.now)) }

        ensures counted { MatchResult result (λ _. self.new.faults ≡ self.old.faults) (λ _. self.new.faults ≡ next_count self.old.faults) }
        ensures never_falls { self.old.faults ≤ self.new.faults }
    {
        match write_and_flush(&mut self.inner, piece) {
            Ok(count) => Ok(count),
            Err(_) => {
                self.faults = self.faults.saturating_add(1);
                Err(Failed)
            }
        }
    }
}

// A device that takes nothing of a piece has failed, and so has one that refuses the flush.
fn write_and_flush<W: Write>(writer: &mut W, piece: &[u8]) -> Result<usize, Failed>
    ensures within { IfOk result (λ count. count ≤ length piece.now) }
    ensures some { 0 < length piece.now → IfOk result (λ count. 0 < count) }
    ensures handed_on { IfOk result (λ count. Appends (W.contents writer.old) (W.contents writer.new) (take count piece.now)) }
{
    let count = writer.write(piece).map_err(|_| Failed)?;
    if count == 0 && !piece.is_empty() {
        return Err(Failed);
    }
    writer.flush().map_err(|_| Failed)?;
    Ok(count)
}
