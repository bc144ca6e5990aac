// A source read to its end, and bytes written whole.
ghost use Rattle.std.specs.Prelude.{◌≡◌, ◌≤◌, ◌<◌, ◌+◌, ℕ, length, IfOk, IfSome, OnOk, OnErr, IsErrOf};
ghost use Rattle.std.specs.Io.KnownBytes.{IsAtEnd};
ghost use Rattle.ats_io.specs.Bytes.{Adds, AddsPrefix, ConsumesAtMost};
ghost use Rattle.ats_io.specs.Faults.{Rose};
ghost use Rattle.ats_io.specs.declared.whole.ReadAll.TheVariants.{Memory, ReadFault as Broken};

use crate::{Failed, Sink, Source};
use std::alloc::{AllocError, Global};

/// Why a source was not read to its end.
#[derive(Clone, Copy, Debug)]
pub enum ReadAll {
    /// There was no memory for the bytes.
    Memory,
    /// The source failed in this call.
    ReadFault,
    /// The source held more than `limit` bytes.
    TooLong { limit: usize },
}

impl From<AllocError> for ReadAll {
    ghost from_gives = { λ _ e. e ≡ Memory };

    fn from(_: AllocError) -> Self {
        ReadAll::Memory
    }
}

impl From<Failed> for ReadAll {
    ghost from_gives = { λ _ e. e ≡ Broken };

    fn from(_: Failed) -> Self {
        ReadAll::ReadFault
    }
}

/// A sink failed before it took all the bytes.
#[derive(Clone, Copy, Debug)]
pub struct WriteFault;

/// All the bytes that the source has left, if they are at most `limit`.
///
/// # Errors
///
/// More bytes than that; a fault of the source; out of memory.
pub fn read_all<S: Source>(alloc: Global, source: &mut S, limit: usize) -> Result<Vec<u8>, ReadAll>
    ensures bytes { IfOk result (λ bytes. IfSome (S.left source.old) (λ all. bytes.items ≡ all)) }
    ensures end { OnOk result (IsAtEnd (S.left source.new)) }
    ensures within { IfOk result (λ bytes. length bytes.items ≤ limit) }

    ensures too_long { (n : ℕ) → IsErrOf result (ReadAll.TooLong n) → IfSome (S.left source.old) (λ all. limit < length all) }
    ensures the_limit { (n : ℕ) → IsErrOf result (ReadAll.TooLong n) → n ≡ limit }
    ensures cause { IsErrOf result ReadAll.ReadFault → Rose (S.faults source.old) (S.faults source.new) }

    // Whatever the answer is.
    ensures at_most { ConsumesAtMost (limit + 1) (S.left source.old) (S.left source.new) }
    ensures never_falls { S.faults source.old ≤ S.faults source.new }
{
    let mut bytes = Vec::new(alloc);
    let mut piece = [0u8; 4096];
    while bytes.len() <= limit {
        // One byte past the limit shows that the source held more.
        let room = (limit - bytes.len()).min(piece.len() - 1) + 1;
        let count = source.read(&mut piece[..room])?;
        if count == 0 {
            return Ok(bytes);
        }
        bytes.extend_from_slice(&piece[..count])?;
    }
    Err(ReadAll::TooLong { limit })
}

/// Writes all the bytes. It takes no memory.
///
/// # Errors
///
/// A fault of the sink, which then has taken a first part of the bytes.
pub fn write_all<K: Sink>(sink: &mut K, bytes: &[u8]) -> Result<(), WriteFault>
    ensures all { OnOk result (Adds (K.taken sink.old) (K.taken sink.new) bytes.now) }

    ensures cause { OnErr result (Rose (K.faults sink.old) (K.faults sink.new)) }

    // Whatever the answer is.
    ensures prefix { AddsPrefix (K.taken sink.old) (K.taken sink.new) bytes.now }
    ensures never_falls { K.faults sink.old ≤ K.faults sink.new }
{
    let mut done = 0;
    while done < bytes.len() {
        match sink.write(&bytes[done..]) {
            Ok(count) => done += count,
            Err(_) => return Err(WriteFault),
        }
    }
    Ok(())
}
