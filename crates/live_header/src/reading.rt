// A header that is read as it comes.
ghost use Rattle.std.specs.Prelude.{◌≡◌, ◌≢◌, ◌<◌, ◌≤◌, ◌⊎◌, [], ℕ, List, IfErr, IfOk, length};
ghost use Rattle.std.specs.Io.KnownBytes.{Consumes, IsAtEnd};
ghost use Rattle.ats_io.specs.Faults.{Rose};
ghost use Rattle.live_header.specs.Scan.{after_bytes, started};
ghost use Rattle.live_header.specs.Reading.{IsMissing, IsUnread};
ghost use Rattle.live_header.specs.declared.scanning.Stage.TheVariants.{Live as LiveStage};
ghost use Rattle.live_header.specs.declared.reading.Unread.TheVariants.{Memory as NoMemory, ReadFault as Broken};

use crate::{Header, Stage};
use ats_io::{Failed, Source};
use std::alloc::AllocError;

/// The most bytes of a header.
pub const MOST_BYTES: usize = 16_777_216;

/// Why there is no whole header.
#[derive(Clone, Copy, Debug, PartialEq, Eq)]
pub enum Unread {
    /// There was no memory.
    Memory,
    /// The source failed.
    ReadFault,
    /// The source gave more than 16,777,216 bytes, and no whole header.
    TooLong,
    /// The source ended without a line `journal`.
    NoJournal,
    /// The source ended without a line that begins the session.
    NoLive,
}

// What a header lacks at the end of the source.
fn missing(header: &Header) -> Unread
    requires { header.now.stage ≢ LiveStage }
    ensures { IsMissing header.now.stage result }
{
    match header.stage() {
        Stage::Document => Unread::NoJournal,
        Stage::Journal | Stage::Live => Unread::NoLive,
    }
}

// Reads a piece of a header, of at most so many bytes, and says of how many. None is the end of the source.
fn read_piece<S: Source>(header: &mut Header, source: &mut S, most: usize) -> Result<usize, Unread>
    requires { 0 < most }
    ensures heard { IfOk result (λ count. (heard : List ℕ) × Consumes (S.left source.old) (S.left source.new) heard
        × (header.new ≡ after_bytes header.old heard) × (length heard ≡ count)) }
    ensures within { IfOk result (λ count. count ≤ most) }
    ensures end { IfOk result (λ count. count ≡ 0 → IsAtEnd (S.left source.new)) }

    ensures unread { IfErr result (λ e. (heard : List ℕ) × Consumes (S.left source.old) (S.left source.new) heard
        × ((e ≡ NoMemory) ⊎ ((e ≡ Broken) × (heard ≡ []) × Rose (S.faults source.old) (S.faults source.new)))) }

    ensures never_falls { S.faults source.old ≤ S.faults source.new }
{
    let mut piece = [0u8; 4096];
    let room = most.min(piece.len());
    match source.read(&mut piece[..room]) {
        Ok(count) => match header.hear(&piece[..count]) {
            Ok(()) => Ok(count),
            Err(AllocError) => Err(Unread::Memory),
        },
        Err(Failed) => Err(Unread::ReadFault),
    }
}

/// A header that begins after these bytes of its document. The source is read no further than the piece that ends the
/// header; what was read after the header is its rest.
///
/// # Errors
///
/// Each has its cause; being out of memory has none.
pub fn read_header<S: Source>(document: Vec<u8>, source: &mut S) -> Result<Header, Unread>
    ensures whole { IfOk result (λ header. header.stage ≡ LiveStage) }
    ensures heard { IfOk result (λ header. (heard : List ℕ)
        × Consumes (S.left source.old) (S.left source.new) heard
        × (header ≡ after_bytes (started document.items) heard)) }

    ensures unread { IfErr result (λ e. (heard : List ℕ) × Consumes (S.left source.old) (S.left source.new) heard
        × IsUnread (after_bytes (started document.items) heard).stage (length heard) (IsAtEnd (S.left source.new))
        (Rose (S.faults source.old) (S.faults source.new)) e) }

    ensures never_falls { S.faults source.old ≤ S.faults source.new }
{
    let mut header = Header::new(document);
    let mut heard = 0;
    while heard <= MOST_BYTES {
        if header.is_whole() {
            return Ok(header);
        }
        // One byte past the limit shows that the source held more.
        match read_piece(&mut header, source, MOST_BYTES - heard + 1) {
            Ok(0) => return Err(missing(&header)),
            Ok(count) => heard += count,
            Err(fault) => return Err(fault),
        }
    }
    Err(Unread::TooLong)
}
