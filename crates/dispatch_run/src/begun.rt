// A session at its beginning: what its header opens.
ghost use Rattle.std.specs.Prelude.{◌≡◌, ◌≤◌, ℕ, List, IfErr, IfOk, length};
ghost use Rattle.std.specs.Io.KnownBytes.{Consumes, IsAtEnd};
ghost use Rattle.ats_io.specs.Faults.{Rose};
ghost use Rattle.live_header.specs.Opening.{IsOpened};
ghost use Rattle.live_header.specs.Scan.{after_bytes, started};
ghost use Rattle.live_header.specs.declared.scanning.Stage.TheVariants.{Live};
ghost use Rattle.dispatch_run.specs.Beginning.{IsUnbegun, IsUnopened};

use crate::Failure;
use ats_io::Source;
use live_header::{Header, Opened, open_header, read_header};
use std::alloc::Global;

/// A header, and what it opens.
#[derive(Drop)]
pub(crate) struct Begun {
    pub header: Header,
    pub opened: Opened,
}

/// Reads a header, of whose document these bytes were read before, and opens it.
///
/// # Errors
///
/// There is no whole header; or it opens nothing.
pub(crate) fn begin<S: Source>(
    alloc: Global,
    document: Vec<u8>,
    source: &mut S,
) -> Result<Begun, Failure>
    ensures whole { IfOk result (λ begun. begun.header.stage ≡ Live) }
    ensures heard { IfOk result (λ begun. (heard : List ℕ) × Consumes (S.left source.old) (S.left source.new) heard
        × (begun.header ≡ after_bytes (started document.items) heard)) }
    ensures opened { IfOk result (λ begun. IsOpened begun.header begun.opened) }

    ensures refused { IfErr result (λ e. (heard : List ℕ) × Consumes (S.left source.old) (S.left source.new) heard
        × IsUnbegun (after_bytes (started document.items) heard) (length heard) (IsAtEnd (S.left source.new))
        (Rose (S.faults source.old) (S.faults source.new)) e) }

    ensures never_falls { S.faults source.old ≤ S.faults source.new }
{
    match read_header(document, source) {
        Ok(header) => open(alloc, header),
        Err(unread) => Err(Failure::Unread(unread)),
    }
}

// Opens a header.
fn open(alloc: Global, header: Header) -> Result<Begun, Failure>
    ensures header { IfOk result (λ begun. begun.header ≡ header) }
    ensures opened { IfOk result (λ begun. IsOpened header begun.opened) }

    ensures refused { IfErr result (IsUnopened header) }
{
    match open_header(alloc, &header) {
        Ok(opened) => Ok(Begun { header, opened }),
        Err(refused) => Err(Failure::Header(refused)),
    }
}
