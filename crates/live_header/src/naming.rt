// The line that begins a session: whether trains report, and of which document it is.
ghost use Rattle.std.specs.Prelude.{◌≡◌};
ghost use Rattle.live_header.specs.Naming as spec;

const LIVE: &[u8] = b"live";

const REPORTS: &[u8] = b"live reports";

const LIVE_NAMED: &[u8] = b"live document=";

const REPORTS_NAMED: &[u8] = b"live reports document=";

/// Whether a line begins a session.
pub(crate) fn is_live(line: &[u8]) -> bool
    ensures { result ≡ spec.is_live line.now }
{
    line == LIVE
        || line == REPORTS
        || line.starts_with(LIVE_NAMED)
        || line.starts_with(REPORTS_NAMED)
}

/// Whether trains report in the session that a line begins.
pub(crate) fn has_reports(line: &[u8]) -> bool
    ensures { result ≡ spec.has_reports line.now }
{
    line.starts_with(REPORTS)
}

/// Whether a line that begins a session names no document, or the one of this hash.
pub(crate) fn suits(line: &[u8], hash: &str) -> bool
    ensures { result ≡ spec.suits line.now hash.now }
{
    if let Some(named) = line.strip_prefix(LIVE_NAMED) {
        return named == hash.as_bytes();
    }
    match line.strip_prefix(REPORTS_NAMED) {
        Some(named) => named == hash.as_bytes(),
        None => true,
    }
}
