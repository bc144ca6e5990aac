// Names of points, and the changes that make the shares that a train has of a section.
ghost use Rattle.std.specs.Prelude.{◌≡◌, IfOk, bytes_eq, string_bytes};
ghost use Rattle.plan_document.specs.Shares as spec;

use rail_model::Changes;
use std::alloc::{AllocError, Global};

/// Whether a name is this one.
pub(crate) fn is_called(known: &String, name: &str) -> bool
    ensures { result ≡ bytes_eq name.now (string_bytes known.now) }
{
    name == known.as_str()
}

/// Whether a name is one of these.
pub fn is_among(names: &[String], name: &str) -> bool
    ensures { result ≡ spec.is_among names.now name.now }
{
    names.iter().any(|known| is_called(known, name))
}

/// The share at a place; nothing after the last.
pub fn share_at(shares: &[u8], place: usize) -> u8
    ensures { result ≡ spec.share_at shares.now place }
{
    match shares.get(place) {
        Some(share) => *share,
        None => 0,
    }
}

// The share at the place before; nothing before the first.
fn share_before(shares: &[u8], place: usize) -> u8
    ensures { result ≡ spec.share_before shares.now place }
{
    if place == 0 {
        0
    } else {
        share_at(shares, place - 1)
    }
}

// By how much the share rises at a place.
fn change_at(shares: &[u8], place: usize) -> i32
    ensures { result ≡ spec.change_at shares.now place }
{
    let before = share_before(shares, place);
    i32::from(share_at(shares, place)) - i32::from(before)
}

/// The changes that make these shares, one for each place.
pub(crate) fn changes(alloc: Global, shares: &[u8]) -> Result<Changes, AllocError>
    ensures { IfOk result (λ c. c ≡ spec.changes shares.now) }
{
    let mut found = Vec::new(alloc);
    for place in 0..shares.len() {
        found.push(change_at(shares, place))?;
    }
    Ok(Changes::from(found))
}
