// Bytes that are given from the front.
ghost use Rattle.std.specs.Prelude.{◌≡◌, ◌≤◌, ◌++◌, ℕ, List, length, take, drop, min, vec_len};

use std::marker::Model;

/// The bytes of a source, and how many of them were given.
#[derive(Drop)]
pub(super) struct Stock {
    bytes: Vec<u8>,
    given: usize,
}

impl Model for Stock {
    ghost Value = { List ℕ };

    ghost view = { λ s. drop s.given s.bytes.items };

    ghost invariant = { λ s. s.given ≤ vec_len s.bytes };
}

impl Stock {
    pub(super) fn new(bytes: Vec<u8>) -> Self
        ensures { result ≡ bytes.items }
    {
        Stock { bytes, given: 0 }
    }

    /// The bytes that are left.
    pub(super) fn left(&self) -> &[u8]
        ensures { result.now ≡ self.now }
    {
        &self.bytes[self.given..]
    }

    /// Gives as many bytes as are left, fit in `buf`, and are at most `most`.
    pub(super) fn give(&mut self, buf: &mut [u8], most: usize) -> usize
        ensures count { result ≡ min (length buf.new) (min most (length self.old)) }
        ensures given { self.old ≡ take result buf.new ++ self.new }
    {
        let left = &self.bytes[self.given..];
        let count = buf.len().min(most.min(left.len()));
        buf[..count].copy_from_slice(&left[..count]);
        self.given += count;
        count
    }
}
