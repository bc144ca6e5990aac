// Bytes that are kept in a room made before.
ghost use Rattle.ats_io.specs.declared.memory.room.TheConstants.{SINK_ROOM};
ghost use Rattle.std.specs.Prelude.{◌≡◌, ◌≤◌, ◌+◌, ◌++◌, [], ℕ, List, length, vec_len, vec_capacity, IfOk};

use std::alloc::{AllocError, Global};
use std::marker::Model;

/// How many bytes a sink in memory has room for.
pub const SINK_ROOM: usize = 1_048_576;

/// The bytes that a sink took. Its memory is taken when it is made, and never again.
#[derive(Drop)]
pub(super) struct Room {
    bytes: Vec<u8>,
}

impl Model for Room {
    ghost Value = { List ℕ };

    ghost view = { λ r. r.bytes.items };

    ghost invariant = { λ r. (vec_len r.bytes ≤ SINK_ROOM) × (SINK_ROOM ≤ vec_capacity r.bytes) };
}

impl Room {
    pub(super) fn new(alloc: Global) -> Result<Self, AllocError>
        ensures { IfOk result (λ r. r ≡ []) }
    {
        Ok(Room {
            bytes: Vec::with_capacity(alloc, SINK_ROOM)?,
        })
    }

    pub(super) fn bytes(&self) -> &[u8]
        ensures { result.now ≡ self.now }
    {
        &self.bytes
    }

    /// For how many further bytes there is room.
    pub(super) fn free(&self) -> usize
        ensures { length self.now + result ≡ SINK_ROOM }
    {
        SINK_ROOM - self.bytes.len()
    }

    /// Keeps these bytes too.
    pub(super) fn add(&mut self, piece: &[u8])
        requires { length self.old + length piece.now ≤ SINK_ROOM }
        ensures { self.new ≡ self.old ++ piece.now }
    {
        // There is room, so this takes no memory and isn't refused.
        let _ = self.bytes.extend_from_slice(piece);
    }
}
