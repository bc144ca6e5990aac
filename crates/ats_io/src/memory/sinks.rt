// Sinks in memory.
ghost use Rattle.std.specs.Prelude.{◌≡◌, ◌⊎◌, ◌≤◌, ◌<◌, ◌-◌, ◌++◌, ◌↔◌, [], ℕ, List, length, take, min, Option, Some, None, Ok, IfOk, OnErr, IsErr, MatchOption, if◌then◌else◌};
ghost use Rattle.ats_io.specs.Memory.{Store, MustFail, HasMade, IsFull, starting, after_pass, after_fault, told_after};

use super::plan::{Fails, Plan};
use super::room::{Room, SINK_ROOM};
use crate::{Failed, Sink};
use std::alloc::{AllocError, Global};
use std::marker::{Model, PhantomData};

/// A sink in memory that tells what it took. It takes at most `most` bytes a call, fails at the calls
/// whose numbers, from 0, are in a list, and where its room of 1,048,576 bytes is full.
#[derive(Drop)]
pub struct MemSink<P: Fails> {
    room: Room,
    most: usize,
    plan: Plan,
    of: PhantomData<P>,
}

impl<P: Fails> Model for MemSink<P> {
    ghost Value = { Store };

    ghost view = { λ s. record { taken = s.room; most = s.most; plan = s.plan } };

    ghost invariant = { λ s. (0 < s.most) × (s.plan.fails ≡ P.numbers) × (0 < s.plan.faults → HasMade s.plan.fails s.plan.call ⊎ IsFull s.room) };
}

impl<P: Fails> MemSink<P> {
    /// An empty sink that takes at most `most` bytes a call and fails at the calls `fails`.
    pub fn new(alloc: Global, most: usize, fails: Vec<u64>) -> Result<Self, AllocError>
        requires most { 0 < most }
        requires plan { fails.items ≡ P.numbers }
        ensures { IfOk result (λ sink. sink ≡ record { taken = []; most = most; plan = starting fails.items }) }
    {
        Ok(MemSink {
            room: Room::new(alloc)?,
            most,
            plan: Plan::new(fails),
            of: PhantomData,
        })
    }

    /// The bytes that were taken.
    pub fn bytes(&self) -> &[u8]
        ensures { result.now ≡ self.now.taken }
    {
        self.room.bytes()
    }

    /// How many calls there were.
    pub fn calls(&self) -> u64
        ensures count { result ≡ self.now.plan.call }
        ensures failed { 0 < self.now.plan.faults → HasMade P.numbers self.now.plan.call ⊎ IsFull self.now.taken }
    {
        self.plan.call()
    }
}

impl<P: Fails> Sink for MemSink<P> {
    ghost taken = { λ s. Some s.taken };

    ghost faults = { λ s. s.plan.faults };

    fn write(&mut self, piece: &[u8]) -> Result<usize, Failed>
        ensures fails { IsErr result ↔ MustFail self.old piece.now }
        ensures count { IfOk result (λ count. count ≡ min (length piece.now) (min self.old.most (SINK_ROOM - length self.old.taken))) }
        ensures some { 0 < length piece.now → IfOk result (λ count. 0 < count) }
        ensures ok { IfOk result (λ count. self.new ≡ record self.old
            { taken = self.old.taken ++ take count piece.now; plan = after_pass self.old.plan }) }

        ensures err { OnErr result (self.new ≡ record self.old { plan = after_fault self.old.plan }) }

        ensures never_falls { self.old.plan.faults ≤ self.new.plan.faults }
    {
        let free = self.room.free();
        let is_full = free == 0 && !piece.is_empty();
        if is_full || self.plan.is_fault_next() {
            self.plan.fail();
            return Err(Failed);
        }
        let count = piece.len().min(self.most.min(free));
        self.room.add(&piece[..count]);
        self.plan.pass();
        Ok(count)
    }
}

/// A sink in memory that never fails. It tells what it took until that passes its room of 1,048,576
/// bytes; from then on it goes on taking, and tells nothing any more.
#[derive(Drop)]
pub struct SureSink {
    room: Room,
    is_telling: bool,
}

impl Model for SureSink {
    ghost Value = { Option (List ℕ) };

    ghost view = { λ s. if s.is_telling then Some s.room else None };
}

impl SureSink {
    /// An empty sink.
    pub fn new(alloc: Global) -> Result<Self, AllocError>
        ensures { IfOk result (λ sink. sink ≡ Some []) }
    {
        Ok(SureSink {
            room: Room::new(alloc)?,
            is_telling: true,
        })
    }

    /// The bytes that were taken; `None` where they passed the room.
    pub fn bytes(&self) -> Option<&[u8]>
        ensures { MatchOption result (self.now ≡ None) (λ bytes. self.now ≡ Some bytes.now) }
    {
        if self.is_telling {
            Some(self.room.bytes())
        } else {
            None
        }
    }
}

impl Sink for SureSink {
    ghost taken = { λ s. s };

    ghost faults = { λ _. 0 };

    fn write(&mut self, piece: &[u8]) -> Result<usize, Failed>
        ensures all { result ≡ Ok (length piece.now) }
        ensures told { self.new ≡ told_after self.old piece.now }
    {
        self.is_telling = self.is_telling && piece.len() <= self.room.free();
        if self.is_telling {
            self.room.add(piece);
        }
        Ok(piece.len())
    }
}
