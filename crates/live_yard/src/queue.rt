// The queue of wants.
ghost use Rattle.std.specs.Prelude.{◌≡◌, ◌==◌, ◌<◌, ◌≤◌, length, slice_index, MatchOption};
ghost use Rattle.live_yard.specs.Wants.{HasWant};

use std::alloc::{AllocError, Global};
use std::marker::Model;

/// The most trains.
pub const MOST_TRAINS: usize = 32;

/// The trains that have a standing want, at most one each, in the order of coming. Takes memory only when it is made.
#[derive(Drop)]
pub struct WantQueue {
    trains: u32,
    wants: Vec<u32>,
}

impl Model for WantQueue {
    ghost use Rattle.std.specs.Prelude.{◌≤◌, vec_capacity};
    ghost use Rattle.live_yard.specs.Wants.{AreWants, Queue};

    ghost Value = { Queue };

    ghost view = { λ q. record { trains = q.trains; wants = q.wants.items } };

    ghost invariant = { λ q. AreWants q.trains q.wants.items × (q.trains ≤ vec_capacity q.wants) };
}

// Where a train's want stands.
fn index_of(wants: &[u32], train: u32) -> Option<usize>
    ensures { MatchOption result (HasWant wants.now train → ⊥)
        (λ k. (k < length wants.now) × (slice_index wants.now k ≡ train)) }
{
    for index in 0..wants.len() {
        if wants[index] == train {
            return Some(index);
        }
    }
    None
}

impl WantQueue {
    ghost use Rattle.std.specs.Prelude.{[], IfOk};
    ghost use Rattle.std.specs.List.{remove};
    ghost use Rattle.live_yard.specs.Wants.{AreWants, Drops, StandsIn};

    /// No wants of so many trains.
    ///
    /// # Errors
    ///
    /// Out of memory.
    pub fn new(alloc: Global, trains: u32) -> Result<Self, AllocError>
        requires { trains ≤ MOST_TRAINS }
        ensures { IfOk result (λ queue. queue ≡ record { trains = trains; wants = [] }) }
    {
        let wants = Vec::with_capacity(alloc, MOST_TRAINS)?;
        Ok(WantQueue { trains, wants })
    }

    /// The trains, in the order of coming.
    pub fn as_slice(&self) -> &[u32]
        ensures wants { result.now ≡ self.now.wants }
        ensures formed { AreWants self.now.trains self.now.wants }
    {
        &self.wants
    }

    /// The number of wants.
    pub fn len(&self) -> usize
        ensures { result ≡ length self.now.wants }
    {
        self.wants.len()
    }

    /// Whether no want stands.
    pub fn is_empty(&self) -> bool
        ensures { result ≡ (length self.now.wants == 0) }
    {
        self.wants.is_empty()
    }

    /// Lets a train's want stand, last unless it stood before.
    pub fn stand(&mut self, train: u32)
        requires { train < self.old.trains }
        ensures stands { StandsIn self.old.wants train self.new.wants }
        ensures trains { self.new.trains ≡ self.old.trains }
    {
        match index_of(&self.wants, train) {
            Some(_) => {}
            None => self.wants.push_reserved(train),
        }
    }

    /// Drops a train's want, and says how many were dropped, 0 or 1.
    pub fn drop_of(&mut self, train: u32) -> u32
        ensures drops { Drops self.old.wants train result self.new.wants }
        ensures trains { self.new.trains ≡ self.old.trains }
    {
        let Some(index) = index_of(&self.wants, train) else {
            return 0;
        };
        self.wants.remove(index);
        1
    }

    /// Takes out the want of an index, and gives its train.
    pub fn remove(&mut self, index: usize) -> u32
        requires { index < length self.old.wants }
        ensures train { result ≡ slice_index self.old.wants index }
        ensures below { result < self.old.trains }
        ensures wants { self.new.wants ≡ remove self.old.wants index }
        ensures trains { self.new.trains ≡ self.old.trains }
    {
        let train = self.wants[index];
        self.wants.remove(index);
        train
    }
}
