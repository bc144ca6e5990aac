// Sources in memory.
ghost use Rattle.std.specs.Prelude.{◌≡◌, ◌≤◌, ◌<◌, ◌++◌, ◌↔◌, [], ℕ, List, length, take, min, Some, Ok, Contains, IfOk, OnErr, IsErr};
ghost use Rattle.ats_io.specs.Memory.{Supply, HasMade, starting, after_pass, after_fault};

use super::plan::{Fails, Plan};
use super::stock::Stock;
use crate::{Failed, Source};
use std::marker::{Model, PhantomData};

/// A source over bytes in memory that tells them. It gives at most `most` bytes a call, and the calls
/// whose numbers, from 0, are in a list fail.
#[derive(Drop)]
pub struct MemSource<P: Fails> {
    stock: Stock,
    most: usize,
    plan: Plan,
    of: PhantomData<P>,
}

impl<P: Fails> Model for MemSource<P> {
    ghost Value = { Supply };

    ghost view = { λ s. record { left = s.stock; most = s.most; plan = s.plan } };

    ghost invariant = { λ s. (0 < s.most) × (s.plan.fails ≡ P.numbers) × (0 < s.plan.faults → HasMade s.plan.fails s.plan.call) };
}

impl<P: Fails> MemSource<P> {
    /// A source of these bytes, that gives at most `most` of them a call and fails at the calls `fails`.
    pub fn new(bytes: Vec<u8>, most: usize, fails: Vec<u64>) -> Self
        requires most { 0 < most }
        requires plan { fails.items ≡ P.numbers }
        ensures { result ≡ record { left = bytes.items; most = most; plan = starting fails.items } }
    {
        MemSource {
            stock: Stock::new(bytes),
            most,
            plan: Plan::new(fails),
            of: PhantomData,
        }
    }

    /// The bytes that are left.
    pub fn left(&self) -> &[u8]
        ensures { result.now ≡ self.now.left }
    {
        self.stock.left()
    }

    /// How many calls there were.
    pub fn calls(&self) -> u64
        ensures count { result ≡ self.now.plan.call }
        ensures failed { 0 < self.now.plan.faults → HasMade P.numbers self.now.plan.call }
    {
        self.plan.call()
    }
}

impl<P: Fails> Source for MemSource<P> {
    ghost left = { λ s. Some s.left };

    ghost faults = { λ s. s.plan.faults };

    fn read(&mut self, buf: &mut [u8]) -> Result<usize, Failed>
        ensures fails { IsErr result ↔ Contains self.old.plan.fails self.old.plan.call }
        ensures count { IfOk result (λ count. count ≡ min (length buf.new) (min self.old.most (length self.old.left))) }
        ensures given { IfOk result (λ count. self.old.left ≡ take count buf.new ++ self.new.left) }
        ensures end { IfOk result (λ count. count ≡ 0 → 0 < length buf.new → self.new.left ≡ []) }
        ensures ok { IfOk result (λ _. self.new ≡ record self.old { left = self.new.left; plan = after_pass self.old.plan }) }

        ensures err { OnErr result (self.new ≡ record self.old { plan = after_fault self.old.plan }) }

        ensures never_falls { self.old.plan.faults ≤ self.new.plan.faults }
    {
        if self.plan.is_fault_next() {
            self.plan.fail();
            return Err(Failed);
        }
        self.plan.pass();
        Ok(self.stock.give(buf, self.most))
    }
}

/// A source over bytes in memory that never fails, tells them, and gives as many a call as it can.
#[derive(Drop)]
pub struct SureSource {
    stock: Stock,
}

impl Model for SureSource {
    ghost Value = { List ℕ };

    ghost view = { λ s. s.stock };
}

impl SureSource {
    /// A source of these bytes.
    pub fn new(bytes: Vec<u8>) -> Self
        ensures { result ≡ bytes.items }
    {
        SureSource {
            stock: Stock::new(bytes),
        }
    }

    /// The bytes that are left.
    pub fn left(&self) -> &[u8]
        ensures { result.now ≡ self.now }
    {
        self.stock.left()
    }
}

impl Source for SureSource {
    ghost left = { λ s. Some s };

    ghost faults = { λ _. 0 };

    fn read(&mut self, buf: &mut [u8]) -> Result<usize, Failed>
        ensures count { result ≡ Ok (min (length buf.new) (length self.old)) }
        ensures given { IfOk result (λ count. self.old ≡ take count buf.new ++ self.new) }
        ensures end { IfOk result (λ count. count ≡ 0 → 0 < length buf.new → self.new ≡ []) }
    {
        Ok(self.stock.give(buf, usize::MAX))
    }
}
