// Which calls fail.
ghost use Rattle.std.specs.Prelude.{◌≡◌, ◌≤◌, ◌↔◌, [], ℕ, List, Contains, IsTrue};
ghost use Rattle.ats_io.specs.Memory.{Plan as Plan_value, starting, after_pass, after_fault};

use std::marker::{Brand, Model};

/// The numbers of the calls, from 0, that fail of a device in memory. They belong to its type, so they stay as they are whoever calls it.
pub trait Fails {
    ghost numbers: { List ℕ };
}

/// No call fails, unless a proof picks others.
impl Fails for Brand {
    ghost numbers = { [] };
}

/// The numbers of the calls that fail, the number of the next call, and how many have failed.
#[derive(Drop)]
pub(super) struct Plan {
    fails: Vec<u64>,
    call: u64,
    faults: u64,
}

impl Model for Plan {
    ghost Value = { Plan_value };

    ghost view = { λ p. record { fails = p.fails.items; call = p.call; faults = p.faults } };
}

impl Plan {
    pub(super) fn new(fails: Vec<u64>) -> Self
        ensures { result ≡ starting fails.items }
    {
        Plan {
            fails,
            call: 0,
            faults: 0,
        }
    }

    /// Whether the next call is one of those that fail.
    pub(super) fn is_fault_next(&self) -> bool
        ensures { IsTrue result ↔ Contains self.now.fails self.now.call }
    {
        self.fails.contains(&self.call)
    }

    pub(super) fn call(&self) -> u64
        ensures { result ≡ self.now.call }
    {
        self.call
    }

    /// Counts a call that was answered.
    pub(super) fn pass(&mut self)
        ensures { self.new ≡ after_pass self.old }
    {
        self.call = self.call.saturating_add(1);
    }

    /// Counts a call that failed.
    pub(super) fn fail(&mut self)
        ensures counted { self.new ≡ after_fault self.old }
        ensures never_falls { self.old.faults ≤ self.new.faults }
    {
        self.call = self.call.saturating_add(1);
        self.faults = self.faults.saturating_add(1);
    }
}
