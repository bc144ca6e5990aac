// The facts that are found.
ghost use Rattle.std.specs.Prelude.{◌≡◌, ◌⊎◌, [], false, true, IfOk, Contains};
ghost use Rattle.document_facts.specs.Adding.{AddsIf, IsLost};

use crate::fact::Fact;
use std::alloc::{AllocError, Global};

/// Facts in the order in which they are found. Where there is no memory for one, that is noted, and there is no list in the end.
#[derive(Drop)]
pub struct Found {
    facts: Vec<Fact>,
    is_out_of_memory: bool,
}

impl Found {
    /// No facts yet.
    pub fn new(alloc: Global) -> Found
        ensures { result.facts.items ≡ [] }
    {
        Found {
            facts: Vec::new(alloc),
            is_out_of_memory: false,
        }
    }

    /// Notes that there was no memory for something.
    pub fn note_no_memory(&mut self)
        ensures facts { self.new.facts ≡ self.old.facts }
        ensures lost { IsLost self.new }
    {
        self.is_out_of_memory = true;
    }

    /// Adds a fact, if it holds.
    pub fn add_if(&mut self, holds: bool, fact: Fact)
        ensures { AddsIf (holds ≡ true) fact self.old self.new }
    {
        if holds && self.facts.push(fact).is_err() {
            self.note_no_memory();
        }
    }

    /// The facts, by value, if there was memory for all of them.
    pub fn into_result(self) -> Result<Vec<Fact>, AllocError>
        ensures { IfOk result (λ facts. (facts ≡ self.facts) × (self.is_out_of_memory ≡ false)) }
    {
        if self.is_out_of_memory {
            Err(AllocError)
        } else {
            Ok(self.facts)
        }
    }
}
