// A section by stands.
ghost use Rattle.std.specs.Prelude.{◌≡◌, ◌↔◌, ◌<◌, ℕ, IsTrue};
ghost use Rattle.clash_sections.specs.Sections.{share, Forbids, SomeForbids};

use std::marker::Model;

/// A limit, and for each stand the share of a train on it: the trains' shares may come to the limit at most.
#[derive(Drop)]
pub struct StandSection {
    limit: u32,
    shares: Vec<u32>,
}

impl Model for StandSection {
    ghost use Rattle.clash_sections.specs.Sections.{StandSection as SectionValue};

    ghost Value = { SectionValue };

    ghost view = { λ s. record { limit = s.limit; shares = s.shares.items } };
}

impl StandSection {
    pub(crate) fn new(limit: u32, shares: Vec<u32>) -> Self
        ensures { result ≡ record { limit = limit; shares = shares.items } }
    {
        StandSection { limit, shares }
    }

    pub fn limit(&self) -> u32
        ensures { result ≡ self.now.limit }
    {
        self.limit
    }

    /// The share of a train on a stand; 0 if the section has no such stand.
    pub fn share(&self, stand: usize) -> u32
        ensures { result ≡ share self.now stand }
    {
        self.shares.get(stand).copied().unwrap_or(0)
    }

    /// Whether two trains on these stands, one on each, are more than it lets in.
    pub fn forbids(&self, one: usize, other: usize) -> bool
        ensures { IsTrue result ↔ Forbids one other self.now }
    {
        u64::from(self.share(one)) + u64::from(self.share(other)) > u64::from(self.limit)
    }
}

/// Whether one of the sections forbids that two trains are on these stands, one on each.
pub(crate) fn are_forbidden(sections: &[StandSection], one: usize, other: usize) -> bool
    ensures { IsTrue result → SomeForbids sections.now one other }
{
    sections.iter().any(|section| section.forbids(one, other))
}
