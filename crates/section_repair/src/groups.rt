// Groups of trains.
ghost use Rattle.std.specs.Prelude.{◌≡◌, ◌↔◌, IsTrue, IfOk, length};
ghost use Rattle.section_repair.specs.Core.{has as has_train, is_smallest as is_smallest_of, smallest as smallest_of};

use std::alloc::{AllocError, Global};
use std::marker::Model;

/// Trains, each once, in rising order.
#[derive(Drop)]
pub(crate) struct Group {
    trains: Vec<u32>,
}

impl Model for Group {
    ghost use Rattle.std.specs.Prelude.{ℕ, List};

    ghost Value = { List ℕ };

    ghost view = { λ g. g.trains.items };
}

impl From<Vec<u32>> for Group {
    ghost from_gives = { λ trains g. g ≡ trains.items };

    fn from(trains: Vec<u32>) -> Self {
        Group { trains }
    }
}

impl Group {
    /// The trains, lent.
    pub(crate) fn as_slice(&self) -> &[u32]
        ensures { result.now ≡ self.now }
    {
        &self.trains
    }

    /// The number of trains.
    pub(crate) fn size(&self) -> usize
        ensures { result ≡ length self.now }
    {
        self.trains.len()
    }

    /// Whether a train is among them.
    pub(crate) fn has(&self, train: u32) -> bool
        ensures { result ≡ has_train self.now train }
    {
        self.trains.contains(&train)
    }

    /// Whether both have the same trains.
    pub(crate) fn is_same(&self, other: &Group) -> bool
        ensures { IsTrue result ↔ (self.now ≡ other.now) }
    {
        self.as_slice() == other.as_slice()
    }
}

// Whether none of the groups has fewer trains.
fn is_smallest(groups: &[Group], group: &Group) -> bool
    ensures { result ≡ is_smallest_of groups.now group.now }
{
    groups.iter().all(|other| group.size() <= other.size())
}

/// The first of the groups that has the fewest trains; an empty one where there are no groups.
pub(crate) fn smallest(alloc: Global, groups: &[Group]) -> Result<Group, AllocError>
    ensures { IfOk result (λ group. group ≡ smallest_of groups.now) }
{
    for group in groups {
        if is_smallest(groups, group) {
            return Ok(Group::from(Vec::from_slice(alloc, group.as_slice())?));
        }
    }
    Ok(Group::from(Vec::new(alloc)))
}
