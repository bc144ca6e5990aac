// Groups of trains.
ghost use Rattle.std.specs.Prelude.{◌≡◌, ◌==◌, IfOk, filter, not};
ghost use Rattle.rail_model.specs.Checks.{below};
ghost use Rattle.state_core.specs.Core.{has as has_train};

use std::alloc::{AllocError, Global};
use std::marker::Model;

/// Trains by number.
#[derive(Drop)]
pub struct Group {
    trains: Vec<u32>,
}

impl Model for Group {
    ghost use Rattle.std.specs.Prelude.{ℕ, List};

    ghost Value = { List ℕ };

    ghost view = { λ g. g.trains.items };
}

impl From<Vec<u32>> for Group {
    ghost from_gives = { λ trains g. g ≡ trains.items };

    fn from(trains: Vec<u32>) -> Self {
        Group { trains }
    }
}

impl Group {
    /// The trains, lent.
    pub fn as_slice(&self) -> &[u32]
        ensures { result.now ≡ self.now }
    {
        &self.trains
    }

    /// Whether a train is among them.
    pub fn has(&self, train: u32) -> bool
        ensures { result ≡ has_train self.now train }
    {
        self.trains.contains(&train)
    }

    /// The others.
    pub fn without(&self, alloc: Global, train: u32) -> Result<Group, AllocError>
        ensures { IfOk result (λ rest. rest ≡ filter (λ j. not (j == train)) self.now) }
    {
        let rest = self.trains.iter().copied().filter(|other| *other != train);
        Ok(Group {
            trains: rest.collect(alloc)?,
        })
    }
}

/// The trains below a number.
pub fn all_below(alloc: Global, count: u32) -> Result<Group, AllocError>
    ensures { IfOk result (λ group. group ≡ below count) }
{
    let mut trains = Vec::new(alloc);
    for train in 0..count {
        trains.push(train)?;
    }
    Ok(Group { trains })
}
