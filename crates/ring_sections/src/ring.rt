// Circular waits.
ghost use Rattle.std.specs.Prelude.{◌≡◌};

use std::marker::Model;

/// Trains that wait in a circle, as pairs of a train and its place, the least train first: each wants the point of the next
/// one, and the last the point of the first.
#[derive(Drop)]
pub struct Ring {
    pairs: Vec<(u32, u32)>,
}

impl Model for Ring {
    ghost use Rattle.std.specs.Prelude.{List};
    ghost use Rattle.ring_sections.specs.Ring.{Pair};

    ghost Value = { List Pair };

    ghost view = { λ r. r.pairs.items };
}

impl From<Vec<(u32, u32)>> for Ring {
    ghost from_gives = { λ pairs r. r ≡ pairs.items };

    fn from(pairs: Vec<(u32, u32)>) -> Self {
        Ring { pairs }
    }
}

impl Ring {
    pub fn as_slice(&self) -> &[(u32, u32)]
        ensures { result.now ≡ self.now }
    {
        &self.pairs
    }
}
