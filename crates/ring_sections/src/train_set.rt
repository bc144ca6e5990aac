// Sets of trains.
ghost use Rattle.std.specs.Prelude.{◌≡◌, ◌<◌, ◌^◌, ◌↔◌, IsTrue, false};
ghost use Rattle.std.specs.Int.Bits.{bit_and, bit_or};
ghost use Rattle.ring_sections.specs.Leading.{HasTrain};

// The most trains that there are.
pub(crate) const MOST_TRAINS: u32 = 32;

/// A set of trains below 32, as a bit for each.
#[derive(Clone, Copy)]
pub(crate) struct TrainSet {
    pub bits: u32,
}

impl TrainSet {
    // The set of no train.
    pub(crate) fn none() -> TrainSet
        ensures { result.bits ≡ 0 }
    {
        TrainSet { bits: 0 }
    }

    pub(crate) fn has(self, train: u32) -> bool
        requires { train < 32 }
        ensures { IsTrue result ↔ HasTrain self train }
    {
        (self.bits >> train) & 1 == 1
    }

    pub(crate) fn with(self, train: u32) -> TrainSet
        requires { train < 32 }
        ensures { result.bits ≡ bit_or self.bits (2 ^ train) }
    {
        TrainSet {
            bits: self.bits | (1 << train),
        }
    }

    // Whether a train is in both.
    pub(crate) fn meets(self, other: TrainSet) -> bool
        ensures { result ≡ false → bit_and self.bits other.bits ≡ 0 }
    {
        self.bits & other.bits != 0
    }
}
