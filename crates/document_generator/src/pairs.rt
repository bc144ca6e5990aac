// Pairs of trains, as they are drawn.
ghost use Rattle.std.specs.Prelude.{◌≡◌, ◌≤◌, ◌<◌, ◌*◌, IfOk, OnOk, length};
ghost use Rattle.document_generator.specs.Draws.{draw};
ghost use Rattle.document_generator.specs.Pairs.{times_from, times_of, pair_after, last_draw, all_pairs};

use crate::draws::Draws;
use rail_model::TrainTimes;
use std::alloc::{AllocError, Global};
use std::marker::Model;

// A step takes at least 1 tick, and at most this many.
const MOST_TICKS: u32 = 9;

// A pair has at least 1 loop, and at most this many.
const MOST_LOOPS: u32 = 8;

// How many trains a pair has, from the number that are left.
const TRAINS_OF_A_PAIR: u32 = 2;

/// Two trains with a row of loops of their own; the last pair may have one train or none.
#[derive(Drop)]
pub(crate) struct Pair {
    number: u32,
    first: u32,
    loops: u32,
    times: Vec<TrainTimes>,
}

impl Model for Pair {
    ghost use Rattle.document_generator.specs.Pairs.{Pair as PairValue, IsLoopPair};

    ghost Value = { PairValue };

    ghost view = { λ g. record { number = g.number; first = g.first; loops = g.loops; times = g.times.items } };

    ghost invariant = { λ g. IsLoopPair g.number g.first g.loops };
}

impl Pair {
    pub(crate) fn number(&self) -> u32
        ensures value { result ≡ self.now.number }
        ensures bound { result < 16 }
    {
        self.number
    }

    /// The number of its first point in the document.
    pub(crate) fn first_point(&self) -> u32
        ensures value { result ≡ self.now.first }
        ensures bound { result ≤ 400 }
    {
        self.first
    }

    pub(crate) fn loops(&self) -> u32
        ensures value { result ≡ self.now.loops }
        ensures bound { result ≤ 8 }
    {
        self.loops
    }

    /// The travel times of each of its trains, in ticks.
    pub(crate) fn times(&self) -> &[TrainTimes]
        ensures { result.now ≡ self.now.times }
    {
        &self.times
    }
}

// The travel times of one train.
fn train_times(alloc: Global, draws: &mut Draws, steps: u32) -> Result<TrainTimes, AllocError>
    ensures times { IfOk result (λ t. t ≡ times_from steps draws.old) }
    ensures drawn { OnOk result (draws.new ≡ draw steps draws.old) }
{
    let mut times = Vec::new(alloc);
    for _step in 0..steps {
        times.push(1 + draws.draw() % MOST_TICKS)?;
    }
    Ok(TrainTimes::from(times))
}

// The travel times of a number of trains.
fn pair_times(
    alloc: Global,
    draws: &mut Draws,
    trains: u32,
    steps: u32,
) -> Result<Vec<TrainTimes>, AllocError>
    ensures times { IfOk result (λ v. v.items ≡ times_of trains steps draws.old) }
    ensures drawn { OnOk result (draws.new ≡ draw (trains * steps) draws.old) }
{
    let mut times = Vec::new(alloc);
    for _train in 0..trains {
        times.push(train_times(alloc, draws, steps)?)?;
    }
    Ok(times)
}

// The next pair.
fn draw_pair(
    alloc: Global,
    draws: &mut Draws,
    number: u32,
    first: u32,
    trains: u32,
) -> Result<Pair, AllocError>
    requires number { number < 16 }
    requires first { first ≤ 25 * number }
    ensures pair { IfOk result (λ g. g ≡ pair_after number first trains draws.old) }
    ensures drawn { OnOk result (draws.new ≡ last_draw trains draws.old) }
{
    let loops = 1 + draws.draw() % MOST_LOOPS;
    let times = pair_times(alloc, draws, trains, 2 * loops)?;
    Ok(Pair {
        number,
        first,
        loops,
        times,
    })
}

/// All pairs of a seed, for `trains` trains.
pub(crate) fn draw_pairs(alloc: Global, seed: u32, trains: u32) -> Result<Vec<Pair>, AllocError>
    requires { trains ≤ 32 }
    ensures { IfOk result (λ v. v.items ≡ all_pairs seed trains) }
{
    let mut draws = Draws::new(seed);
    let mut found = Vec::new(alloc);
    let mut first = 0;
    let mut left = trains;
    for number in 0..((trains + 1) / 2).max(1) {
        let here = left.min(TRAINS_OF_A_PAIR);
        let next = draw_pair(alloc, &mut draws, number, first, here)?;
        first += 3 * next.loops() + 1;
        left -= here;
        found.push(next)?;
    }
    Ok(found)
}
