// Drawn numbers.
ghost use Rattle.std.specs.Prelude.{◌≡◌, ◌<◌, ℕ};
ghost use Rattle.document_generator.specs.Draws.{next_draw, drawn_of};

use std::marker::Model;

// The next number is MULTIPLIER times the last, and INCREMENT more, modulo MODULUS.
const MULTIPLIER: u32 = 75;

const INCREMENT: u32 = 74;

const MODULUS: u32 = 65537;

/// Numbers drawn one after the other, from a seed on.
#[derive(Drop)]
pub struct Draws {
    last: u32,
}

impl Model for Draws {
    ghost Value = { ℕ };

    ghost view = { λ d. d.last };

    ghost invariant = { λ d. d.last < 65537 };
}

impl Draws {
    /// The numbers that are drawn from a seed.
    pub fn new(seed: u32) -> Self
        ensures { result ≡ drawn_of seed }
    {
        Draws {
            last: seed % MODULUS,
        }
    }

    /// The next number.
    pub fn draw(&mut self) -> u32
        ensures drawn { result ≡ next_draw self.old }
        ensures last { self.new ≡ next_draw self.old }
    {
        let next = (MULTIPLIER * self.last + INCREMENT) % MODULUS;
        self.last = next;
        next
    }
}
