// Stays: trains, each in a span of its places.
ghost use Rattle.std.specs.Prelude.{◌≡◌};

use state_boxes::Span;
use std::marker::Model;

/// A train, and a span of its places.
#[derive(Clone, Copy)]
pub struct Stay {
    train: u32,
    span: Span,
}

impl Model for Stay {
    ghost use Rattle.forbidden_states.specs.Forbid.{Stay as StayValue};

    ghost Value = { StayValue };

    ghost view = { λ s. record { train = s.train; range = s.span } };

    ghost inverse = { λ s. record { train = s.train; span = s.range } };
}

impl Stay {
    pub fn new(train: u32, span: Span) -> Self
        ensures { result ≡ record { train = train; range = span } }
    {
        Stay { train, span }
    }

    pub fn train(self) -> u32
        ensures { result ≡ self.train }
    {
        self.train
    }

    pub fn span(self) -> Span
        ensures { result ≡ self.range }
    {
        self.span
    }
}

/// Stays that may not all be at once.
#[derive(Drop)]
pub struct Stays {
    items: Vec<Stay>,
}

impl Model for Stays {
    ghost use Rattle.std.specs.Prelude.{List};
    ghost use Rattle.forbidden_states.specs.Forbid.{Stay as StayValue};

    ghost Value = { List StayValue };

    ghost view = { λ s. s.items.items };
}

impl From<Vec<Stay>> for Stays {
    ghost from_gives = { λ items s. s ≡ items.items };

    fn from(items: Vec<Stay>) -> Self {
        Stays { items }
    }
}

impl Stays {
    pub fn as_slice(&self) -> &[Stay]
        ensures { result.now ≡ self.now }
    {
        &self.items
    }
}
