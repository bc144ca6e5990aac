// The guards of a table.
use forbidden_states::Stays;
use std::marker::Model;

/// The guards of a table, in the order of the sections behind its own.
#[derive(Drop)]
pub struct Guards {
    guards: Vec<Stays>,
}

impl Model for Guards {
    ghost use Rattle.std.specs.Prelude.{List};
    ghost use Rattle.forbidden_states.specs.Forbid.{Stay};

    ghost Value = { List (List Stay) };

    ghost view = { λ g. g.guards.items };
}

impl From<Vec<Stays>> for Guards {
    ghost use Rattle.std.specs.Prelude.{◌≡◌};

    ghost from_gives = { λ guards g. g ≡ guards.items };

    fn from(guards: Vec<Stays>) -> Self {
        Guards { guards }
    }
}

impl Guards {
    ghost use Rattle.std.specs.Prelude.{◌≡◌};

    /// The guards, lent.
    pub fn as_slice(&self) -> &[Stays]
        ensures { result.now ≡ self.now }
    {
        &self.guards
    }
}
