// Routes of trains.
ghost use Rattle.std.specs.Prelude.{◌≡◌};

use std::marker::Model;

/// A train's route: the numbers of its points, and whether the train leaves the layout after the last one.
#[derive(Drop)]
pub struct Route {
    points: Vec<usize>,
    exits: bool,
}

impl Model for Route {
    ghost use Rattle.plan_crossings.specs.States.{Route as RouteValue};

    ghost Value = { RouteValue };

    ghost view = { λ r. record { points = r.points.items; exits = r.exits } };
}

impl Route {
    pub fn new(points: Vec<usize>, exits: bool) -> Self
        ensures { result ≡ record { points = points.items; exits = exits } }
    {
        Route { points, exits }
    }

    pub(crate) fn points(&self) -> &[usize]
        ensures { result.now ≡ self.now.points }
    {
        self.points.as_slice()
    }

    pub(crate) fn exits(&self) -> bool
        ensures { result ≡ self.now.exits }
    {
        self.exits
    }
}
