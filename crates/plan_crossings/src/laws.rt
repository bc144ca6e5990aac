// What holds of crossings with which nothing is wrong: a law of the definitions, with no code.
ghost use Rattle.std.specs.Prelude.{◌≡◌, ◌<◌, ℕ, Any, List, Some, None, length, slice_get, true};
ghost use Rattle.plan_crossings.specs.Crossings.{Crossing, is_on};
ghost use Rattle.plan_crossings.specs.Faults.{fault, is_within};
ghost use Rattle.plan_crossings.specs.States.{Route, points_of};

/// If nothing is wrong with a crossing, each train that comes to a point of it is on one of its ways there.
pub fn trains_at_points_are_on_ways()
    ensures { (routes : List Route) (c : Crossing) (i k q : ℕ) → fault routes c ≡ None → i < length routes
        → slice_get (points_of routes i) k ≡ Some q → is_within c q ≡ true
        → Any (λ points. is_on points (points_of routes i) k ≡ true) c.ways }
{}
