// What the sections forbid: a law of the definitions, with no code.
ghost use Rattle.std.specs.Prelude.{◌≡◌, ◌<◌, ◌↔◌, ℕ, List, length, Some, slice_get};
ghost use Rattle.rail_model.specs.Table.{Mission};
ghost use Rattle.rail_model.specs.Move.{IsOver};
ghost use Rattle.forbidden_states.specs.Forbid.{Stay as StayValue, AreStays, InStays, AreInRange, marked as marked_of};

/// A state is over the section of some stays exactly where all their trains are in their spans.
pub fn over_where_all_stay()
    ensures { (M : List Mission) (all : List (List StayValue)) (s : ℕ) (stays : List StayValue) (p : List ℕ)
        → slice_get all s ≡ Some stays → 0 < length stays → AreStays (length M) stays → AreInRange M p
        → IsOver (marked_of M all) p s ↔ InStays p stays }
{}
