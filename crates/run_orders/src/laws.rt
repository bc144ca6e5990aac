// What a whole run means for the states along it: a law of the definitions, with no code.
ghost use Rattle.std.specs.Prelude.{◌≡◌, ◌++◌, ℕ, List};
ghost use Rattle.rail_model.specs.declared.types.Line.{Line as LineValue};
ghost use Rattle.rail_model.specs.Journal.{Journal as JournalValue, IsWhole, after_lines};
ghost use Rattle.rail_model.specs.State.{Legal};
ghost use Rattle.rail_model.specs.Yard.{Offer, in_force, opening};
ghost use Rattle.reached_states.specs.Reached.{AreOffered};

/// Each state along a whole run is legal under the table that is in force there.
pub fn whole_runs_stay_legal()
    ensures { (tables : List Offer) (start : List ℕ) (J : JournalValue) (front later : List LineValue)
        → AreOffered tables start → IsWhole tables (opening start) J → J.lines ≡ front ++ later
        → Legal (in_force tables (after_lines (opening start) front)) (after_lines (opening start) front).positions }
{}
