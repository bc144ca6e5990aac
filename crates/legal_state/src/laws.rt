// What holds of every state: laws of the definitions, with no code.
ghost use Rattle.std.specs.Prelude.{◌≡◌, ℕ, List};
ghost use Rattle.rail_model.specs.Table.{Table};
ghost use Rattle.rail_model.specs.State.{Legal};
ghost use Rattle.rail_model.specs.Checks.{AskAgrees};
ghost use Rattle.legal_state.specs.declared.judges.Illegal.{Illegal as IllegalValue};
ghost use Rattle.legal_state.specs.Illegal.{IsIllegal};

/// A state that is illegal for a cause is not legal, and it has one first cause.
pub fn each_state_has_one_verdict()
    ensures not_both { (T : Table) (p : List ℕ) (e : IllegalValue) → IsIllegal T p e → Legal T p → ⊥ }
    ensures one { (T : Table) (p : List ℕ) (e f : IllegalValue) → IsIllegal T p e → IsIllegal T p f → e ≡ f }
{}

/// In a legal state a train is told just what the test of [`can_move`](crate::can_move)'s definition computes.
pub fn each_ask_is_computed()
    ensures { AskAgrees }
{}
