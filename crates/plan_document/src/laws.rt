// What the changes of a plan's sections come to.
ghost use Rattle.std.specs.Prelude.{◌≡◌, ℕ, suc, pos, List};
ghost use Rattle.rail_model.specs.Sums.{total_below};
ghost use Rattle.plan_document.specs.Shares.{change_at, share_at};

/// The changes of a train up to a place add up to its share there.
pub fn changes_add_up_to_shares()
    ensures { (shares : List ℕ) (place : ℕ) → total_below (change_at shares) (suc place) ≡ pos (share_at shares place) }
{}
