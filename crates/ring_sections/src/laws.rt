// What holds of circular waits and of their sections: laws of the definitions, with no code.
ghost use Rattle.std.specs.Prelude.{◌≤◌, ◌↔◌, ℕ, All, List, length, Contains};
ghost use Rattle.rail_model.specs.Table.{Mission};
ghost use Rattle.forbidden_states.specs.Completing.{ForbidsOnlyIncompletable};
ghost use Rattle.ring_sections.specs.Marking.{ring_table};
ghost use Rattle.ring_sections.specs.Ring.{Pair, IsRing, rings as rings_of};
ghost use Rattle.ring_sections.specs.Waiting.{ForbidsOnlyRings, NeverMoves};

/// The list has exactly the circular waits of at most `most` trains.
pub fn lists_just_the_rings()
    ensures { (M : List Mission) (most : ℕ) (r : List Pair) → Contains (rings_of M most) r ↔ (IsRing M r × (length r ≤ most)) }
{}

/// A state with distinct points is over the section of a circular wait only if it has that wait, whose trains never
/// move again. So the sections forbid only states from which not all trains can arrive.
pub fn ring_sections_lose_nothing()
    ensures rings { (M : List Mission) (rs : List (List Pair)) → All (IsRing M) rs → ForbidsOnlyRings M rs }
    ensures stay { (M : List Mission) (r : List Pair) → IsRing M r → NeverMoves M r }
    ensures lost { (M : List Mission) (rs : List (List Pair)) → All (IsRing M) rs → ForbidsOnlyIncompletable M (ring_table M rs) }
{}
