// What the tests of sections and of last points mean for states.
ghost use Rattle.std.specs.Prelude.{◌≡◌, ◌≢◌, ◌<◌, ◌≤◌, ◌≤ℤ◌, ℕ, pos, List, length};
ghost use Rattle.rail_model.specs.Table.{Table, IsTable, trains, last, limit, place, count};
ghost use Rattle.rail_model.specs.State.{Legal, Arrived};
ghost use Rattle.document_json.specs.Doc.{Doc};
ghost use Rattle.document_facts.specs.Former.{HoldsSince, KeepsSections};
ghost use Rattle.document_facts.specs.declared.fact.Fact.{Fact};
ghost use Rattle.document_facts.specs.Sections.{NeverBinds, IsOverfullAtEnd, OverfillsAlone, EndTogether};

/// A section that never binds is within its limit wherever the trains are: without it the same states are legal.
pub fn never_binding_sections_keep_nothing_out()
    ensures { (T : Table) (s : ℕ) (p : List ℕ) → NeverBinds T s
        → ((i : ℕ) → i < trains T → place p i ≤ last T i)
        → count T s p ≤ℤ pos (limit T s) }
{}

/// A train that alone overfills a section has a place at which it is in no legal state.
pub fn overfilling_trains_never_come_there()
    ensures { (T : Table) (s i : ℕ) → IsTable T → s < length T.sections → i < trains T → OverfillsAlone T s i
        → (k : ℕ) × (k ≤ last T i) × ((p : List ℕ) → Legal T p → place p i ≡ k → ⊥) }
{}

/// Trains whose last places overfill a section never all arrive.
pub fn trains_that_overfill_at_the_end_never_all_arrive()
    ensures { (T : Table) (s : ℕ) (p : List ℕ) → s < length T.sections → IsOverfullAtEnd T s → Legal T p → Arrived T p → ⊥ }
{}

/// Two trains that end together are never both at their ends in a legal state.
pub fn trains_that_end_together_never_both_arrive()
    ensures { (T : Table) (i j : ℕ) (p : List ℕ) → i < trains T → j < trains T → i ≢ j → EndTogether T i j
        → Legal T p → place p i ≡ last T i → place p j ≡ last T j → ⊥ }
{}

/// A document after which no section of a former one is said to be gone has each of them in the table of the same number.
pub fn documents_that_lose_nothing_keep_each_section()
    ensures { (D F : Doc) → ((f : Fact) → HoldsSince D F f → ⊥) → KeepsSections D F }
{}
