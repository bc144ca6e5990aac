// What holds of sections by stands: a law of the definitions, with no code.
ghost use Rattle.std.specs.Prelude.{◌≡◌, ℕ, List};
ghost use Rattle.clash_sections.specs.declared.meetings.Meeting.{Meeting};
ghost use Rattle.clash_sections.specs.declared.meetings.Meeting.TheVariants.{Free, Clash};
ghost use Rattle.clash_sections.specs.Sections.{StandSection, IsExact};
ghost use Rattle.clash_sections.specs.Stands.{meeting};

/// If a stand is free of itself and clashes with one, no sections forbid exactly the clashes, whatever their limits and shares.
pub fn no_sections_for_what_is_free_of_itself()
    ensures { (C : List (List Meeting)) (a b : ℕ) → meeting C a b ≡ Clash → meeting C a a ≡ Free
        → (S : List StandSection) → IsExact C S → ⊥ }
{}
