// What holds of every session: laws of the definitions, with no code.
ghost use Rattle.std.specs.Prelude.{◌≡◌, ◌≢◌, ◌++◌, ◌∷◌, [], ℕ, List, All, map};
ghost use Rattle.std.specs.List.{concat};
ghost use Rattle.line_service.specs.declared.server.Course.{Course as CourseValue};
ghost use Rattle.line_service.specs.declared.server.Course.TheVariants.{GoesOn};
ghost use Rattle.line_service.specs.Lines.{Heard, handed, heard_from, heard_of, kept, newline};
ghost use Rattle.line_service.specs.Answered.{Answered};

/// Lines that each end with a newline are heard as those lines, and what follows the last newline is no line.
pub fn lines_are_heard()
    ensures { (lines : List (List ℕ)) (rest : List ℕ) → All (All (λ byte. byte ≢ newline)) lines
        → All (λ byte. byte ≢ newline) rest
        → heard_of (concat (map (λ line. line ++ (newline ∷ [])) lines) ++ rest)
        ≡ record { lines = map handed lines; begun = kept rest } }
{}

/// It makes no difference to what is heard and answered in which pieces the bytes come.
pub fn pieces_make_no_difference()
    ensures lines { (begun first later : List ℕ) → (heard_from begun (first ++ later)).lines
        ≡ (heard_from begun first).lines ++ (heard_from (heard_from begun first).begun later).lines }
    ensures begun { (begun first later : List ℕ)
        → (heard_from begun (first ++ later)).begun ≡ (heard_from (heard_from begun first).begun later).begun }
{}
