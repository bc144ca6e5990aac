// What holds of every cause: laws of the definitions, with no code.
ghost use Rattle.std.specs.Prelude.{◌≡◌, ◌-◌, ◌⊎◌, ℕ, List, Option, Some, String, Vec};
ghost use Rattle.std.specs.declared.alloc.Global.{Global};
ghost use Rattle.document_json.specs.Doc.{Doc};
ghost use Rattle.run_timetable.specs.declared.run.Run.{Run};
ghost use Rattle.wait_causes.specs.Causes.{IsCause};
ghost use Rattle.wait_causes.specs.Waits.{IsKept};

/// A train that waits for something has no move when the tick begins at which it leaves, or had none one tick before.
pub fn a_cause_keeps_the_train()
    ensures { (D : Doc) (S : List (Vec (String Global) Global)) (run : Run) (i leaves : ℕ) (words : List ℕ)
        → IsCause D S run i leaves (Some words) → IsKept D run leaves i ⊎ IsKept D run (leaves - 1) i }
{}

/// A train that leaves at a tick waits for just one thing, or for nothing.
pub fn each_wait_has_one_cause()
    ensures { (D : Doc) (S : List (Vec (String Global) Global)) (run : Run) (i leaves : ℕ) (one other : Option (List ℕ))
        → IsCause D S run i leaves one → IsCause D S run i leaves other → one ≡ other }
{}
