// What holds of every text: laws of the definitions, with no code.
ghost use Rattle.std.specs.Prelude.{◌≡◌, ◌⊎◌, ℕ, ◌+◌, ◌<◌, List, ◌++◌, length, Result, Err};
ghost use Rattle.rail_model.specs.declared.types.Line.{Line as LineValue};
ghost use Rattle.rail_model.specs.Names.{Names, IsNames};
ghost use Rattle.rail_model.specs.Table.{IsTable};
ghost use Rattle.rail_model.specs.Yard.{Offer, Yard, offer};
ghost use Rattle.rail_model.specs.Journal.{Journal, IsRight, IsWhole, text, lines_text, end_text};
ghost use Rattle.move_journal.specs.declared.faults.BadText.{BadText as BadTextValue};
ghost use Rattle.move_journal.specs.declared.faults.BadText.TheVariants.{Memory};
ghost use Rattle.move_journal.specs.declared.faults.BadLine.{BadLine as BadLineValue};
ghost use Rattle.move_journal.specs.declared.lines.Part.{Part as PartValue};
ghost use Rattle.table_exchange.specs.Tables.{AreTables, Stands};
ghost use Rattle.move_journal.specs.Replays.{HasBadLine, IsBrokenJournal};
ghost use Rattle.move_journal.specs.Printable.{HasText};
ghost use Rattle.move_journal.specs.Answers.{ReadsJournal, AnswersPrefix, IsFrontOf};

/// Two journals never have one text.
pub fn one_journal_per_text()
    ensures { (N : Names) (a b : Journal) → IsNames N → HasText N a → HasText N b → text N a ≡ text N b → a ≡ b }
{}

/// For each text a reader has exactly one answer other than being out of memory.
pub fn one_answer_per_text()
    ensures some_whole { (N : Names) (bytes : List ℕ) → IsNames N
        → (a : Result Journal BadTextValue) × (a ≡ Err Memory → ⊥) × ReadsJournal N bytes a }
    ensures some_front { (N : Names) (bytes : List ℕ) → IsNames N
        → (a : Result PartValue BadTextValue) × (a ≡ Err Memory → ⊥) × AnswersPrefix N bytes a }
    ensures whole { (N : Names) (bytes : List ℕ) (a b : Result Journal BadTextValue) → IsNames N
        → (a ≡ Err Memory → ⊥) → (b ≡ Err Memory → ⊥) → ReadsJournal N bytes a → ReadsJournal N bytes b → a ≡ b }
    ensures front { (N : Names) (bytes : List ℕ) (a b : Result PartValue BadTextValue) → IsNames N
        → (a ≡ Err Memory → ⊥) → (b ≡ Err Memory → ⊥) → AnswersPrefix N bytes a → AnswersPrefix N bytes b → a ≡ b }
{}

/// The text of a journal that goes on from a front begins with the front's bytes: lines are added, and an end line.
pub fn longer_text_keeps_its_front()
    ensures { (N : Names) (bytes : List ℕ) (front whole : Journal) (added : List LineValue) → IsFrontOf N bytes front → whole.lines ≡ front.lines ++ added
        → text N whole ≡ bytes ++ (lines_text N (length front.lines + 1) added ++ end_text whole.moves whole.tables) }
{}

/// Lines are right, or there is exactly one first line that isn't, for one cause.
pub fn right_or_one_bad_line()
    ensures some { (tables : List Offer) (y : Yard) (lines : List LineValue) → AreTables tables → Stands tables y
        → ((t : ℕ) → t < length tables → IsTable (offer tables t).table)
        → IsRight tables y lines ⊎ ((e : BadLineValue) × HasBadLine tables y lines e) }
    ensures not_both { (tables : List Offer) (y : Yard) (lines : List LineValue) (e : BadLineValue) → IsRight tables y lines → HasBadLine tables y lines e → ⊥ }
    ensures one { (tables : List Offer) (y : Yard) (lines : List LineValue) (e f : BadLineValue) → AreTables tables → Stands tables y
        → HasBadLine tables y lines e → HasBadLine tables y lines f → e ≡ f }
{}

/// A journal is whole, or isn't for exactly one cause.
pub fn whole_or_one_cause()
    ensures some { (tables : List Offer) (y : Yard) (J : Journal) → AreTables tables → Stands tables y
        → ((t : ℕ) → t < length tables → IsTable (offer tables t).table)
        → IsWhole tables y J ⊎ ((e : BadLineValue) × IsBrokenJournal tables y J e) }
    ensures not_both { (tables : List Offer) (y : Yard) (J : Journal) (e : BadLineValue) → IsWhole tables y J → IsBrokenJournal tables y J e → ⊥ }
    ensures one { (tables : List Offer) (y : Yard) (J : Journal) (e f : BadLineValue) → AreTables tables → Stands tables y
        → IsBrokenJournal tables y J e → IsBrokenJournal tables y J f → e ≡ f }
{}
