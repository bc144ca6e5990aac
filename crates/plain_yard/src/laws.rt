// What holds of every run on one thread: laws of the definitions, with no code.
ghost use Rattle.std.specs.Prelude.{◌≡◌, ◌++◌, [], ℕ, List};
ghost use Rattle.rail_model.specs.declared.types.Entry.{Entry as EntryValue};
ghost use Rattle.rail_model.specs.declared.types.Line.{Line as LineValue};
ghost use Rattle.rail_model.specs.Journal.{IsRight, IsDone, IsWhole, IsRound, after_lines, with_counts};
ghost use Rattle.rail_model.specs.Lines.{journal_of};
ghost use Rattle.rail_model.specs.Plain.{Plain};
ghost use Rattle.rail_model.specs.State.{Legal};
ghost use Rattle.rail_model.specs.Yard.{Offer, Yard, IsHistory, after, offer, opening};
ghost use Rattle.table_exchange.specs.Tables.{AreTables, Stands};
ghost use Rattle.plain_yard.specs.Keeps.{Keeps};
ghost use Rattle.plain_yard.specs.Rounds.{Finishes};

/// A run that begins at a legal state of table 0 keeps a legal run.
pub fn begun_keeps()
    ensures { (tables : List Offer) (start : List ℕ) → AreTables tables → Legal (offer tables 0).table start → Keeps tables (opening start) [] }
{}

/// What right lines from a legal state of table 0 lead to keeps, with the lines, a legal run.
pub fn replayed_keeps()
    ensures { (tables : List Offer) (start : List ℕ) (all : List LineValue) (state : Plain)
        → AreTables tables → Legal (offer tables 0).table start → IsRight tables (opening start) all
        → state.yard ≡ after_lines (opening start) all → state.lines ≡ all → Keeps tables state.yard state.lines }
{}

/// Right lines after a state that keeps a legal run lead to one that does, and so does a history with its journal.
pub fn histories_keep()
    ensures lines { (tables : List Offer) (y : Yard) (lines added : List LineValue)
        → Keeps tables y lines → IsRight tables y added → Keeps tables (after_lines y added) (lines ++ added) }
    ensures history { (tables : List Offer) (y : Yard) (lines : List LineValue) (h : List EntryValue)
        → Keeps tables y lines → IsHistory tables y h → Keeps tables (after y h) (lines ++ journal_of tables y h) }
{}

/// Right lines from a start, with those of a finish that ends with all arrived and no table open, are a whole journal
/// from that start, whose counts are true. Where there were no lines before, they are the round robin's.
pub fn finished_is_whole()
    ensures whole { (tables : List Offer) (start : List ℕ) (y z : Yard) (last : ℕ) (lines longer : List LineValue)
        → IsRight tables (opening start) lines → y ≡ after_lines (opening start) lines
        → Finishes tables y last lines z longer → IsDone tables z → IsWhole tables (opening start) (with_counts longer) }
    ensures round { (tables : List Offer) (y z : Yard) (last : ℕ) (lines : List LineValue) → Finishes tables y last [] z lines → IsRound tables y last lines }
{}

/// A run that is done has a whole journal, its yard is legal, and its moves are those of its lines.
pub fn run_is_whole()
    ensures whole { (tables : List Offer) (y : Yard) (lines : List LineValue) → (run : Keeps tables y lines) → IsDone tables y → IsWhole tables (opening run.start) (with_counts lines) }
    ensures stands { (tables : List Offer) (y : Yard) (lines : List LineValue) → Keeps tables y lines → Stands tables y }
    ensures moves { (tables : List Offer) (y : Yard) (lines : List LineValue) → Keeps tables y lines → y.moves ≡ (with_counts lines).moves }
{}
