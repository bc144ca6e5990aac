// Laws of the texts, with no code.
ghost use Rattle.std.specs.Prelude.{ℕ, List, Bool, take};
ghost use Rattle.rail_model.specs.Names.{Names as NamesValue};
ghost use Rattle.live_lines.specs.declared.answers.Answer.{Answer as AnswerValue};
ghost use Rattle.live_lines.specs.declared.rows.Row.{Row as RowValue};
ghost use Rattle.live_lines.specs.declared.events.Event.{Event as EventValue};
ghost use Rattle.live_lines.specs.Answers.{answer_words};
ghost use Rattle.live_lines.specs.Hearing.{heard};
ghost use Rattle.live_lines.specs.Kinds.{tag_length, IsNoJournalLine, IsTag};
ghost use Rattle.live_lines.specs.Lines.{close_words};
ghost use Rattle.live_lines.specs.Rows.{event_words, row_words};

/// Of all lines of the output only those of the journal begin with a digit.
pub fn only_journal_lines_begin_with_digits()
    ensures answers { (N : NamesValue) (answer : AnswerValue) → IsNoJournalLine (answer_words N answer) }
    ensures rows { (N : NamesValue) (row : RowValue) → IsNoJournalLine (row_words N row) }
    ensures events { (N : NamesValue) (event : EventValue) → IsNoJournalLine (event_words N event) }
    ensures close { (whole : Bool) (n t : ℕ) → IsNoJournalLine (close_words whole n t) }
{}

/// The tag of a line that comes in begins with `#`, and so does each line that goes out behind it.
pub fn tags_begin_with_a_mark()
    ensures { (N : NamesValue) (reports : Bool) (line : List ℕ)
        → IsTag (take (tag_length (heard N reports line)) line) }
{}
