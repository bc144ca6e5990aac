// What the texts of a session tell: laws of the definitions, with no code.
ghost use Rattle.std.specs.Prelude.{[], ℕ, List};
ghost use Rattle.line_service.specs.Answered.{Answered};
ghost use Rattle.line_service.specs.declared.server.Course.{Course};
ghost use Rattle.live_lines.specs.Kinds.{TellsLines};
ghost use Rattle.rail_model.specs.Names.{Names};
ghost use Rattle.live_session.specs.Answering.{Answers, IsOpening, last_text};
ghost use Rattle.live_session.specs.Journals.{HasTags, IsLastLine, TellsJournal};
ghost use Rattle.live_session.specs.States.{SessionState, lines};

/// Of the lines that are written in a session, those that begin with a digit are those of its journal, in order, and
/// each is right where it stands. The first text has none of them.
pub fn written_lines_are_the_journal()
    ensures answers { (s t : SessionState) (heard : List (List ℕ)) (text : List ℕ) (course : Course) → HasTags s
        → Answered Answers s heard t text course → TellsJournal s text t }
    ensures opening { (s : SessionState) (N : Names) (n : ℕ) (text : List ℕ) → IsOpening s text
        → TellsLines N n [] text }
    ensures last { (s : SessionState) (N : Names) (n : ℕ) → TellsLines N n [] (last_text s) }
{}

/// The last line is `end` exactly if all is done.
pub fn the_last_line_tells_the_end()
    ensures { (s : SessionState)
        → IsLastLine s.dispatch.yard.run.tables s.dispatch.yard.run.yard (lines s) (last_text s) }
{}
