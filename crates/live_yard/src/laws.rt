// What holds of every session: laws of the definitions, with no code.
ghost use Rattle.std.specs.Prelude.{◌≡◌, ◌+◌, ◌<◌, ◌≤◌, ◌++◌, ℕ, List, Option, Some, length, true};
ghost use Rattle.live_yard.specs.GrantedLines.{WasGranted};
ghost use Rattle.live_yard.specs.declared.granted_lines.Passed.TheVariants.{Granted as GrantedBefore};
ghost use Rattle.live_yard.specs.declared.requests.Elsewhere.TheVariants.{Before};
ghost use Rattle.live_yard.specs.declared.requests.Reply.{Reply as ReplyValue};
ghost use Rattle.live_yard.specs.declared.requests.Reply.TheVariants.{Elsewhere as ElsewhereReply, Granted, Held};
ghost use Rattle.live_yard.specs.declared.requests.Request.{Request as RequestValue};
ghost use Rattle.live_yard.specs.declared.requests.Served.{Served as ServedValue};
ghost use Rattle.live_yard.specs.declared.told.Told.{Told as ToldValue};
ghost use Rattle.rail_model.specs.declared.types.Line.{Line as LineValue};
ghost use Rattle.rail_model.specs.Move.{Completes, Live};
ghost use Rattle.live_yard.specs.Answers.{AsksAt, IsServed, WantsAt};
ghost use Rattle.live_yard.specs.Firing.{DispatchState, IsSettled};
ghost use Rattle.live_yard.specs.Reported.{Reported, IsReported, MayGoOn, NamesNext, place_of, positions_of, table_of};
ghost use Rattle.live_yard.specs.Sessions.{GoesOn, IsSession, PlainSession, is_refusal};

/// From each state of a session whose table in force has no stuck state, every way of going on by moves ends with all
/// trains arrived, after all the moves that remain.
pub fn trains_can_arrive()
    ensures { (v : Reported) → IsReported v → Live (table_of v) → Completes (table_of v) (positions_of v) }
{}

/// Reports and wants only refuse more: the grants and the lines of a session are those of a session without them, in
/// which trains only ask for their next places, and the next table is tried.
pub fn reports_only_refuse()
    ensures { (v w : DispatchState) (requests : List RequestValue) (served : List ServedValue)
        → IsSession v requests served w → PlainSession v w }
{}

/// A train that asks for its next place and may go on is granted it, by the line that comes next; one that may not
/// isn't.
pub fn grants_where_it_may()
    ensures asks { (v w : DispatchState) (i : ℕ) (named : Option ℕ) (reply : ReplyValue) → AsksAt v i named reply w
        → NamesNext v.yard i named → MayGoOn v.yard i → reply ≡ Granted (length v.yard.run.lines + 1) }
    ensures wants { (v w : DispatchState) (i : ℕ) (named : Option ℕ) (reply : ReplyValue) → WantsAt v i named reply w
        → NamesNext v.yard i named → MayGoOn v.yard i → reply ≡ Granted (length v.yard.run.lines + 1) }
{}

/// A train that asks again for a place that a line granted it is answered that line, and nothing is changed.
pub fn repeats_what_was_granted()
    ensures asks { (v w : DispatchState) (i k n : ℕ) (reply : ReplyValue) → IsReported v.yard → i < length v.yard.there
        → AsksAt v i (Some k) reply w → WasGranted v.yard.run.lines (place_of v.yard i) i k n
        → (reply ≡ ElsewhereReply (Before (GrantedBefore n))) × (w ≡ v) }
    ensures wants { (v w : DispatchState) (i k n : ℕ) (reply : ReplyValue) → IsReported v.yard → i < length v.yard.there
        → WantsAt v i (Some k) reply w → WasGranted v.yard.run.lines (place_of v.yard i) i k n
        → (reply ≡ ElsewhereReply (Before (GrantedBefore n))) × (w ≡ v) }
{}

/// A refusal, and an answer that was given before, change nothing. Where a train has to wait, no train moves.
pub fn refusals_change_nothing()
    ensures refused { (v w : DispatchState) (request : RequestValue) (served : ServedValue) → IsSettled v
        → IsServed v request served w
        → is_refusal served.reply ≡ true → (w ≡ v) × (served.granted ≡ 0) }
    ensures held { (v w : DispatchState) (request : RequestValue) (served : ServedValue) (told : ToldValue)
        → IsSettled v
        → IsServed v request served w → served.reply ≡ Held told → (w.yard ≡ v.yard) × (served.granted ≡ 0) }
{}

/// Lines are only added: those of the request itself, at most one, and then one for each want that was granted. Each is
/// right where it stands, and they lead to the state after the request. The tables stay, and so does whether trains
/// report.
pub fn lines_are_added()
    ensures lines { (v w : DispatchState) (request : RequestValue) (served : ServedValue) → IsServed v request served w
        → (own : List LineValue) × (fired : List LineValue) × (w.yard.run.lines ≡ v.yard.run.lines ++ (own ++ fired))
        × (length own ≤ 1) × (length fired ≡ served.granted) }
    ensures right { (v w : DispatchState) (request : RequestValue) (served : ServedValue) → IsServed v request served w
        → (added : List LineValue) × GoesOn v.yard.run added w.yard.run }
    ensures tables { (v w : DispatchState) (request : RequestValue) (served : ServedValue) → IsServed v request served w
        → w.yard.run.tables ≡ v.yard.run.tables }
    ensures reports { (v w : DispatchState) (request : RequestValue) (served : ServedValue)
        → IsServed v request served w
        → w.yard.reports ≡ v.yard.reports }
{}
