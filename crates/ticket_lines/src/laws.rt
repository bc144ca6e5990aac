// What holds of the lines of every history: laws of the definitions, with no code.
ghost use Rattle.std.specs.Prelude.{◌≡◌, ℕ, ◌+◌, List, ◌++◌, length};
ghost use Rattle.rail_model.specs.declared.types.Entry.{Entry as EntryValue};
ghost use Rattle.rail_model.specs.Lines.{journal_of};
ghost use Rattle.rail_model.specs.Yard.{Offer, Yard, after};
ghost use Rattle.ticket_lines.specs.Tickets.{marks_of, all_lines, own_lines, lines_of};
ghost use Rattle.ticket_lines.specs.Merging.{bare};

/// Without their tickets the lines of a history are its journal.
pub fn lines_of_histories()
    ensures { (tables : List Offer) (y : Yard) (k : ℕ) (H : List EntryValue) → bare (all_lines k (marks_of tables y H)) ≡ journal_of tables y H }
{}

/// A history that goes on adds the lines of what is added, from the state and the ticket that it had come to.
pub fn own_lines_of_histories()
    ensures { (tables : List Offer) (y : Yard) (p : ℕ) (H added : List EntryValue)
        → lines_of tables y p (H ++ added) ≡ lines_of tables y p H ++ own_lines p (length H) (marks_of tables (after y H) added) }
{}
