// The round robin.
ghost use Rattle.std.specs.Prelude.{◌≡◌, ◌⊎◌, ℕ, ◌+◌, ◌-◌, ◌<◌, length, map, vec_capacity, false, if◌then◌else◌};
ghost use Rattle.rail_model.specs.Journal.{IsDone};
ghost use Rattle.rail_model.specs.Move.{Live};
ghost use Rattle.rail_model.specs.Table.{IsTable, trains};
ghost use Rattle.rail_model.specs.Yard.{in_force as table_in_force, offer, IsNextDue};
ghost use Rattle.plain_yard.specs.Lines.{IsReady, is_answer};
ghost use Rattle.plain_yard.specs.Rounds.{Reaches, Finishes, Went};

use crate::CheckedTable;
use crate::lines::{ask_line, try_line};
use rail_model::{Ask, HasTable, Line, Standing, Table, Tried, trains_of};

/// Whether a table that was tried has its answer.
pub fn has_answer(tried: Tried) -> bool
    ensures { result ≡ is_answer tried }
{
    !matches!(tried, Tried::Early { .. } | Tried::NoMore)
}

// Tries the next table, and says whether it has its answer.
fn try_next<A: HasTable>(tables: &[A], yard: &mut Standing, lines: &mut Vec<Line>) -> bool
    requires { IsReady (map A.offer tables.now) yard.old lines.old.items (vec_capacity lines.old) }
    ensures tried { yard.new.tried ≡ yard.old.tried + (if result then 1 else 0) }
    ensures reaches { (b : ℕ) → Reaches (map A.offer tables.now) yard.old b lines.old.items yard.new b lines.new.items }
    ensures none { result ≡ false → (IsNextDue (map A.offer tables.now) yard.old → ⊥) × (yard.new ≡ yard.old) }
    ensures room { vec_capacity lines.new ≡ vec_capacity lines.old }
    ensures ready { IsReady (map A.offer tables.now) yard.new lines.new.items (vec_capacity lines.new) }
{
    has_answer(try_line(tables, yard, lines))
}

// Tries tables as long as the next one is due, and gives the table in force then.
fn try_due<'a, A: CheckedTable>(
    tables: &'a [A],
    yard: &mut Standing,
    lines: &mut Vec<Line>,
) -> &'a Table
    requires { IsReady (map A.offer tables.now) yard.old lines.old.items (vec_capacity lines.old) }
    ensures given { result.now ≡ table_in_force (map A.offer tables.entry.now) yard.new }
    ensures moved { (yard.new ≡ yard.old) ⊎ (yard.old.tried < yard.new.tried) }
    ensures reaches { (b : ℕ) → Reaches (map A.offer tables.entry.now) yard.old b lines.old.items yard.new b lines.new.items }
    ensures none { IsNextDue (map A.offer tables.entry.now) yard.new → ⊥ }
    ensures formed { IsTable (table_in_force (map A.offer tables.entry.now) yard.new) }
    ensures live { Live (table_in_force (map A.offer tables.entry.now) yard.new) }
    ensures room { vec_capacity lines.new ≡ vec_capacity lines.old }
    ensures ready { IsReady (map A.offer tables.entry.now) yard.new lines.new.items (vec_capacity lines.new) }
{
    while try_next(tables, yard, lines) {}
    live_in_force(tables, yard)
}

// Asks for a train, and says whether it moved.
fn go<A: HasTable>(tables: &[A], yard: &mut Standing, lines: &mut Vec<Line>, train: u32) -> bool
    requires ready { IsReady (map A.offer tables.now) yard.old lines.old.items (vec_capacity lines.old) }
    requires train { train < trains (table_in_force (map A.offer tables.now) yard.old) }
    ensures went { Went (map A.offer tables.now) yard.old lines.old.items train result yard.new lines.new.items }
    ensures room { vec_capacity lines.new ≡ vec_capacity lines.old }
    ensures ready { IsReady (map A.offer tables.now) yard.new lines.new.items (vec_capacity lines.new) }
{
    matches!(ask_line(tables, yard, lines, train), Ask::Yes)
}

/// The table in force, of which no state is stuck.
pub(crate) fn live_in_force<'a, A: CheckedTable>(tables: &'a [A], yard: &Standing) -> &'a Table
    requires { yard.now.table < length tables.now }
    ensures given { result.now ≡ table_in_force (map A.offer tables.entry.now) yard.now }
    ensures formed { IsTable result.now }
    ensures live { Live result.now }
{
    tables[yard.table() as usize].checked()
}

/// Makes all that is left: tables as soon as they are due, and else train after train.
pub(crate) fn finish_lines<A: CheckedTable>(
    tables: &[A],
    yard: &mut Standing,
    lines: &mut Vec<Line>,
)
    requires { IsReady (map A.offer tables.now) yard.old lines.old.items (vec_capacity lines.old) }
    ensures done { IsDone (map A.offer tables.now) yard.new }
    ensures round { Finishes (map A.offer tables.now) yard.old (trains (offer (map A.offer tables.now) 0).table - 1) lines.old.items yard.new lines.new.items }
    ensures room { vec_capacity lines.new ≡ vec_capacity lines.old }
    ensures ready { IsReady (map A.offer tables.now) yard.new lines.new.items (vec_capacity lines.new) }
{
    let trains = trains_of(try_due(tables, yard, lines));
    let mut before = trains.saturating_sub(1);
    let mut asked = 0;
    while asked < trains {
        let train = (before + 1 + asked) % trains;
        if go(tables, yard, lines, train) {
            before = train;
            asked = 0;
            try_due(tables, yard, lines);
        } else {
            asked += 1;
        }
    }
}
