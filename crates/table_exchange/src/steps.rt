// What a question is answered on one thread, and what it changes.
ghost use Rattle.std.specs.Prelude.{◌≡◌, ◌↔◌, ℕ, ◌+◌, ◌<◌, ◌≤◌, length, map, IsTrue, MatchOption};
ghost use Rattle.rail_model.specs.Exchange.{Admits, IsDue};
ghost use Rattle.rail_model.specs.Move.{Answers};
ghost use Rattle.rail_model.specs.State.{Legal};
ghost use Rattle.rail_model.specs.Table.{IsTable, trains};
ghost use Rattle.rail_model.specs.Yard.{in_force as table_in_force, next_offer, IsOpen, Tries};
ghost use Rattle.table_exchange.specs.Admitted.{told};
ghost use Rattle.table_exchange.specs.Steps.{after_ask, after_tried};
ghost use Rattle.table_exchange.specs.Tables.{AreTables, Stands};

use crate::{NotNow, admit, is_due};
use legal_state::can_move;
use rail_model::{Ask, HasTable, Standing, Table, Tried};

/// The table in force.
pub fn in_force<'a, A: HasTable>(tables: &'a [A], yard: &Standing) -> &'a Table
    requires { yard.now.table < length tables.now }
    ensures given { result.now ≡ table_in_force (map A.offer tables.entry.now) yard.now }
    ensures formed { IsTable result.now }
{
    tables[yard.table() as usize].table()
}

/// Asks for a train, and moves it where it may.
pub fn ask<A: HasTable>(tables: &[A], yard: &mut Standing, train: u32) -> Ask
    requires stands { Stands (map A.offer tables.now) yard.old }
    requires train { train < trains (table_in_force (map A.offer tables.now) yard.old) }
    ensures answer { Answers (table_in_force (map A.offer tables.now) yard.old) yard.old.positions train result }
    ensures after { yard.new ≡ after_ask yard.old train result }
    ensures stands { Stands (map A.offer tables.now) yard.new }
    ensures formed { IsTable (table_in_force (map A.offer tables.now) yard.new) }
{
    let table = in_force(tables, yard);
    match can_move(table, yard.positions(), train) {
        Ask::Yes => {
            yard.advance(train);
            Ask::Yes
        }
        answer => answer,
    }
}

// The next table, if one has no answer yet.
fn next_table<'a, A: HasTable>(tables: &'a [A], yard: &Standing) -> Option<&'a A>
    ensures { MatchOption result (length (map A.offer tables.entry.now) ≤ yard.now.tried + 1)
        (λ next. IsOpen (map A.offer tables.entry.now) yard.now × (A.offer next.now ≡ next_offer (map A.offer tables.entry.now) yard.now)) }
{
    tables.get(yard.tried() as usize + 1)
}

// Whether a table is due at a state of the one in force.
fn is_next_due<A: HasTable>(table: &Table, yard: &Standing, next: &A) -> bool
    requires { length yard.now.positions ≡ trains table.now }
    ensures { IsTrue result ↔ IsDue table.now yard.now.positions yard.now.moves (A.offer next.now).after }
{
    is_due(table, yard.positions(), yard.moves(), next.after())
}

// Whether a table may take over from the one in force.
fn admit_next<A: HasTable>(table: &Table, yard: &Standing, next: &A) -> Result<(), NotNow>
    requires same { trains (A.offer next.now).table ≡ trains table.now }
    requires legal { Legal table.now yard.now.positions }
    ensures admits { Admits table.now (A.offer next.now).table yard.now.positions (told result) }
    ensures formed { IsTable (A.offer next.now).table }
{
    admit(table, next.table(), yard.positions())
}

/// Tries the next table: it takes over, or is kept out for a first cause, or is early, or there is none.
pub fn try_table<A: HasTable>(tables: &[A], yard: &mut Standing) -> Tried
    requires tables { AreTables (map A.offer tables.now) }
    requires stands { Stands (map A.offer tables.now) yard.old }
    ensures answer { Tries (map A.offer tables.now) yard.old result }
    ensures after { yard.new ≡ after_tried yard.old result }
    ensures stands { Stands (map A.offer tables.now) yard.new }
    ensures formed { IsTable (table_in_force (map A.offer tables.now) yard.new) }
{
    let table = in_force(tables, yard);
    let Some(next) = next_table(tables, yard) else {
        return Tried::NoMore;
    };
    if !is_next_due(table, yard, next) {
        return Tried::Early {
            moves: yard.moves(),
        };
    }
    match admit_next(table, yard, next) {
        Ok(()) => {
            yard.exchange();
            Tried::Exchanged
        }
        Err(NotNow::Differs { train, place }) => {
            yard.keep_out();
            Tried::Differs { train, place }
        }
        Err(NotNow::Over { section, count }) => {
            yard.keep_out();
            Tried::Over { section, count }
        }
    }
}
