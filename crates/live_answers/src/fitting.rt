// Whether the next table would take over now.
ghost use Rattle.std.specs.Prelude.{◌≡◌, ◌↔◌, ◌+◌, ◌≤◌, IsTrue, MatchOption, length, map};
ghost use Rattle.rail_model.specs.Exchange.{Admits, IsDue};
ghost use Rattle.rail_model.specs.Names.{Names as NameLists};
ghost use Rattle.rail_model.specs.State.{Legal};
ghost use Rattle.rail_model.specs.Table.{trains};
ghost use Rattle.rail_model.specs.Yard.{in_force as in_force_of, IsOpen, next_offer};
ghost use Rattle.table_exchange.specs.Admitted.{told};
ghost use Rattle.table_exchange.specs.Tables.{AreTables, Stands};
ghost use Rattle.live_lines.specs.Tables.{IsNamedTable};
ghost use Rattle.live_answers.specs.Fits.{IsFit};
ghost use Rattle.live_answers.specs.Prospects.{HasNames};

use live_lines::TableAnswer;
use rail_model::{HasTable, Standing, Table};
use table_exchange::{NotNow, admit, is_due};

/// The next table, if one has no answer yet.
pub fn next_table<'a, A: HasTable>(tables: &'a [A], yard: &Standing) -> Option<&'a A>
    ensures { MatchOption result (length (map A.offer tables.entry.now) ≤ yard.now.tried + 1)
        (λ next. IsOpen (map A.offer tables.entry.now) yard.now
        × (A.offer next.now ≡ next_offer (map A.offer tables.entry.now) yard.now)) }
{
    tables.get(yard.tried() as usize + 1)
}

/// Whether a table is due at a state of the one in force.
pub fn is_next_due<A: HasTable>(table: &Table, yard: &Standing, next: &A) -> bool
    requires { length yard.now.positions ≡ trains table.now }
    ensures { IsTrue result ↔ IsDue table.now yard.now.positions yard.now.moves (A.offer next.now).after }
{
    is_due(table, yard.positions(), yard.moves(), next.after())
}

// Whether a table may take over from the one in force.
fn admit_next<A: HasTable>(table: &Table, yard: &Standing, next: &A) -> Result<(), NotNow>
    requires same { trains (A.offer next.now).table ≡ trains table.now }
    requires legal { Legal table.now yard.now.positions }
    ensures { Admits table.now (A.offer next.now).table yard.now.positions (told result) }
{
    admit(table, next.table(), yard.positions())
}

/// What the next table would be told, if it were due, and whether it is.
pub fn fit_of<A: HasTable>(now: &Table, tables: &[A], yard: &Standing) -> TableAnswer
    requires now { now.now ≡ in_force_of (map A.offer tables.now) yard.now }
    requires tables { AreTables (map A.offer tables.now) }
    requires stands { Stands (map A.offer tables.now) yard.now }
    ensures fit { IsFit (map A.offer tables.now) yard.now result }
    ensures named { (N : NameLists) → HasNames N (in_force_of (map A.offer tables.now) yard.now)
        → IsNamedTable N result }
{
    let Some(next) = next_table(tables, yard) else {
        return TableAnswer::NoMore;
    };
    let table = yard.tried() + 1;
    let due = is_next_due(now, yard, next);
    match admit_next(now, yard, next) {
        Ok(()) => TableAnswer::Fits { table, due },
        Err(NotNow::Differs { train, place }) => TableAnswer::Differs {
            table,
            due,
            train,
            place,
        },
        Err(NotNow::Over { section, count }) => TableAnswer::Over {
            table,
            due,
            section,
            count,
        },
    }
}
