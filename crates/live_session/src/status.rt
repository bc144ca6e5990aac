// Whether the next table is due, and whether all is done.
ghost use Rattle.std.specs.Prelude.{◌≡◌, ◌+◌, ◌<◌, ◌^◌, MatchOption, count_by, length, map};
ghost use Rattle.rail_model.specs.Exchange.{IsDue};
ghost use Rattle.rail_model.specs.Journal.{is_table};
ghost use Rattle.rail_model.specs.Table.{trains};
ghost use Rattle.rail_model.specs.Yard.{in_force};
ghost use Rattle.table_exchange.specs.Tables.{AreTables, Stands};
ghost use Rattle.live_session.specs.News.{IsStatus};

use live_answers::{is_next_due, next_table};
use rail_model::{HasTable, Line, Standing, Table};
use table_exchange::all_arrived;

/// The next table, where it is due, and whether all is done.
#[derive(Clone, Copy)]
pub struct Status {
    pub due: Option<u32>,
    pub done: bool,
}

// The next table, where it is due.
fn due_of<A: HasTable>(table: &Table, yard: &Standing, next: &A) -> Option<u32>
    requires size { length yard.now.positions ≡ trains table.now }
    requires few { yard.now.tried < 2 ^ 31 }
    ensures { MatchOption result (IsDue table.now yard.now.positions yard.now.moves (A.offer next.now).after → ⊥)
        (λ t. (t ≡ yard.now.tried + 1) × IsDue table.now yard.now.positions yard.now.moves (A.offer next.now).after) }
{
    if is_next_due(table, yard, next) {
        Some(yard.tried() + 1)
    } else {
        None
    }
}

/// Whether the next table is due, and whether all is done.
pub(crate) fn status_of<A: HasTable>(now: &Table, tables: &[A], yard: &Standing) -> Status
    requires now { now.now ≡ in_force (map A.offer tables.now) yard.now }
    requires tables { AreTables (map A.offer tables.now) }
    requires stands { Stands (map A.offer tables.now) yard.now }
    ensures { IsStatus (map A.offer tables.now) yard.now result }
{
    match next_table(tables, yard) {
        Some(next) => Status {
            due: due_of(now, yard, next),
            done: false,
        },
        None => Status {
            due: None,
            done: all_arrived(now, yard.positions()),
        },
    }
}

/// How many of the lines are tables that took over.
pub(crate) fn exchanges_of(lines: &[Line]) -> usize
    ensures { result ≡ count_by is_table lines.now }
{
    lines
        .iter()
        .filter(|line| matches!(line, Line::Table { .. }))
        .count()
}
