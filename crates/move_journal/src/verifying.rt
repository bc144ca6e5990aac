// Journals that are verified: replayed, and looked at where their lines end.
ghost use Rattle.std.specs.Prelude.{map, OnOk, IfErr};
ghost use Rattle.rail_model.specs.State.{Legal};
ghost use Rattle.rail_model.specs.Yard.{offer, opening};
ghost use Rattle.rail_model.specs.Journal.{IsDone};
ghost use Rattle.table_exchange.specs.Tables.{AreTables, Stands};
ghost use Rattle.move_journal.specs.Counted.{CountsAreTrue};
ghost use Rattle.move_journal.specs.Replays.{Lacks, Verifies};

use crate::lines::{moves_of, tables_of};
use crate::{BadLine, Journal, replay};
use rail_model::{HasTable, Standing, State};
use std::alloc::Global;
use table_exchange::{first_unfinished, in_force};

/// Whether a journal is whole: its lines are right from a start that is legal for table 0, all trains have
/// arrived, no table is open, and both counts are true.
///
/// # Errors
///
/// The first line that isn't right, or what the journal lacks at its end. `Memory` where memory runs out.
pub fn verify<A: HasTable>(
    alloc: Global,
    tables: &[A],
    start: &State,
    journal: &Journal,
) -> Result<(), BadLine>
    requires tables { AreTables (map A.offer tables.now) }
    requires legal { Legal (offer (map A.offer tables.now) 0).table start.now }
    ensures { Verifies (map A.offer tables.now) (opening start.now) journal.now result }
{
    let state = replay(alloc, tables, start, journal)?;
    check_end(tables, state.yard(), journal)
}

// What a journal lacks where its lines end.
fn check_end<A: HasTable>(tables: &[A], yard: &Standing, journal: &Journal) -> Result<(), BadLine>
    requires tables { AreTables (map A.offer tables.now) }
    requires stands { Stands (map A.offer tables.now) yard.now }
    ensures done { OnOk result (IsDone (map A.offer tables.now) yard.now) }
    ensures counted { OnOk result (CountsAreTrue journal.now) }
    ensures lacks { IfErr result (Lacks (map A.offer tables.now) yard.now journal.now) }
{
    if let Some(train) = first_unfinished(in_force(tables, yard), yard.positions()) {
        return Err(BadLine::Unfinished { train });
    }
    let next = yard.tried() as usize + 1;
    if next < tables.len() {
        return Err(BadLine::Open {
            table: yard.tried() + 1,
        });
    }
    let lines = journal.lines();
    if moves_of(lines) != journal.moves() as usize {
        return Err(BadLine::Counts);
    }
    if tables_of(lines) != journal.tables() as usize {
        return Err(BadLine::Counts);
    }
    Ok(())
}
