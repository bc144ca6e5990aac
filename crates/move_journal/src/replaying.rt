// Journals that are replayed, line after line.
ghost use Rattle.std.specs.Prelude.{◌≡◌, ◌↔◌, ◌+◌, ℕ, ◌<◌, length, map, IsTrue, OnOk, IfOk, IfErr};
ghost use Rattle.rail_model.specs.Table.{IsTable, trains, place, last};
ghost use Rattle.rail_model.specs.State.{Legal};
ghost use Rattle.rail_model.specs.Yard.{offer, opening, Tries};
ghost use Rattle.rail_model.specs.Journal.{IsLine, after_line};
ghost use Rattle.rail_model.specs.declared.types.Tried.TheVariants.{Early, NoMore};
ghost use Rattle.rail_model.specs.declared.types.Line.TheVariants.{Move as MoveLine};
ghost use Rattle.table_exchange.specs.Steps.{after_tried};
ghost use Rattle.table_exchange.specs.Tables.{AreTables, Stands};
ghost use Rattle.move_journal.specs.Replays.{IsStepBetween, IsBad, Replays};

use crate::{BadLine, Journal};
use rail_model::{
    Ask, HasTable, Line, PlainState, Standing, State, Table, Tried, last_of, point_of, trains_of,
};
use std::alloc::Global;
use table_exchange::{ask, in_force, try_table};

/// The state that the lines lead to from a start that is legal for table 0, with the lines.
///
/// # Errors
///
/// The first line that isn't right. `Memory` where memory runs out.
pub fn replay<A: HasTable>(
    alloc: Global,
    tables: &[A],
    start: &State,
    journal: &Journal,
) -> Result<PlainState, BadLine>
    requires tables { AreTables (map A.offer tables.now) }
    requires legal { Legal (offer (map A.offer tables.now) 0).table start.now }
    ensures replays { Replays (map A.offer tables.now) (opening start.now) journal.now result }
    ensures stands { IfOk result (λ state. Stands (map A.offer tables.now) state.yard) }
{
    let positions = start.copy(alloc)?;
    let all = journal.lines();
    let lines = Vec::from_slice(alloc, all)?;
    let mut yard = Standing::new(positions, 0, 0, 0);
    for (index, line) in all.iter().enumerate() {
        replay_line(tables, &mut yard, index as u64 + 1, line)?;
    }
    Ok(PlainState::new(yard, lines))
}

// One line: right, or bad for one cause.
fn replay_line<A: HasTable>(
    tables: &[A],
    yard: &mut Standing,
    number: u64,
    line: &Line,
) -> Result<(), BadLine>
    requires tables { AreTables (map A.offer tables.now) }
    requires stands { Stands (map A.offer tables.now) yard.old }
    ensures right { OnOk result (IsLine (map A.offer tables.now) yard.old line.now × (yard.new ≡ after_line yard.old line.now)) }
    ensures bad { IfErr result (IsBad (map A.offer tables.now) yard.old number line.now) }
    ensures stands { Stands (map A.offer tables.now) yard.new }
{
    let (table, wanted) = match *line {
        Line::Move { train, from, to } => {
            return replay_move(tables, yard, number, train, from, to);
        }
        Line::Table { table } => (table, Tried::Exchanged),
        Line::KeptDiffers {
            table,
            train,
            place,
        } => (table, Tried::Differs { train, place }),
        Line::KeptOver {
            table,
            section,
            count,
        } => (table, Tried::Over { section, count }),
    };
    if replay_table(tables, yard, table, wanted) {
        Ok(())
    } else {
        Err(BadLine::Table { line: number })
    }
}

// The line of a move.
fn replay_move<A: HasTable>(
    tables: &[A],
    yard: &mut Standing,
    line: u64,
    train: u32,
    from: u32,
    to: Option<u32>,
) -> Result<(), BadLine>
    requires stands { Stands (map A.offer tables.now) yard.old }
    ensures right { OnOk result (IsLine (map A.offer tables.now) yard.old (MoveLine train from to)
        × (yard.new ≡ after_line yard.old (MoveLine train from to))) }
    ensures bad { IfErr result (IsBad (map A.offer tables.now) yard.old line (MoveLine train from to)) }
    ensures stands { Stands (map A.offer tables.now) yard.new }
{
    let table = in_force(tables, yard);
    if train >= trains_of(table) {
        return Err(BadLine::Place { line });
    }
    if yard.positions().place(train) == last_of(table, train) {
        return Err(BadLine::Move {
            line,
            ask: Ask::Arrived,
        });
    }
    if !is_step(table, yard.positions(), train, from, to) {
        return Err(BadLine::Place { line });
    }
    match ask(tables, yard, train) {
        Ask::Yes => Ok(()),
        answer => Err(BadLine::Move { line, ask: answer }),
    }
}

// Whether a train is at one point, and its next one is the other, if there is one.
fn is_step(table: &Table, state: &State, train: u32, from: u32, to: Option<u32>) -> bool
    requires size { length state.now ≡ trains table.now }
    requires train { train < trains table.now }
    requires unfinished { place state.now train < last table.now train }
    requires formed { IsTable table.now }
    ensures { IsTrue result ↔ IsStepBetween table.now state.now train from to }
{
    let at = state.place(train);
    point_of(table, train, at) == Some(from) && point_of(table, train, at + 1) == to
}

// Tries the next table, which is to have this number and this answer.
fn replay_table<A: HasTable>(tables: &[A], yard: &mut Standing, table: u32, wanted: Tried) -> bool
    requires tables { AreTables (map A.offer tables.now) }
    requires stands { Stands (map A.offer tables.now) yard.old }
    ensures right { IsTrue result ↔ ((table ≡ yard.old.tried + 1) × Tries (map A.offer tables.now) yard.old wanted) }
    ensures after { IsTrue result → yard.new ≡ after_tried yard.old wanted }
    ensures stands { Stands (map A.offer tables.now) yard.new }
{
    if table != yard.tried() + 1 {
        return false;
    }
    let told = try_table(tables, yard);
    is_same(&told, &wanted)
}

// Whether the answer is the one that is wanted.
fn is_same(told: &Tried, wanted: &Tried) -> bool
    ensures { IsTrue result ↔ (told.now ≡ wanted.now) }
{
    told == wanted
}
