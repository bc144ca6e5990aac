// The state and the journal that the history leads to.
ghost use Rattle.std.specs.Prelude.{◌≡◌, ◌+◌, ◌++◌, ◌<◌, [], map, length, option_to_list, unwrap_or, IfOk};
ghost use Rattle.rail_model.specs.declared.types.Reply.TheVariants.{Driver, Control as ControlReply};
ghost use Rattle.rail_model.specs.declared.types.Line.TheVariants.{Move as MoveLine};
ghost use Rattle.rail_model.specs.Lines.{journal_of, line_of};
ghost use Rattle.rail_model.specs.Table.{IsTable, trains, place as place_of, last, point};
ghost use Rattle.rail_model.specs.Yard.{IsAnswer, IsHistory, after, after_entry, control};
ghost use Rattle.table_exchange.specs.Tables.{AreTables, Stands};
ghost use Rattle.zone_machine.specs.Weave.{plain_of};

use crate::Core;
use rail_model::{
    Ask, Entry, HasTable, Line, PlainState, Reply, Standing, State, Table, Tried, point_of,
};
use std::alloc::{AllocError, Global};
use table_exchange::in_force;

// The line of a train's next move under a table.
fn next_line(table: &Table, state: &State, train: u32) -> Line
    requires formed { IsTable table.now }
    requires size { length state.now ≡ trains table.now }
    requires train { train < trains table.now }
    requires unfinished { place_of state.now train < last table.now train }
    ensures { result ≡ MoveLine train (unwrap_or (point table.now train (place_of state.now train)) 0) (point table.now train (place_of state.now train + 1)) }
{
    let place = state.place(train);
    let Some(from) = point_of(table, train, place) else {
        unreachable!();
    };
    let to = point_of(table, train, place + 1);
    Line::Move { train, from, to }
}

// This was the answer to a train: where it moved, its line is added and its move made.
fn replay_ask<A: HasTable>(
    tables: &[A],
    yard: &mut Standing,
    lines: &mut Vec<Line>,
    train: u32,
    ask: Ask,
) -> Result<(), AllocError>
    requires stands { Stands (map A.offer tables.now) yard.old }
    requires answer { IsAnswer (map A.offer tables.now) yard.old (record { who = train; reply = Driver ask }) }
    ensures after { IfOk result (λ _. yard.new ≡ after_entry yard.old (record { who = train; reply = Driver ask })) }
    ensures adds { IfOk result (λ _. lines.new.items ≡ lines.old.items ++ option_to_list (line_of (map A.offer tables.now) yard.old (record { who = train; reply = Driver ask }))) }
{
    match ask {
        Ask::Yes => {
            let table = in_force(tables, yard);
            lines.push(next_line(table, yard.positions(), train))?;
            yard.advance(train);
            Ok(())
        }
        _ => Ok(()),
    }
}

// This was the answer to the control: where a table has its answer, its line is added, and it takes over or is kept out.
fn replay_tried<A: HasTable>(
    tables: &[A],
    yard: &mut Standing,
    lines: &mut Vec<Line>,
    tried: Tried,
) -> Result<(), AllocError>
    requires are { AreTables (map A.offer tables.now) }
    requires stands { Stands (map A.offer tables.now) yard.old }
    ensures after { IfOk result (λ _. yard.new ≡ after_entry yard.old (record { who = control; reply = ControlReply tried })) }
    ensures adds { IfOk result (λ _. lines.new.items ≡ lines.old.items ++ option_to_list (line_of (map A.offer tables.now) yard.old (record { who = control; reply = ControlReply tried }))) }
{
    let table = yard.tried() + 1;
    match tried {
        Tried::Exchanged => {
            lines.push(Line::Table { table })?;
            yard.exchange();
            Ok(())
        }
        Tried::Differs { train, place } => {
            lines.push(Line::KeptDiffers {
                table,
                train,
                place,
            })?;
            yard.keep_out();
            Ok(())
        }
        Tried::Over { section, count } => {
            lines.push(Line::KeptOver {
                table,
                section,
                count,
            })?;
            yard.keep_out();
            Ok(())
        }
        Tried::Early { .. } | Tried::NoMore => Ok(()),
    }
}

// Adds an entry's line, where it has one, and goes on to the state after the entry.
fn replay<A: HasTable>(
    tables: &[A],
    yard: &mut Standing,
    lines: &mut Vec<Line>,
    entry: Entry,
) -> Result<(), AllocError>
    requires are { AreTables (map A.offer tables.now) }
    requires stands { Stands (map A.offer tables.now) yard.old }
    requires answer { IsAnswer (map A.offer tables.now) yard.old entry }
    ensures after { IfOk result (λ _. yard.new ≡ after_entry yard.old entry) }
    ensures adds { IfOk result (λ _. lines.new.items ≡ lines.old.items ++ option_to_list (line_of (map A.offer tables.now) yard.old entry)) }
{
    match entry.reply {
        Reply::Driver(ask) => replay_ask(tables, yard, lines, entry.who, ask),
        Reply::NotWhole { .. } => Ok(()),
        Reply::Control(tried) => replay_tried(tables, yard, lines, tried),
    }
}

// Adds the lines of all entries, and goes on to the state after the last one.
fn replay_all<A: HasTable>(
    tables: &[A],
    history: &[Entry],
    yard: &mut Standing,
    lines: &mut Vec<Line>,
) -> Result<(), AllocError>
    requires are { AreTables (map A.offer tables.now) }
    requires stands { Stands (map A.offer tables.now) yard.old }
    requires right { IsHistory (map A.offer tables.now) yard.old history.now }
    ensures after { IfOk result (λ _. yard.new ≡ after yard.old history.now) }
    ensures adds { IfOk result (λ _. lines.new.items ≡ lines.old.items ++ journal_of (map A.offer tables.now) yard.old history.now) }
{
    for entry in history {
        replay(tables, yard, lines, *entry)?;
    }
    Ok(())
}

impl<'a, A: HasTable> Core<'a, A> {
    /// The state that the history leads to, and its journal.
    ///
    /// # Errors
    ///
    /// Out of memory.
    pub fn plain(&self, alloc: Global) -> Result<PlainState, AllocError>
        ensures { IfOk result (λ plain. plain ≡ plain_of self.now.setup [] self.now.world) }
    {
        let start = &self.opening;
        let positions = start.positions().copy(alloc)?;
        let mut yard = Standing::new(positions, start.table(), start.tried(), start.moves());
        let mut lines = Vec::new(alloc);
        replay_all(self.tables, &self.history, &mut yard, &mut lines)?;
        Ok(PlainState::new(yard, lines))
    }
}
