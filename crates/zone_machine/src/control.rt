// The control's entries, and why it may not make one.
ghost use Rattle.std.specs.Prelude.{◌≡◌, ℕ, ◌+◌, ◌-◌, ◌<◌, ◌≤◌, ◌^◌, [], ◌∷◌, ◌++◌, length, map, sum, nat_abs, None, Some, slice_get, if◌then◌else◌, option_map, not, nat_lt};
ghost use Rattle.std.specs.Bool.{then_some};
ghost use Rattle.rail_model.specs.Checks.{below, is_due, admitted};
ghost use Rattle.rail_model.specs.declared.types.Tried.TheVariants.{Early, Exchanged};
ghost use Rattle.rail_model.specs.State.{Legal};
ghost use Rattle.rail_model.specs.Table.{Table as TableValue, trains, count};
ghost use Rattle.rail_model.specs.Turns.{first_of};
ghost use Rattle.rail_model.specs.Yard.{control};
ghost use Rattle.table_exchange.specs.Admitted.{told as told_of};
ghost use Rattle.move_claim.specs.declared.cells.Cell.TheVariants.{Position, Table as TableCell};
ghost use Rattle.move_claim.specs.Cells.{number_in, first_unknown};
ghost use Rattle.zone_machine.specs.Entered.{control_told};
ghost use Rattle.zone_machine.specs.Entries.{tried, is_answer as answers, is_exchange as exchanges, exchange_effects};
ghost use Rattle.zone_machine.specs.Needs.{has_more as more_tables};
ghost use Rattle.zone_machine.specs.declared.steps.Step.TheVariants.{Append};
ghost use Rattle.zone_machine.specs.declared.steps.NotAllowed.TheVariants.{Zone, Unknown, NoMore, Full};
ghost use Rattle.zone_machine.specs.Steps.{append_checks, missing_zone, after_control, refusal as cause_of};
ghost use Rattle.zone_machine.specs.World.{actor, trains_of as trains_in};

use crate::machine::Row;
use crate::{CONTROL, Core, NotAllowed};
use legal_state::count_of;
use move_claim::{Cell, Known, Owed};
use rail_model::{
    Entry, HasTable, Layout, Reply, Standing, State, Table, Tried, sections_of, zones_of,
};
use table_exchange::{NotNow, admit, all_arrived, due};
use zone_locks::ZoneSet;

/// The first of the trains' positions that isn't known.
pub(crate) fn unknown_position(known: &Known, trains: u32) -> Option<Cell>
    ensures { result ≡ first_unknown (map (λ (i : ℕ). Position i) (below trains)) known.now }
{
    for train in 0..trains {
        let cell = Cell::Position { train };
        if known.number(cell).is_none() {
            return Some(cell);
        }
    }
    None
}

/// The known positions take the place of earlier ones.
pub fn note_positions(positions: &mut State, known: &Known)
    requires { length positions.old ≤ 32 }
    ensures { positions.new ≡ map (λ i. number_in known.now (Position i)) (below (length positions.old)) }
{
    for train in 0..positions.len() as u32 {
        let place = known.number(Cell::Position { train }).unwrap_or(0);
        positions.set(train, place);
    }
}

// How many places the trains have passed.
fn sum_of(state: &State) -> u64
    requires { length state.now ≤ 32 }
    ensures sum { result ≡ sum state.now }
    ensures small { result < 2 ^ 40 }
{
    let mut total = 0;
    for place in state.as_slice() {
        total += u64::from(*place);
    }
    total
}

/// The moves that led from the opening to some positions.
pub fn moves_to(opening: &Standing, positions: &State) -> u32
    requires trains { (length opening.now.positions ≤ 32) × (length positions.now ≤ 32) }
    requires small { sum positions.now + opening.now.moves - sum opening.now.positions < 2 ^ 32 }
    ensures { result ≡ sum positions.now + opening.now.moves - sum opening.now.positions }
{
    let passed = sum_of(positions) + u64::from(opening.moves());
    passed.saturating_sub(sum_of(opening.positions())) as u32
}

// The answer to the control of a table that is due.
fn told(admitted: Result<(), NotNow>) -> Tried
    ensures { result ≡ told_of admitted }
{
    match admitted {
        Ok(()) => Tried::Exchanged,
        Err(NotNow::Differs { train, place }) => Tried::Differs { train, place },
        Err(NotNow::Over { section, count }) => Tried::Over { section, count },
    }
}

/// The answer to the control of the next table.
pub fn tell<A: HasTable>(table: &Table, next: &A, positions: &State, moves: u32) -> Tried
    requires same { trains (A.offer next.now).table ≡ trains table.now }
    requires legal { Legal table.now positions.now }
    ensures { result ≡ (if is_due table.now positions.now moves (A.offer next.now).after then admitted table.now (A.offer next.now).table positions.now else Early moves) }
{
    if due(moves, next.after(), all_arrived(table, positions)) {
        told(admit(table, next.table(), positions))
    } else {
        Tried::Early { moves }
    }
}

// Owes what an exchange writes: the table's number, and each count of the new table.
fn owe_exchange(new: &Table, number: u32, positions: &State, owed: &mut Owed)
    requires legal { Legal new.now positions.now }
    requires none { owed.old ≡ [] }
    ensures { owed.new ≡ exchange_effects new.now number positions.now }
{
    owed.push(Cell::Table, number);
    for section in 0..sections_of(new) {
        owed.push(Cell::Count { section }, count_of(new, positions, section));
    }
}

/// Owes what changes where this is the answer to the control, and nothing else.
pub fn owe_told(new: &Table, number: u32, positions: &State, told: Tried, owed: &mut Owed)
    requires { told ≡ Exchanged → Legal new.now positions.now }
    ensures { owed.new ≡ (if exchanges told then exchange_effects new.now number positions.now else []) }
{
    owed.clear();
    if let Tried::Exchanged = told {
        owe_exchange(new, number, positions, owed);
    }
}

/// The last table that has its answer, after this answer of the next one.
pub fn last_answered(position: u32, told: Tried) -> u32
    requires { position + 1 < 2 ^ 32 }
    ensures { result ≡ (if answers told then position + 1 else position) }
{
    match told {
        Tried::Early { .. } | Tried::NoMore => position,
        _ => position + 1,
    }
}

// This is the answer to the control of the next table.
fn tell_control(row: &mut Row, layout: &Layout, new: &Table, positions: &State, told: Tried)
    requires legal { told ≡ Exchanged → Legal new.now positions.now }
    requires room { row.old.position + 1 < 2 ^ 32 }
    ensures { row.new ≡ control_told (below layout.now.zones) new.now positions.now told row.old }
{
    owe_told(new, row.position + 1, positions, told, &mut row.owed);
    row.position = last_answered(row.position, told);
    row.closing = true;
    row.claimed = ZoneSet::all(zones_of(layout));
}

impl<'a, A: HasTable> Core<'a, A> {
    /// Whether there is a table after the last one that has its answer.
    pub(crate) fn has_more(&self, row: &Row) -> bool
        ensures { result ≡ more_tables self.now.setup row.now }
    {
        row.position as usize + 1 < self.tables.len()
    }

    // Why the control may not add its entry, but for its zones being given back and the table in force being unknown.
    fn table_refusal(&self, row: &Row) -> Option<NotAllowed>
        ensures { result ≡ first_of (
            option_map (λ z. Zone z) (missing_zone row.now (below self.now.setup.layout.zones))
            ∷ option_map (λ c. Unknown c) (first_unknown (map (λ (i : ℕ). Position i) (below (trains_in self.now.setup))) row.now.known)
            ∷ then_some (not (more_tables self.now.setup row.now)) NoMore
            ∷ then_some (nat_lt self.now.setup.most (length self.now.world.history + 1)) (Full self.now.setup.most)
            ∷ []) }
    {
        if let Some(zone) = ZoneSet::all(zones_of(self.layout)).first_outside(&row.held) {
            return Some(NotAllowed::Zone { zone });
        }
        if let Some(cell) = unknown_position(&row.known, self.trains()) {
            return Some(NotAllowed::Unknown { cell });
        }
        if !self.has_more(row) {
            return Some(NotAllowed::NoMore);
        }
        if self.most <= self.history.len() as u64 {
            return Some(NotAllowed::Full { most: self.most });
        }
        None
    }

    /// Why the control may not add its entry.
    pub(crate) fn control_refusal(&self, row: &Row) -> Option<NotAllowed>
        requires { slice_get self.now.world.actors control ≡ Some row.now }
        ensures { result ≡ first_of (append_checks self.now.setup control self.now.world row.now 1) }
    {
        if row.closing {
            return Some(NotAllowed::Closing);
        }
        if row.known.number(Cell::Table).is_none() {
            return Some(NotAllowed::Unknown { cell: Cell::Table });
        }
        self.table_refusal(row)
    }

    /// Adds the control's entry, and gives the answer of the next table.
    pub(crate) fn enter_table(&mut self) -> Tried
        requires { cause_of self.old.setup control self.old.world Append ≡ None }
        ensures told { result ≡ tried self.old.setup (actor self.old.world control) }
        ensures world { self.new.world ≡ after_control self.old.setup control self.old.world (actor self.old.world control) }
        ensures setup { self.new.setup ≡ self.old.setup }
    {
        let tables = self.tables;
        let row = &mut self.rows[CONTROL as usize];
        note_positions(&mut self.positions, &row.known);
        let table = row.known.number(Cell::Table).unwrap_or(0);
        let next = &tables[row.position as usize + 1];
        let moves = moves_to(&self.opening, &self.positions);
        let told = tell(tables[table as usize].table(), next, &self.positions, moves);
        tell_control(row, self.layout, next.table(), &self.positions, told);
        self.history.push_reserved(Entry {
            who: CONTROL,
            reply: Reply::Control(told),
        });
        self.words[0] = self.history.len() as u64;
        told
    }
}
