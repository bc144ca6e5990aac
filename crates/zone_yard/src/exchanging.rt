// The control tries the next table, under all zones.
ghost use Rattle.std.specs.Prelude.{◌≡◌, ◌≢◌, ◌+◌, ◌<◌, ◌≤◌, [], ◌∷◌, length, map, true, false, None, ℕ};
ghost use Rattle.rail_model.specs.Checks.{below};
ghost use Rattle.rail_model.specs.Yard.{control as control_number};
ghost use Rattle.rail_model.specs.declared.types.Reply.TheVariants.{Control as ControlEntry};
ghost use Rattle.move_claim.specs.declared.cells.Cell.TheVariants.{Position, Table as TableCell};
ghost use Rattle.move_claim.specs.Cells.{number_of, first_unknown};
ghost use Rattle.zone_machine.specs.ControlAsked.{IsTold};
ghost use Rattle.zone_machine.specs.Entries.{known_positions, tried as tried_by, control_after};
ghost use Rattle.zone_machine.specs.World.{trains_of as trains_in, holds_all};
ghost use Rattle.zone_yard.specs.Holding.{span, AreCells, Knows, Learns};
ghost use Rattle.zone_yard.specs.Lines.{AreLines};
ghost use Rattle.zone_yard.specs.Passes.{told};
ghost use Rattle.zone_yard.specs.Replies.{turn_to};
ghost use Rattle.zone_yard.specs.Setup.{core};
ghost use Rattle.zone_yard.specs.Tells.{Appends, IsOurs};
ghost use Rattle.zone_yard.specs.Views.{knower, new_entries};

use crate::cells::pay_all;
use crate::receipts::{Receipts, enter_tried};
use crate::replies::Turn;
use crate::steps::{read, read_table, word_of};
use crate::views::Place;
use crate::yard::{Control, TurnRoom, Yard};
use crate::zones::{release_all, wait_for_all, zones};
use ats_io::{Gate, Moment};
use move_claim::{Cell, Known};
use rail_model::{HasTable, State, Tried, trains_of};
use std::marker::Brand;
use std::sync::Wait;
use zone_locks::ZoneSet;
use zone_machine::{CONTROL, last_answered, moves_to, note_positions, owe_told, tell};

// The number of the yard's trains.
fn trains(yard: &Yard<'_>) -> u32
    ensures count { result ≡ trains_in (core yard.now.setup) }
    ensures few { result ≤ 32 }
{
    let tables = yard.tables();
    trains_of(tables[0].table())
}

// All zones are held. Reads every train's position.
fn read_positions(yard: &Yard<'_>, seat: &mut Place, known: &mut Known)
    requires ours { IsOurs yard.now seat.old.table_id seat.old.me.view }
    requires aboard { (seat.old.me.view.aboard ≡ true) × (seat.old.me.view.actor.closing ≡ false) }
    requires guard { holds_all (core yard.now.setup) seat.old.me.view.actor.held ≡ true }
    requires known { (known.old ≡ seat.old.me.view.actor.known) × (length known.old ≤ 1) }
    ensures same { (seat.new.table_id ≡ seat.old.table_id) × (seat.new.id ≡ seat.old.id) }
    ensures knows { Knows seat.old.me seat.new.me known.new }
    ensures all { first_unknown (map (λ (i : ℕ). Position i) (below (trains_in (core yard.now.setup)))) known.new ≡ None }
    ensures table { number_of TableCell known.new ≡ number_of TableCell known.old }
{
    for train in 0..trains(yard) {
        let cell = Cell::Position { train };
        let number = read::<Brand>(yard, seat, cell, word_of(yard, cell));
        known.put(cell, number as u32);
    }
}

// All zones are held. Reads the table in force and every train's position.
fn know_state(yard: &Yard<'_>, seat: &mut Place, known: &mut Known)
    requires ours { IsOurs yard.now seat.old.table_id seat.old.me.view }
    requires aboard { (seat.old.me.view.aboard ≡ true) × (seat.old.me.view.actor.closing ≡ false) }
    requires held { seat.old.me.view.actor.held ≡ span (below yard.now.setup.layout.zones) 0 yard.now.setup.layout.zones }
    requires nothing { seat.old.me.view.actor.known ≡ [] }
    ensures same { (seat.new.table_id ≡ seat.old.table_id) × (seat.new.id ≡ seat.old.id) }
    ensures learns { Learns seat.old.me seat.new.me }
    ensures known { known.new ≡ seat.new.me.view.actor.known }
    ensures some { seat.new.me.view.actor.held ≢ [] }
    ensures all { first_unknown (TableCell ∷ map (λ (i : ℕ). Position i) (below (trains_in (core yard.now.setup)))) known.new ≡ None }
{
    let word = word_of(yard, Cell::Table);
    let table = read_table(yard, seat, word);
    known.clear();
    known.put(Cell::Table, table as u32);
    read_positions(yard, seat, known);
}

// What the control is answered of the table after the last one that has its answer, by the numbers that it knows. Its positions are noted.
pub(crate) fn told_of_next(
    yard: &Yard<'_>,
    tried: u32,
    known: &Known,
    positions: &mut State,
) -> Tried
    requires asked { IsTold (core yard.now.setup) (knower known.now tried) }
    requires one_each { length positions.old ≡ trains_in (core yard.now.setup) }
    ensures told { result ≡ tried_by (core yard.now.setup) (knower known.now tried) }
    ensures noted { positions.new ≡ known_positions (core yard.now.setup) (knower known.now tried) }
{
    note_positions(positions, known);
    let tables = yard.tables();
    let table = known.number(Cell::Table).unwrap_or(0);
    let moves = moves_to(yard.opening(), positions);
    let next = &tables[tried as usize + 1];
    tell(tables[table as usize].table(), next, positions, moves)
}

// All zones are held and all that the control asks about is known: adds its entry. What it is answered, and the entry's ticket; what it
// owes is noted.
fn enter_turn(
    yard: &Yard<'_>,
    seat: &mut Place,
    tried: u32,
    room: &mut TurnRoom,
    receipts: &mut Receipts,
) -> (Tried, u64)
    requires ours { IsOurs yard.now seat.old.table_id seat.old.me.view }
    requires pass { (seat.old.me.view.number ≡ control_number) × (seat.old.me.view.actor.position ≡ tried) }
    requires aboard { (seat.old.me.view.aboard ≡ true) × (seat.old.me.view.actor.closing ≡ false) }
    requires held { seat.old.me.view.actor.held ≡ span (below yard.now.setup.layout.zones) 0 yard.now.setup.layout.zones }
    requires known { room.old.known ≡ seat.old.me.view.actor.known }
    requires all { first_unknown (TableCell ∷ map (λ (i : ℕ). Position i) (below (trains_in (core yard.now.setup)))) room.old.known ≡ None }
    requires more { tried + 1 < length yard.now.setup.tables }
    requires one_each { length room.old.positions ≡ trains_in (core yard.now.setup) }
    requires room { length seat.old.me.view.mine + 1 ≤ yard.now.setup.calls }
    requires lines { AreLines seat.old.me.view receipts.old }
    ensures same { (seat.new.table_id ≡ seat.old.table_id) × (seat.new.id ≡ seat.old.id) }
    ensures appends { Appends 1 seat.old.me result.1 seat.new.me }
    ensures entry { new_entries 1 seat.old.me.view ≡ told control_number (ControlEntry result.0 ∷ []) }
    ensures actor { seat.new.me.view.actor ≡ control_after (core yard.now.setup) seat.old.me.view.actor }
    ensures told { result.0 ≡ tried_by (core yard.now.setup) seat.old.me.view.actor }
    ensures owes { room.new.owed ≡ seat.new.me.view.actor.owed }
    ensures cells { AreCells (core yard.now.setup) room.new.owed }
    ensures one_each { length room.new.positions ≡ length room.old.positions }
    ensures lines { AreLines seat.new.me.view receipts.new }
{
    let (told, ticket) = enter_tried(
        yard,
        seat,
        receipts,
        tried,
        &room.known,
        &mut room.positions,
    );
    let tables = yard.tables();
    let next = tables[tried as usize + 1].table();
    owe_told(next, tried + 1, &room.positions, told, &mut room.owed);
    (told, ticket)
}

// The turn of the control that is answered so.
fn turn_of(told: Tried, ticket: u64) -> Turn
    ensures { result ≡ turn_to ticket told }
{
    match told {
        Tried::Exchanged => Turn::Exchanged { ticket },
        Tried::Differs { train, place } => Turn::Differs {
            ticket,
            train,
            place,
        },
        Tried::Over { section, count } => Turn::Over {
            ticket,
            section,
            count,
        },
        Tried::Early { moves } => Turn::Early { ticket, moves },
        Tried::NoMore => Turn::NoMore,
    }
}

impl<'a> Yard<'a> {
    ghost use Rattle.std.specs.Prelude.{◌≡◌};
    ghost use Rattle.zone_yard.specs.Entering.{IsSamePass};
    ghost use Rattle.zone_yard.specs.Replies.{Turns};

    /// Tries the next table: takes all zones, reads, adds its entry, pays, and gives all zones back. It may wait for zones.
    pub fn exchange<R: Wait, G: Gate>(&self, rt: &R, control: &mut Control, gate: &G) -> Turn
        requires { control.old.yard ≡ self.now }
        ensures turn { Turns control.old result control.new }
        ensures same { IsSamePass control.old control.new }
    {
        if control.entries == self.calls() {
            return Turn::Spent;
        }
        if self.tables().len() <= control.tried as usize + 1 {
            return Turn::NoMore;
        }
        let all = ZoneSet::all(zones(self));
        wait_for_all(rt, self, &mut control.seat, CONTROL, &all);
        gate.at(CONTROL, Moment::Taken);
        know_state(self, &mut control.seat, &mut control.room.known);
        gate.at(CONTROL, Moment::Read);
        let (told, ticket) = enter_turn(
            self,
            &mut control.seat,
            control.tried,
            &mut control.room,
            &mut control.receipts,
        );
        gate.at(CONTROL, Moment::Appended);
        pay_all(self, &mut control.seat, &control.room.owed);
        if let Tried::Exchanged = told {
            gate.at(CONTROL, Moment::Paid);
        }
        release_all(self, &mut control.seat, &all, zones(self));
        gate.at(CONTROL, Moment::Released);
        control.tried = last_answered(control.tried, told);
        control.entries += 1;
        turn_of(told, ticket)
    }
}
