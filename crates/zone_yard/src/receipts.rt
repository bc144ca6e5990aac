// The lines that a pass keeps, and the answers that give it lines.
ghost use Rattle.std.specs.Prelude.{◌≡◌, ℕ, ◌+◌, ◌++◌, ◌<◌, ◌≤◌, ◌^◌, [], ◌∷◌, length, unwrap_or, true, Some, IfOk};
ghost use Rattle.rail_model.specs.declared.types.Line.TheVariants.{Move as MoveLine};
ghost use Rattle.rail_model.specs.Blocks.{block_entries};
ghost use Rattle.rail_model.specs.Table.{point, trains};
ghost use Rattle.rail_model.specs.Yard.{offer, control};
ghost use Rattle.zone_machine.specs.Entries.{known_positions, tried};
ghost use Rattle.zone_machine.specs.World.{trains_of};
ghost use Rattle.zone_yard.specs.Setup.{core};
ghost use Rattle.move_claim.specs.declared.cells.Cell.TheVariants.{Table as TableCell};
ghost use Rattle.move_claim.specs.Cells.{number_of, number_in};
ghost use Rattle.move_claim.specs.Claims.{claim_of};
ghost use Rattle.move_claim.specs.Deciding.{decided};
ghost use Rattle.zone_yard.specs.Core.{MayEnter};
ghost use Rattle.zone_yard.specs.Lines.{AreLines, moves_from};
ghost use Rattle.zone_yard.specs.Tells.{Appends, IsOurs};

use crate::exchanging::told_of_next;
use crate::steps::append;
use crate::views::{HowMany, Place};
use crate::yard::Yard;
use move_claim::{Claim, Known};
use plain_yard::table_line;
use rail_model::{BlockAsk, Line, State, Table, Tried, point_of};
use std::alloc::{AllocError, Global};
use std::marker::{Brand, Model};
use ticket_lines::TicketLine;

/// The lines of a pass with their tickets. There is room for all that it can have.
#[derive(Drop)]
pub struct Receipts {
    lines: Vec<TicketLine>,
}

impl Model for Receipts {
    ghost use Rattle.std.specs.Prelude.{vec_capacity};
    ghost use Rattle.zone_yard.specs.Lines.{Lines};

    ghost Value = { Lines };

    ghost view = { λ r. record { items = r.lines.items; room = vec_capacity r.lines } };
}

// The line of a train's move from a place.
fn move_line(table: &Table, train: u32, place: u32) -> Line
    requires train { train < trains table.now }
    requires place { place < 2 ^ 31 }
    ensures { result ≡ MoveLine train (unwrap_or (point table.now train place) 0) (point table.now train (place + 1)) }
{
    Line::Move {
        train,
        from: point_of(table, train, place).unwrap_or(0),
        to: point_of(table, train, place + 1),
    }
}

impl Receipts {
    /// No line, and room for some.
    ///
    /// # Errors
    ///
    /// Out of memory alone.
    pub(crate) fn with_room(alloc: Global, room: usize) -> Result<Self, AllocError>
        ensures none { IfOk result (λ r. r.items ≡ []) }
        ensures room { IfOk result (λ r. room ≤ r.room) }
    {
        Ok(Receipts {
            lines: Vec::with_capacity(alloc, room)?,
        })
    }

    // Adds a line.
    fn push(&mut self, ticket: u64, line: Line)
        requires { length self.old.items < self.old.room }
        ensures { self.new ≡ record self.old { items = self.old.items ++ record { ticket = ticket; line = line } ∷ [] } }
    {
        self.lines.push_reserved(TicketLine { ticket, line });
    }

    // Adds the lines of all moves of a claim.
    fn push_moves(&mut self, table: &Table, claim: Claim, ticket: u64)
        requires train { 0 < claim.steps → claim.train < trains table.now }
        requires places { 0 < claim.steps → claim.place + claim.steps < 2 ^ 31 }
        requires tickets { ticket < 2 ^ 40 }
        requires room { length self.old.items + claim.steps ≤ self.old.room }
        ensures { self.new ≡ record self.old { items = self.old.items ++ moves_from ticket table.now claim.train claim.place claim.steps } }
    {
        for step in 0..claim.steps {
            let line = move_line(table, claim.train, claim.place + step);
            self.push(ticket + u64::from(step), line);
        }
    }

    /// The lines.
    pub(crate) fn into_lines(self) -> Vec<TicketLine>
        ensures { result.items ≡ self.items }
    {
        self.lines
    }
}

// How many entries an answer to this many steps has.
pub(crate) fn entries_of(answer: BlockAsk, steps: u32) -> u32
    ensures { (p : ℕ) → result ≡ length (block_entries p steps answer) }
{
    match answer {
        BlockAsk::Yes => steps,
        BlockAsk::First { .. } | BlockAsk::NotWhole { .. } => 1,
    }
}

// A train's answer is entered, and the lines of its moves are kept: the ticket of its first entry.
pub(crate) fn enter_answer<J: HowMany>(
    yard: &Yard<'_>,
    seat: &mut Place,
    receipts: &mut Receipts,
    table: u32,
    claim: Claim,
    answer: BlockAsk,
    steps: u32,
) -> u64
    requires ours { IsOurs yard.now seat.old.table_id seat.old.me.view }
    requires steps { steps ≡ J.steps }
    requires aboard { seat.old.me.view.aboard ≡ true }
    requires train { (claim.train < 32) × (seat.old.me.view.number ≡ claim.train) }
    requires table { (table < length yard.now.setup.tables) × (number_of TableCell seat.old.me.view.actor.known ≡ Some table) }
    requires claim { claim ≡ claim_of (offer yard.now.setup.tables table).table claim.train seat.old.me.view.actor.position steps }
    requires answer { answer ≡ decided (offer yard.now.setup.tables table).table claim (number_in seat.old.me.view.actor.known) }
    requires may { MayEnter yard.now.setup steps seat.old.me.view }
    requires lines { AreLines seat.old.me.view receipts.old }
    ensures same { (seat.new.table_id ≡ seat.old.table_id) × (seat.new.id ≡ seat.old.id) }
    ensures appends { Appends steps seat.old.me result seat.new.me }
    ensures lines { AreLines seat.new.me.view receipts.new }
{
    let ticket = append::<J>(yard, seat, steps, entries_of(answer, claim.steps) as u64);
    if let BlockAsk::Yes = answer {
        receipts.push_moves(yard.key.table(table), claim, ticket);
    }
    ticket
}

// The control holds all zones and knows all that it asks about: the answer of the next table is entered, and its line is kept. What it is
// answered, and the ticket; the positions that it knows are noted.
pub(crate) fn enter_tried(
    yard: &Yard<'_>,
    seat: &mut Place,
    receipts: &mut Receipts,
    last: u32,
    known: &Known,
    positions: &mut State,
) -> (Tried, u64)
    requires ours { IsOurs yard.now seat.old.table_id seat.old.me.view }
    requires aboard { seat.old.me.view.aboard ≡ true }
    requires pass { (seat.old.me.view.number ≡ control) × (seat.old.me.view.actor.position ≡ last) }
    requires known { known.now ≡ seat.old.me.view.actor.known }
    requires one_each { length positions.old ≡ trains_of (core yard.now.setup) }
    requires more { last + 1 < length yard.now.setup.tables }
    requires may { MayEnter yard.now.setup 1 seat.old.me.view }
    requires lines { AreLines seat.old.me.view receipts.old }
    ensures same { (seat.new.table_id ≡ seat.old.table_id) × (seat.new.id ≡ seat.old.id) }
    ensures appends { Appends 1 seat.old.me result.1 seat.new.me }
    ensures told { result.0 ≡ tried (core yard.now.setup) seat.old.me.view.actor }
    ensures noted { positions.new ≡ known_positions (core yard.now.setup) seat.old.me.view.actor }
    ensures lines { AreLines seat.new.me.view receipts.new }
{
    let ticket = append::<Brand>(yard, seat, 1, 1);
    let told = told_of_next(yard, last, known, positions);
    if let Some(line) = table_line(last + 1, told) {
        receipts.push(ticket, line);
    }
    (told, ticket)
}
