// Passes board and leave.
ghost use Rattle.std.specs.Prelude.{◌≡◌, ◌<◌, ◌≤◌, [], true};
ghost use Rattle.zone_yard.specs.Aboard.{IsPass};
ghost use Rattle.zone_yard.specs.Boarding.{boarded_pass, with_pass, TakesBack};
ghost use Rattle.zone_yard.specs.Lines.{AreLines, Lines, most_lines};
ghost use Rattle.zone_yard.specs.Kept.{IsPassNumber};
ghost use Rattle.zone_yard.specs.Passes.{HasBoarded, standing};
ghost use Rattle.zone_yard.specs.Setup.{most_passes, state_after};
ghost use Rattle.zone_yard.specs.Tells.{IsOurs};
ghost use Rattle.zone_yard.specs.Views.{pass_of};

use crate::receipts::Receipts;
use crate::replies::Board;
use crate::steps::{board_seat, join, look};
use crate::views::Place;
use crate::yard::{Asker, Control, Driver, Root, TurnRoom, Yard};
use move_claim::{Known, Owed};
use std::alloc::Global;
use std::marker::Brand;
use zone_machine::CONTROL;

// A pass's seat comes back to the root.
pub(crate) fn take_back(
    yard: &Yard<'_>,
    root: &mut Root,
    seat: Place,
    number: u32,
    receipts: Receipts,
)
    requires root { root.old.yard ≡ yard.now }
    requires seat { IsOurs yard.now seat.table_id seat.me.view × (seat.me.slots ≡ []) }
    requires free { (seat.me.view.aboard ≡ true) × (seat.me.view.actor.held ≡ []) }
    requires number { (seat.me.view.number ≡ number) × IsPassNumber yard.now.setup number }
    requires lines { AreLines seat.me.view receipts }
    ensures { TakesBack root.old (pass_of seat.table_id seat.me.view) root.new }
{
    join(yard, &mut root.seat, seat);
    look(yard, &mut root.seat);
    root.out -= 1;
    root.lines[number as usize] = receipts.into_lines();
}

// The seat of a pass that boards.
fn seat_of(yard: &Yard<'_>, root: &mut Root, number: u32) -> Place
    requires ours { root.old.yard ≡ yard.now }
    requires pass { IsPassNumber yard.now.setup number × (number < most_passes) }
    requires ashore { HasBoarded root.old number → ⊥ }
    ensures root { root.new ≡ with_pass root.old number }
    ensures pass { pass_of result.table_id result.me.view ≡ boarded_pass root.old number }
    ensures fresh { IsPass number (standing root.old.yard.setup.opening.yard number) 0 result.me }
    ensures stands { standing (state_after result.me.view.setup result.me.view.seen) number ≡ standing root.old.yard.setup.opening.yard number }
    ensures lines { (l : Lines) → l.items ≡ [] → most_lines number ≤ l.room → AreLines result.me.view l }
{
    let seat = board_seat::<Brand>(yard, &mut root.seat, number);
    root.boarded[number as usize] = true;
    root.out += 1;
    seat
}

// As many moves as a train can make.
const MOST_MOVES: usize = 127;

// As many tables as can be tried.
const MOST_TURNS: usize = 15;

impl<'a> Yard<'a> {
    ghost use Rattle.std.specs.Prelude.{◌≡◌, ◌<◌};
    ghost use Rattle.rail_model.specs.Table.{trains};
    ghost use Rattle.rail_model.specs.Yard.{offer, control as control_number};
    ghost use Rattle.zone_yard.specs.Boarding.{Boards, TakesBack};

    /// The pass of a train, which boards once in a yard's life.
    ///
    /// # Errors
    ///
    /// `Taken` where the train has boarded before; this is tested first. Else `Memory`, where there is no room for what it works with.
    pub fn board(&self, alloc: Global, root: &mut Root, train: u32) -> Result<Driver, Board>
        requires ours { root.old.yard ≡ self.now }
        requires train { train < trains (offer root.old.yard.setup.tables 0).table }
        ensures { Boards root.old train result root.new }
    {
        let position = self.key.place(train);
        if root.boarded[train as usize] {
            return Err(Board::Taken);
        }
        let (Ok(receipts), Ok(known), Ok(owed)) = (
            Receipts::with_room(alloc, MOST_MOVES),
            Known::new(alloc),
            Owed::new(alloc),
        ) else {
            return Err(Board::Memory);
        };
        let seat = seat_of(self, root, train);
        let asker = Asker {
            seat,
            receipts,
            known,
            owed,
        };
        Ok(Driver {
            asker,
            train,
            position,
            entries: 0,
        })
    }

    /// A driver gives its pass back.
    pub fn leave(&self, driver: Driver, root: &mut Root)
        requires root { root.old.yard ≡ self.now }
        requires driver { driver.yard ≡ self.now }
        ensures { TakesBack root.old driver root.new }
    {
        let Driver {
            asker,
            train,
            position: _position,
            entries: _entries,
        } = driver;
        take_back(self, root, asker.seat, train, asker.receipts);
    }

    /// The pass that tries tables, which boards once in a yard's life.
    ///
    /// # Errors
    ///
    /// As of `board`.
    pub fn board_control(&self, alloc: Global, root: &mut Root) -> Result<Control, Board>
        requires { root.old.yard ≡ self.now }
        ensures { Boards root.old control_number result root.new }
    {
        if root.boarded[CONTROL as usize] {
            return Err(Board::Taken);
        }
        let Ok(receipts) = Receipts::with_room(alloc, MOST_TURNS) else {
            return Err(Board::Memory);
        };
        let Ok(room) = TurnRoom::new(alloc, self.opening().positions()) else {
            return Err(Board::Memory);
        };
        let seat = seat_of(self, root, CONTROL);
        Ok(Control {
            seat,
            tried: self.opening().tried(),
            entries: 0,
            receipts,
            room,
        })
    }

    /// The control gives its pass back.
    pub fn leave_control(&self, control: Control, root: &mut Root)
        requires root { root.old.yard ≡ self.now }
        requires control { control.yard ≡ self.now }
        ensures { TakesBack root.old control root.new }
    {
        let Control {
            seat,
            tried: _tried,
            entries: _entries,
            receipts,
            room: _room,
        } = control;
        take_back(self, root, seat, CONTROL, receipts);
    }
}
