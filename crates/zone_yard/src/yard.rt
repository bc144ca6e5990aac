// A shared yard, the root from which passes board, and the passes.
use crate::receipts::Receipts;
use crate::views::{Key, Law, Place, View};
use atomic_table::Table;
use cert_checker::Accepted;
use move_claim::{Known, Owed};
use rail_model::{Standing, State};
use std::alloc::{AllocError, Global};
use std::marker::Model;
use ticket_lines::TicketLine;

/// Trains and the control work at it at once, each by a pass of its own. All answers are in one legal history, and what a pass is
/// answered is the one-thread yard's answer at its ticket. It borrows the layout and the tables.
#[derive(Drop)]
pub struct Yard<'a> {
    pub(crate) table: Table<(), View, Key<'a>, Law, Global>,
    pub(crate) key: Key<'a>,
}

impl<'a> Model for Yard<'a> {
    ghost use Rattle.zone_yard.specs.Setup.{SharedYard};
    ghost use Rattle.zone_yard.specs.Aboard.{IsYard};

    ghost Value = { SharedYard };

    ghost view = { λ y. record { id = y.table.shared.table_id; setup = y.key } };

    ghost invariant = { λ y. IsYard y.table.shared.key y.table.shared.table_id y.key };
}

impl<'a> Yard<'a> {
    ghost use Rattle.std.specs.Prelude.{◌≡◌, ◌<◌, ◌^◌};
    ghost use Rattle.zone_machine.specs.Sound.{IsSetup};
    ghost use Rattle.zone_yard.specs.Setup.{core};

    // The tables that are offered.
    pub(crate) fn tables(&self) -> &[Accepted]
        ensures given { result.now ≡ self.now.setup.tables }
        ensures formed { IsSetup (core self.now.setup) }
    {
        self.key.tables
    }

    // The state in which the yard opens.
    pub(crate) fn opening(&self) -> &Standing
        ensures given { result.now ≡ self.now.setup.opening.yard }
        ensures formed { IsSetup (core self.now.setup) }
    {
        self.key.opening.yard()
    }

    // How many entries a pass may make.
    pub(crate) fn calls(&self) -> u32
        ensures calls { result ≡ self.now.setup.calls }
        ensures few { self.now.setup.calls < 2 ^ 32 }
    {
        self.key.calls
    }
}

/// Passes board from the root and leave to it. It keeps the lines of those that left, by number.
#[derive(Drop)]
pub struct Root {
    pub(crate) seat: Place,
    pub(crate) boarded: [bool; 33],
    pub(crate) out: u32,
    pub(crate) lines: Vec<Vec<TicketLine>>,
}

impl Model for Root {
    ghost use Rattle.zone_yard.specs.Passes.{Root as RootValue};
    ghost use Rattle.zone_yard.specs.Aboard.{IsRoot};
    ghost use Rattle.zone_yard.specs.Lines.{AreLeft};
    ghost use Rattle.zone_yard.specs.Views.{root_of};

    ghost Value = { RootValue };

    ghost view = { λ r. root_of r.seat.table_id r.seat.me.view };

    ghost invariant = { λ r. IsRoot r.boarded r.out r.seat.id r.seat.me.view × AreLeft r.seat.me.view r.lines.items };
}

/// Who asks for steps: its seat, the lines that it keeps, and room for all numbers that a request reads and writes.
#[derive(Drop)]
pub(crate) struct Asker {
    pub(crate) seat: Place,
    pub(crate) receipts: Receipts,
    pub(crate) known: Known,
    pub(crate) owed: Owed,
}

/// The pass of a train.
#[derive(Drop)]
pub struct Driver {
    pub(crate) asker: Asker,
    pub(crate) train: u32,
    pub(crate) position: u32,
    pub(crate) entries: u32,
}

impl Model for Driver {
    ghost use Rattle.zone_yard.specs.Passes.{Pass};
    ghost use Rattle.zone_yard.specs.Aboard.{IsDriver};
    ghost use Rattle.zone_yard.specs.Lines.{AreLines};
    ghost use Rattle.zone_yard.specs.Views.{pass_of};

    ghost Value = { Pass };

    ghost view = { λ d. pass_of d.asker.seat.table_id d.asker.seat.me.view };

    ghost invariant = { λ d. IsDriver d.train d.position d.entries d.asker.seat.me × AreLines d.asker.seat.me.view d.asker.receipts };
}

/// Room for what a try of the control reads and writes.
#[derive(Drop)]
pub(crate) struct TurnRoom {
    pub(crate) known: Known,
    pub(crate) positions: State,
    pub(crate) owed: Owed,
}

impl TurnRoom {
    ghost use Rattle.std.specs.Prelude.{◌≡◌, length, IfOk};

    // Room for as many trains as have positions.
    pub(crate) fn new(alloc: Global, positions: &State) -> Result<Self, AllocError>
        ensures { IfOk result (λ room. length room.positions ≡ length positions.now) }
    {
        Ok(TurnRoom {
            known: Known::new(alloc)?,
            positions: positions.copy(alloc)?,
            owed: Owed::new(alloc)?,
        })
    }
}

/// The pass that tries tables.
#[derive(Drop)]
pub struct Control {
    pub(crate) seat: Place,
    pub(crate) tried: u32,
    pub(crate) entries: u32,
    pub(crate) receipts: Receipts,
    pub(crate) room: TurnRoom,
}

impl Model for Control {
    ghost use Rattle.zone_yard.specs.Passes.{Pass};
    ghost use Rattle.zone_yard.specs.Aboard.{IsControl};
    ghost use Rattle.zone_yard.specs.Lines.{AreLines};
    ghost use Rattle.zone_yard.specs.Views.{pass_of};

    ghost Value = { Pass };

    ghost view = { λ c. pass_of c.seat.table_id c.seat.me.view };

    ghost invariant = { λ c. IsControl c.tried c.entries c.room.positions c.seat.me × AreLines c.seat.me.view c.receipts };
}

impl Root {
    ghost use Rattle.std.specs.Prelude.{◌≡◌};

    /// How many passes boarded and haven't left.
    pub fn out(&self) -> u32
        ensures { result ≡ self.now.out }
    {
        self.out
    }
}

impl Driver {
    ghost use Rattle.std.specs.Prelude.{◌≡◌};

    /// The driver's place in its train's mission.
    pub fn position(&self) -> u32
        ensures { result ≡ self.now.position }
    {
        self.position
    }

    /// The driver's train.
    pub fn train(&self) -> u32
        ensures { result ≡ self.now.number }
    {
        self.train
    }
}
