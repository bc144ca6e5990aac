// Tables that are offered and known to be live.
ghost use Rattle.std.specs.Prelude.{◌≡◌};
ghost use Rattle.rail_model.specs.Move.{Live};
ghost use Rattle.rail_model.specs.Table.{IsTable};

use cert_checker::Accepted;
use rail_model::{HasTable, Table};

/// What holds a table of which no state is stuck.
pub trait CheckedTable: HasTable {
    /// The table.
    fn checked(&self) -> &Table
        ensures given { result.now ≡ (Self.offer self.now).table }
        ensures formed { IsTable result.now }
        ensures live { Live result.now };
}

impl CheckedTable for Accepted {
    fn checked(&self) -> &Table {
        self.table()
    }
}
