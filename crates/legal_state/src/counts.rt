// What a section counts in a state, and how many moves are left.
ghost use Rattle.std.specs.Prelude.{◌≡◌, ℕ, ◌<◌, ◌≤◌, ◌*◌, pos, length};
ghost use Rattle.rail_model.specs.Table.{IsTable, trains, last, place, count};
ghost use Rattle.rail_model.specs.State.{remaining as remaining_of};
ghost use Rattle.legal_state.specs.Causes.{IsInRange};

use rail_model::{State, Table, last_of, share_at, trains_of};

/// What a section counts: the sum of all trains' shares of it, 0 to 128.
pub fn count_of(table: &Table, state: &State, section: u32) -> u32
    requires size { length state.now ≡ trains table.now }
    requires in_range { IsInRange table.now state.now }
    requires section { section < length table.now.sections }
    ensures count { count table.now section state.now ≡ pos result }
    ensures small { result ≤ 4 * trains table.now }
    ensures formed { IsTable table.now }
{
    let mut sum: i32 = 0;
    for train in 0..trains_of(table) {
        sum += share_at(table, train, section, state.place(train));
    }
    sum as u32
}

/// How many moves are left until all trains have arrived.
pub fn remaining(table: &Table, state: &State) -> u64
    requires size { length state.now ≡ trains table.now }
    ensures { result ≡ remaining_of table.now state.now }
{
    let mut sum: u64 = 0;
    for train in 0..trains_of(table) {
        sum += u64::from(last_of(table, train).saturating_sub(state.place(train)));
    }
    sum
}
