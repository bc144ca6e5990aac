// Which train moves next.
ghost use Rattle.std.specs.Prelude.{◌≡◌, ◌+◌, ◌<◌, ◌↔◌, length, IsTrue};
ghost use Rattle.rail_model.specs.Move.{Move, advance};
ghost use Rattle.rail_model.specs.State.{Legal};
ghost use Rattle.rail_model.specs.Table.{trains};
ghost use Rattle.train_sim.specs.Steps.{MovesFirst};

use legal_state::can_move;
use rail_model::{Ask, State, Table, trains_of};

// Whether a train may move.
fn may_move(table: &Table, state: &State, train: u32) -> bool
    requires legal { Legal table.now state.now }
    requires train { train < trains table.now }
    ensures { IsTrue result ↔ Move table.now state.now train (advance state.now train) }
{
    matches!(can_move(table, state, train), Ask::Yes)
}

// The train that moves next of those up to one train, given the one of those before it.
fn sooner(table: &Table, state: &State, due: &[u32], train: u32, before: Option<u32>) -> Option<u32>
    requires legal { Legal table.now state.now }
    requires one_each { length due.now ≡ trains table.now }
    requires train { train < trains table.now }
    requires before { MovesFirst table.now state.now due.now train before }
    ensures { MovesFirst table.now state.now due.now (train + 1) result }
{
    match before {
        Some(other) if due[other as usize] <= due[train as usize] => Some(other),
        _ if may_move(table, state, train) => Some(train),
        _ => before,
    }
}

/// The train that moves next: of those that may move, the first with the least due tick.
pub(crate) fn first_mover(table: &Table, state: &State, due: &[u32]) -> Option<u32>
    requires legal { Legal table.now state.now }
    requires one_each { length due.now ≡ trains table.now }
    ensures { MovesFirst table.now state.now due.now (trains table.now) result }
{
    let mut first = None;
    for train in 0..trains_of(table) {
        first = sooner(table, state, due, train, first);
    }
    first
}
