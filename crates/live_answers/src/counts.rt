// What a yard counts.
ghost use Rattle.std.specs.Prelude.{◌≡◌, ◌≤◌, map};
ghost use Rattle.rail_model.specs.Table.{trains};
ghost use Rattle.live_answers.specs.Yards.{counts_of as counts_of_yard, is_last, number_of};
ghost use Rattle.table_exchange.specs.Tables.{AreTables};

use crate::Scene;
use live_lines::Counts;
use rail_model::{HasTable, Standing};

// How many trains are at their last places.
fn arrived_of(scene: &Scene<'_>) -> u32
    ensures count { result ≡ number_of (is_last scene.now) (trains scene.now.table) }
    ensures few { result ≤ trains scene.now.table }
{
    let mut arrived = 0;
    for train in 0..scene.trains() {
        arrived += u32::from(scene.is_last(train));
    }
    arrived
}

/// The counts of a yard with so many lines.
pub fn counts_of<A: HasTable>(scene: &Scene<'_>, tables: &[A], yard: &Standing, line: u32) -> Counts
    requires { AreTables (map A.offer tables.now) }
    ensures { result ≡ counts_of_yard scene.now (map A.offer tables.now) yard.now line }
{
    Counts {
        line,
        moves: yard.moves(),
        table: yard.table(),
        tried: yard.tried(),
        of: tables.len() as u32,
        arrived: arrived_of(scene),
        trains: scene.trains(),
    }
}
