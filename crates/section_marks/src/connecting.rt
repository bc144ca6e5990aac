// The maker of connections.
ghost use Rattle.std.specs.Prelude.{◌≡◌, ◌<◌, ◌≤◌, Ok, Err, MatchResult, length};
ghost use Rattle.std.specs.Result.{result_err};
ghost use Rattle.section_marks.specs.Connecting.{too_many, bad_trains, bad_places, each_refusal, connections_refusal, connected};
ghost use Rattle.rail_model.specs.Table.{trains};

use crate::MarkRefused;
use rail_model::{Connection, Table, last_of, trains_of};

// The most connections of a table.
const MOST_CONNECTIONS: usize = 32;

/// The table with these connections in place of its own. It takes no memory.
///
/// # Errors
///
/// The first thing wrong with the connections, beside the table as it was.
pub fn connections(table: Table, list: Vec<Connection>) -> Result<Table, (Table, MarkRefused)>
    ensures { MatchResult result (λ made. connected table list.items ≡ Ok made) (λ e. (e.0 ≡ table) × (connected table list.items ≡ Err e.1)) }
{
    match check_connections(&table, &list) {
        Ok(()) => Ok(table.with_connections(list)),
        Err(refused) => Err((table, refused)),
    }
}

fn check_connections(table: &Table, list: &[Connection]) -> Result<(), MarkRefused>
    ensures { result_err result ≡ connections_refusal table.now list.now }
{
    check_count(list.len())?;
    check_each(table, list)
}

fn check_count(count: usize) -> Result<(), MarkRefused>
    ensures { result_err result ≡ too_many count }
{
    if count > MOST_CONNECTIONS {
        return Err(MarkRefused::Connections { count });
    }
    Ok(())
}

fn check_each(table: &Table, list: &[Connection]) -> Result<(), MarkRefused>
    requires { length list.now ≤ 32 }
    ensures { result_err result ≡ each_refusal table.now list.now }
{
    for (index, connection) in list.iter().enumerate() {
        check_trains(table, index as u32, *connection)?;
        check_places(table, index as u32, *connection)?;
    }
    Ok(())
}

fn check_trains(table: &Table, index: u32, connection: Connection) -> Result<(), MarkRefused>
    ensures { result_err result ≡ bad_trains table.now index connection }
{
    let trains = trains_of(table);
    let (train, other) = (connection.train(), connection.other());
    if train >= trains || other >= trains || train == other {
        return Err(MarkRefused::ConnectionTrain { connection: index });
    }
    Ok(())
}

fn check_places(table: &Table, index: u32, connection: Connection) -> Result<(), MarkRefused>
    requires train { connection.train < trains table.now }
    requires other { connection.other < trains table.now }
    ensures { result_err result ≡ bad_places table.now index connection }
{
    let last = last_of(table, connection.train());
    let other_last = last_of(table, connection.other());
    if connection.place() >= last || connection.reached() > other_last {
        return Err(MarkRefused::ConnectionPlace { connection: index });
    }
    Ok(())
}
