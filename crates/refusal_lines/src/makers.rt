// The words on a table whose sections or certificate can't be made.
ghost use Rattle.std.specs.Prelude.{◌≡◌, ◌++◌, OnOk, string_bytes};
ghost use Rattle.refusal_lines.specs.Makers.{places_words, many_words, spent_words, stuck_words, rounds_words, connected_words};

use crate::fields::tell;
use rail_model::State;
use std::alloc::AllocError;

/// Adds how many sections a table would have.
pub fn write_many(out: &mut String, table: u32, count: u32) -> Result<(), AllocError>
    ensures { OnOk result (string_bytes out.new ≡ string_bytes out.old ++ many_words table count) }
{
    tell!(out; "121 Many table=" table, " count=" count)
}

/// Adds how many nodes a table's certificate was allowed.
pub fn write_spent(out: &mut String, table: u32, nodes: u32) -> Result<(), AllocError>
    ensures { OnOk result (string_bytes out.new ≡ string_bytes out.old ++ spent_words table nodes) }
{
    tell!(out; "205 Spent table=" table, " nodes=" nodes)
}

/// Adds where a table is stuck.
pub fn write_stuck(out: &mut String, table: u32, at: &State) -> Result<(), AllocError>
    ensures { OnOk result (string_bytes out.new ≡ string_bytes out.old ++ stuck_words table at.now) }
{
    write!(out, "206 Stuck table={table} at=")?;
    write_places(out, at)
}

/// Adds where a table is still stuck after the last round.
pub fn write_rounds(out: &mut String, table: u32, rounds: u32, at: &State) -> Result<(), AllocError>
    ensures { OnOk result (string_bytes out.new ≡ string_bytes out.old ++ rounds_words table rounds at.now) }
{
    write!(out, "209 Rounds table={table} rounds={rounds} at=")?;
    write_places(out, at)
}

/// Adds that a table has a connection.
pub fn write_connected(out: &mut String, table: u32) -> Result<(), AllocError>
    ensures { OnOk result (string_bytes out.new ≡ string_bytes out.old ++ connected_words table) }
{
    tell!(out; "210 Connected table=" table)
}

// Adds the positions of the trains, with commas between them.
fn write_places(out: &mut String, at: &State) -> Result<(), AllocError>
    ensures { OnOk result (string_bytes out.new ≡ string_bytes out.old ++ places_words at.now) }
{
    let Some((first, others)) = at.as_slice().split_first() else {
        return Ok(());
    };
    write!(out, "{first}")?;
    for place in others {
        write!(out, ",{place}")?;
    }
    Ok(())
}
