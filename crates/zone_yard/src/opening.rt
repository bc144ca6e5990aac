// A yard is made.
ghost use Rattle.std.specs.Prelude.{◌≡◌, ℕ, ◌<◌, [], length, slice_index_or, IfOk};
ghost use Rattle.ticket_lines.specs.Merging.{Row};
ghost use Rattle.zone_yard.specs.Setup.{most_passes};
ghost use Rattle.zone_yard.specs.Spread.{spread};
ghost use Rattle.zone_machine.specs.Weave.{first_words as first_words_of};
ghost use Rattle.table_exchange.specs.Tables.{Stands};

use crate::views::{Key, Place};
use crate::yard::{Root, Yard};
use atomic_table::Table;
use cert_checker::Accepted;
use plain_yard::begin;
use rail_model::{Layout, PlainState, Standing, State, zones_of};
use std::alloc::{AllocError, Global};
use ticket_lines::TicketLine;
use zone_machine::{first_words, look_at_all};

// How many passes there can be.
const PASSES: usize = 33;

// A row for each pass that there can be, without lines.
fn empty_rows(alloc: Global) -> Result<Vec<Vec<TicketLine>>, AllocError>
    ensures wide { IfOk result (λ rows. length rows.items ≡ most_passes) }
    ensures empty { IfOk result (λ rows. (p : ℕ) (d : Row) → p < most_passes → (slice_index_or rows.items p d).items ≡ []) }
{
    let mut rows = Vec::new(alloc);
    for _pass in 0..PASSES {
        rows.push(Vec::new(alloc))?;
    }
    Ok(rows)
}

// These words of a core, as they lie in the shared table.
fn spread_out(alloc: Global, words: &[u64]) -> Result<Vec<u64>, AllocError>
    ensures { IfOk result (λ v. v.items ≡ spread words.now) }
{
    let mut all = Vec::new(alloc);
    for &word in words {
        all.extend_from_slice(&[word, 0, 0, 0, 0, 0, 0, 0])?;
    }
    Ok(all)
}

// The words of a yard's core that opens with this state, as they lie in the shared table.
fn table_words(
    alloc: Global,
    layout: &Layout,
    tables: &[Accepted],
    opening: &Standing,
) -> Result<Vec<u64>, AllocError>
    requires { Stands tables.now opening.now }
    ensures { IfOk result (λ words. (most : ℕ) → words.items ≡ spread (first_words_of (record { layout = layout.now; tables = tables.now; opening = opening.now; most = most }))) }
{
    let words = first_words(alloc, layout, tables, opening)?;
    let all = spread_out(alloc, &words)?;
    Ok(all)
}

impl<'a> Yard<'a> {
    ghost use Rattle.std.specs.Prelude.{◌≡◌, ℕ, ◌<◌, ◌≤◌, [], length, IfOk, IfErr};
    ghost use Rattle.rail_model.specs.State.{Legal};
    ghost use Rattle.rail_model.specs.Ways.{IsOn};
    ghost use Rattle.rail_model.specs.Yard.{offer, opening};
    ghost use Rattle.table_exchange.specs.Tables.{AreTables};
    ghost use Rattle.plain_yard.specs.Keeps.{Keeps};
    ghost use Rattle.zone_yard.specs.Boarding.{fresh_root};

    /// A yard that opens with the start under the first table, and the root from which its passes board. Each pass may make as many
    /// entries as `calls` says.
    ///
    /// # Errors
    ///
    /// Out of memory alone.
    pub fn new(
        alloc: Global,
        layout: &'a Layout,
        tables: &'a [Accepted],
        start: &State,
        calls: u32,
    ) -> Result<(Yard<'a>, Root), AllocError>
        requires tables { AreTables tables.now }
        requires points { (t : ℕ) → t < length tables.now → IsOn layout.now (offer tables.now t).table }
        requires legal { Legal (offer tables.now 0).table start.now }
        requires calls { 1 ≤ calls }
        ensures root { IfOk result (λ made. made.1 ≡ fresh_root made.0) }
        ensures setup { IfOk result (λ made. made.0.setup ≡ record { layout = layout.now; tables = tables.now; opening = record { yard = opening start.now; lines = [] }; calls = calls }) }
    {
        let state = begin(alloc, start)?;
        match Yard::resume(alloc, layout, tables, state, calls) {
            Ok(made) => Ok(made),
            Err(_state) => Err(AllocError),
        }
    }

    /// A yard that goes on from a state to which a legal run of the tables led, and the root from which its passes board. Each pass may
    /// make as many entries as `calls` says.
    ///
    /// # Errors
    ///
    /// Out of memory alone; the state comes back as it was.
    pub fn resume(
        alloc: Global,
        layout: &'a Layout,
        tables: &'a [Accepted],
        state: PlainState,
        calls: u32,
    ) -> Result<(Yard<'a>, Root), PlainState>
        requires keeps { Keeps tables.now state.yard state.lines }
        requires points { (t : ℕ) → t < length tables.now → IsOn layout.now (offer tables.now t).table }
        requires calls { 1 ≤ calls }
        ensures root { IfOk result (λ made. made.1 ≡ fresh_root made.0) }
        ensures setup { IfOk result (λ made. made.0.setup ≡ record { layout = layout.now; tables = tables.now; opening = state; calls = calls }) }
        ensures back { IfErr result (λ back. back ≡ state) }
    {
        look_at_all(tables);
        // The layout is well formed, which is what the call says.
        let _zones = zones_of(layout);
        let Ok(words) = table_words(alloc, layout, tables, state.yard()) else {
            return Err(state);
        };
        let Ok(lines) = empty_rows(alloc) else {
            return Err(state);
        };
        let key = Key {
            layout,
            tables,
            opening: state,
            calls,
        };
        match Table::of_words(alloc, &words, &key) {
            Ok((table, seat)) => Ok((
                Yard { table, key },
                Root {
                    seat: Place { seat },
                    boarded: [false; 33],
                    out: 0,
                    lines,
                },
            )),
            Err(_) => Err(key.opening),
        }
    }
}
