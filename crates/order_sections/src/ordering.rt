// Tables with sections for the orders that the tracks force.
ghost use Rattle.std.specs.Prelude.{◌≡◌, ◌<◌, ◌++◌, ℕ, List, IfOk, length};
ghost use Rattle.rail_model.specs.Table.{IsTable, Section};
ghost use Rattle.order_sections.specs.Found.{AllKeep, HaveSameTrains};
ghost use Rattle.order_sections.specs.Grids.{table_at};
ghost use Rattle.order_sections.specs.Orders.{AddsOrders, with_more};
ghost use Rattle.order_sections.specs.Whole.{AreWhole, has_order, without_order};

use crate::OrderRefused;
use crate::making::all_extended;
use crate::orders::{all_keep, are_orders};
use crate::whole::all_are_whole;
use order_search::{Chain, Chosen, Order, Two, choose_orders};
use rail_model::{Line, State, Table};
use std::alloc::{AllocError, Global};

/// Tables with their orders. For each table and each section that was added to it, in their order, `chains` has the trains that it keeps one
/// behind the other, and says why. `needed` has the trains of the orders that were found and don't follow from two others, the strongest
/// first, and `left_out` those of them for which there was no room, each two as the one that leads and the one that follows.
#[derive(Drop)]
pub struct Ordered {
    pub tables: Vec<Table>,
    pub orders: Vec<Order>,
    pub chains: Vec<Vec<Chain>>,
    pub needed: Vec<Two>,
    pub left_out: Vec<Two>,
}

// The tables with the sections of chains, if the sections pass their test: each is of one chain, and the orders are whole.
fn made_of(
    alloc: Global,
    tables: &[Table],
    orders: &[Order],
    beside: &[Order],
    chains: &[Vec<Chain>],
) -> Result<Vec<Table>, OrderRefused>
    ensures count { IfOk result (λ made. length made.items ≡ length tables.now) }
    ensures formed { IfOk result (λ made. (t : ℕ) → t < length tables.now → IsTable (table_at made.items t)) }
    ensures adds { IfOk result (λ made. (t : ℕ) → t < length tables.now
        → (more : List Section) × (table_at made.items t ≡ with_more (table_at tables.now t) more)) }
    ensures keep { IfOk result (λ made. AllKeep tables.now made.items (orders.now ++ beside.now)) }
    ensures whole { IfOk result (λ made. AreWhole (length tables.now) made.items orders.now) }
{
    let made = all_extended(alloc, tables, chains)?;
    if !all_keep(tables, &made, orders, beside, chains)
        || !all_are_whole(tables, &made, orders, chains)
    {
        return Err(OrderRefused::Untrue);
    }
    Ok(made)
}

// The same if the orders pass their test, too: their sets are closed.
fn tested(
    alloc: Global,
    tables: &[Table],
    start: &State,
    orders: &[Order],
    beside: &[Order],
    chains: &[Vec<Chain>],
) -> Result<Vec<Table>, OrderRefused>
    requires { HaveSameTrains tables.now start.now }
    ensures count { IfOk result (λ made. length made.items ≡ length tables.now) }
    ensures formed { IfOk result (λ made. (t : ℕ) → t < length tables.now → IsTable (table_at made.items t)) }
    ensures orders { IfOk result (λ made. AddsOrders (length tables.now) (table_at tables.now) (table_at made.items) start.now) }
    ensures whole { IfOk result (λ made. AreWhole (length tables.now) made.items orders.now) }
{
    if !are_orders(tables, start, orders) || !are_orders(tables, start, beside) {
        return Err(OrderRefused::Untrue);
    }
    let made = made_of(alloc, tables, orders, beside, chains)?;
    Ok(made)
}

// Whether two trains are those of an order.
fn has_order(orders: &[Order], trains: Two) -> bool
    ensures { result ≡ has_order orders.now trains }
{
    orders.iter().any(|order| order.first() == trains.first && order.second() == trains.second)
}

// The trains of the orders that are needed and weren't made.
fn left_of(alloc: Global, needed: &[Two], orders: &[Order]) -> Result<Vec<Two>, AllocError>
    ensures { IfOk result (λ left. left.items ≡ without_order orders.now needed.now) }
{
    needed
        .iter()
        .copied()
        .filter(|trains| !has_order(orders, *trains))
        .collect(alloc)
}

/// The tables with sections behind their own that forbid only what no run from the start reaches: for each two trains the order in which
/// the tracks keep them, unless it follows from two others. The sections of two trains are added all or not at all, and up to 64 sections
/// a table. So wherever the train that follows is too far for the one that leads, the tables keep it from there; and `left_out` names
/// exactly the needed orders of which no section was added.
///
/// # Errors
///
/// Memory ran out, or what was found didn't pass its tests.
pub fn order(alloc: Global, tables: &[Table], start: &State) -> Result<Ordered, OrderRefused>
    requires { HaveSameTrains tables.now start.now }
    ensures count { IfOk result (λ made. length made.tables.items ≡ length tables.now) }
    ensures formed { IfOk result (λ made. (t : ℕ) → t < length tables.now → IsTable (table_at made.tables.items t)) }
    ensures orders { IfOk result (λ made. AddsOrders (length tables.now) (table_at tables.now) (table_at made.tables.items) start.now) }
    ensures whole { IfOk result (λ made. AreWhole (length tables.now) made.tables.items made.orders.items) }
    ensures left_out { IfOk result (λ made. made.left_out.items ≡ without_order made.orders.items made.needed.items) }
{
    let Chosen {
        needed,
        orders,
        beside,
        chains,
    } = choose_orders(alloc, tables, start, None)?;
    let left_out = left_of(alloc, &needed, &orders)?;
    let tables = tested(alloc, tables, start, &orders, &beside, &chains)?;
    Ok(Ordered {
        tables,
        orders,
        chains,
        needed,
        left_out,
    })
}

/// The tables with sections behind their own for the order that one run has: for each two trains the order that the tracks force, or where
/// they force none, the order in which the two come to the points that they share in the run. The sections of two trains are added all or
/// not at all, and up to 64 sections a table. They may forbid what other runs reach. That this run stays right under the new tables isn't
/// promised here: a replay of its lines says so.
///
/// # Errors
///
/// Memory ran out, or what was found didn't pass its test.
pub fn order_by_run(
    alloc: Global,
    tables: &[Table],
    start: &State,
    run: &[Line],
) -> Result<Ordered, OrderRefused>
    ensures count { IfOk result (λ made. length made.tables.items ≡ length tables.now) }
    ensures formed { IfOk result (λ made. (t : ℕ) → t < length tables.now → IsTable (table_at made.tables.items t)) }
    ensures adds { IfOk result (λ made. (t : ℕ) → t < length tables.now
        → (more : List Section) × (table_at made.tables.items t ≡ with_more (table_at tables.now t) more)) }
    ensures whole { IfOk result (λ made. AreWhole (length tables.now) made.tables.items made.orders.items) }
    ensures left_out { IfOk result (λ made. made.left_out.items ≡ without_order made.orders.items made.needed.items) }
{
    let Chosen {
        needed,
        orders,
        beside,
        chains,
    } = choose_orders(alloc, tables, start, Some(run))?;
    let left_out = left_of(alloc, &needed, &orders)?;
    let tables = made_of(alloc, tables, &orders, &beside, &chains)?;
    Ok(Ordered {
        tables,
        orders,
        chains,
        needed,
        left_out,
    })
}
