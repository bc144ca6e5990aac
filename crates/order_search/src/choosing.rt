// Which orders get sections: those that don't follow from two others, as long as there is room.
use crate::Order;
use crate::chains::Chain;
use crate::order::add_order;
use crate::packing::chains_of;
use crate::search::{Sought, Two};
use crate::visits::Visits;
use rail_model::{Line, State, Table, sections_of, trains_of};
use std::alloc::{AllocError, Global};

// The most sections of a table.
const MOST_SECTIONS: usize = 64;

// How many numbers of orders are tried, half way between one that has room and one that hasn't.
const MOST_TRIALS: u32 = 5;

/// What is chosen: the trains of the orders that don't follow from two others, the strongest first, each two as the one that leads and the
/// one that follows; the orders of them that get sections; the chains of their trains table by table; and the orders of those two trains of
/// a chain that aren't neighbours.
#[derive(Drop)]
pub struct Chosen {
    pub needed: Vec<Two>,
    pub orders: Vec<Order>,
    pub beside: Vec<Order>,
    pub chains: Vec<Vec<Chain>>,
}

// Adds the orders that two trains have by the tracks, or by the run that is given.
fn add_both(
    alloc: Global,
    sought: Sought<'_>,
    trains: Two,
    orders: &mut Vec<Order>,
) -> Result<(), AllocError> {
    add_order(alloc, sought, trains, orders)?;
    let turned = Two {
        first: trains.second,
        second: trains.first,
    };
    add_order(alloc, sought, turned, orders)
}

// Adds the orders that the tracks force on two trains, or where they force none, those of the run, if orders of one are sought.
fn add_orders(
    alloc: Global,
    sought: Sought<'_>,
    trains: Two,
    orders: &mut Vec<Order>,
) -> Result<(), AllocError> {
    let before = orders.len();
    let forced = Sought {
        run: None,
        ..sought
    };
    add_both(alloc, forced, trains, orders)?;
    if orders.len() == before && sought.run.is_some() {
        add_both(alloc, sought, trains, orders)?;
    }
    Ok(())
}

// The same for a train and each train before it.
fn add_orders_of(
    alloc: Global,
    sought: Sought<'_>,
    second: u32,
    orders: &mut Vec<Order>,
) -> Result<(), AllocError> {
    for first in 0..second {
        add_orders(alloc, sought, Two { first, second }, orders)?;
    }
    Ok(())
}

// Whether an order follows from one with the same leader and some other.
fn follows_from(order: &Order, leading: &Order, orders: &[Order]) -> bool {
    for number in 0..orders.len() {
        let following = &orders[number];
        if following.first() == leading.second()
            && following.second() == order.second()
            && order.follows(leading, following)
        {
            return true;
        }
    }
    false
}

// Whether an order doesn't follow from two others.
fn is_needed(orders: &[Order], order: &Order) -> bool {
    for number in 0..orders.len() {
        let leading = &orders[number];
        if leading.first() == order.first()
            && leading.second() != order.second()
            && follows_from(order, leading, orders)
        {
            return false;
        }
    }
    true
}

// Marks an order or not.
fn mark(orders: &mut [Order], number: usize, is_marked: bool) {
    if let Some(order) = orders.get_mut(number) {
        order.is_marked = is_marked;
    }
}

// Marks the orders that don't follow from two others.
fn mark_needed(orders: &mut [Order]) {
    for number in 0..orders.len() {
        if let Some(order) = orders.get(number) {
            let is_marked = is_needed(orders, order);
            mark(orders, number, is_marked);
        }
    }
}

// All orders, the strongest first, of which those are marked that don't follow from two others.
fn all_orders(alloc: Global, sought: Sought<'_>) -> Result<Vec<Order>, AllocError> {
    let mut orders = Vec::new(alloc);
    let trains = match sought.tables.first() {
        Some(table) => trains_of(table),
        None => 0,
    };
    for second in 0..trains {
        add_orders_of(alloc, sought, second, &mut orders)?;
    }
    mark_needed(&mut orders);
    Ok(orders)
}

fn is_marked(orders: &[Order], number: usize) -> bool {
    match orders.get(number) {
        Some(order) => order.is_marked,
        None => false,
    }
}

// The orders of a list that aren't marked, which it loses.
fn taken_out(alloc: Global, orders: &mut Vec<Order>) -> Result<Vec<Order>, AllocError> {
    let mut taken = Vec::new(alloc);
    let mut number: usize = 0;
    for _ in 0..orders.len() {
        if is_marked(orders, number) {
            number = number.saturating_add(1);
        } else if number < orders.len() {
            taken.push(orders.remove(number))?;
        }
    }
    Ok(taken)
}

// The trains of orders.
fn trains_of_all(alloc: Global, orders: &[Order]) -> Result<Vec<Two>, AllocError> {
    let mut trains = Vec::new(alloc);
    for number in 0..orders.len() {
        let order = &orders[number];
        let (first, second) = (order.first(), order.second());
        trains.push(Two { first, second })?;
    }
    Ok(trains)
}

// How many sections the first orders of a list that are marked have in a table, if each section keeps two trains.
fn sections_in(orders: &[Order], before: usize, table: &Table, table_number: usize) -> usize {
    let mut sections: usize = 0;
    for number in 0..orders.len() {
        let order = &orders[number];
        if number < before && order.is_marked {
            sections = sections.saturating_add(order.count(table, table_number));
        }
    }
    sections
}

// Whether each table has room for an order beside those before it that are marked.
fn has_room(tables: &[Table], orders: &[Order], number: usize, order: &Order) -> bool {
    for k in 0..tables.len() {
        let more = order.count(&tables[k], k);
        let sections = (sections_of(&tables[k]) as usize)
            .saturating_add(sections_in(orders, number, &tables[k], k))
            .saturating_add(more);
        if sections > MOST_SECTIONS && more > 0 {
            return false;
        }
    }
    true
}

// Marks the strongest orders for which there is room if each section keeps two trains, and counts them.
fn mark_kept(tables: &[Table], orders: &mut [Order]) -> usize {
    let mut kept: usize = 0;
    for number in 0..orders.len() {
        if let Some(order) = orders.get(number) {
            let is_kept = has_room(tables, orders, number, order);
            mark(orders, number, is_kept);
            kept = kept.saturating_add(is_kept as usize);
        }
    }
    kept
}

// Adds the chains that keep orders, table by table, as long as there is room for their sections, and says whether there is in all.
fn add_chains(
    alloc: Global,
    tables: &[Table],
    orders: &[Order],
    others: &[Order],
    are_joined: bool,
    chains: &mut Vec<Vec<Chain>>,
) -> Result<bool, AllocError> {
    for number in 0..tables.len() {
        let table = &tables[number];
        let found = chains_of(alloc, table, number, orders, others, are_joined)?;
        let more = found.len();
        chains.push(found)?;
        if more > 0 && (sections_of(table) as usize).saturating_add(more) > MOST_SECTIONS {
            return Ok(false);
        }
    }
    Ok(true)
}

// Puts the chains that keep orders in the place of others, if there is room for their sections.
fn put_chains(
    alloc: Global,
    tables: &[Table],
    orders: &[Order],
    others: &[Order],
    are_joined: bool,
    chains: &mut Vec<Vec<Chain>>,
) -> Result<bool, AllocError> {
    let mut found = Vec::new(alloc);
    let has_room = add_chains(alloc, tables, orders, others, are_joined, &mut found)?;
    if has_room {
        *chains = found;
    }
    Ok(has_room)
}

// The first orders of a list.
fn front(orders: &[Order], count: usize) -> &[Order] {
    match orders.get(..count) {
        Some(front) => front,
        None => orders,
    }
}

// How many of the strongest orders have room if sections are packed, if they are more than so many, with their chains.
fn most_packed(
    alloc: Global,
    tables: &[Table],
    orders: &[Order],
    others: &[Order],
    more_than: usize,
    chains: &mut Vec<Vec<Chain>>,
) -> Result<usize, AllocError> {
    let mut most = more_than;
    let mut tried = orders.len();
    let mut limit = tried.saturating_add(1);
    for _ in 0..MOST_TRIALS {
        if tried > most {
            if put_chains(alloc, tables, front(orders, tried), others, true, chains)? {
                most = tried;
            } else {
                limit = tried;
            }
            tried = most.saturating_add(limit.saturating_sub(most) / 2);
        }
    }
    Ok(most)
}

// Whether one of some chains has the trains of an order.
fn one_has_both(chains: &[Chain], order: &Order) -> bool {
    for number in 0..chains.len() {
        if chains[number].has_both(order) {
            return true;
        }
    }
    false
}

// Whether a chain of a table has the trains of an order.
fn has_both(chains: &[Vec<Chain>], order: &Order) -> bool {
    for number in 0..chains.len() {
        if one_has_both(&chains[number], order) {
            return true;
        }
    }
    false
}

// Marks the orders whose trains a chain has.
fn mark_beside(chains: &[Vec<Chain>], orders: &mut [Order]) {
    for number in 0..orders.len() {
        if let Some(order) = orders.get(number) {
            let is_marked = has_both(chains, order);
            mark(orders, number, is_marked);
        }
    }
}

// Puts the chains of the strongest orders for which there is room into a list. The other orders are taken out, and of those that follow from
// two others all whose trains no chain has. Sections are packed only if there is no room for all orders as they are.
fn choose(
    alloc: Global,
    tables: &[Table],
    orders: &mut Vec<Order>,
    beside: &mut Vec<Order>,
    chains: &mut Vec<Vec<Chain>>,
) -> Result<(), AllocError> {
    let kept = mark_kept(tables, orders);
    let mut count = kept;
    if kept < orders.len() {
        count = most_packed(alloc, tables, orders, beside, kept, chains)?;
    }
    if count > kept {
        orders.truncate(count);
    } else {
        taken_out(alloc, orders)?;
        put_chains(alloc, tables, orders, &[], false, chains)?;
        beside.truncate(0);
    }
    mark_beside(chains, beside);
    taken_out(alloc, beside)?;
    Ok(())
}

// What is chosen of the orders that are sought.
fn choice_of<'a>(
    alloc: Global,
    tables: &'a [Table],
    start: &'a State,
    run: Option<&'a Visits>,
) -> Result<Chosen, AllocError> {
    let mut orders = all_orders(alloc, Sought { tables, start, run })?;
    let mut beside = taken_out(alloc, &mut orders)?;
    let needed = trains_of_all(alloc, &orders)?;
    let mut chains = Vec::new(alloc);
    choose(alloc, tables, &mut orders, &mut beside, &mut chains)?;
    Ok(Chosen {
        needed,
        orders,
        beside,
        chains,
    })
}

/// The orders that the tracks force, but for those that follow from two others, as long as there is room; with a run also its orders where
/// the tracks force none.
pub fn choose_orders(
    alloc: Global,
    tables: &[Table],
    start: &State,
    run: Option<&[Line]>,
) -> Result<Chosen, AllocError> {
    match run {
        Some(lines) => {
            let visits = Visits::new(alloc, start, lines)?;
            choice_of(alloc, tables, start, Some(&visits))
        }
        None => choice_of(alloc, tables, start, None),
    }
}
