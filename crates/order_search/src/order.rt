// Orders of two trains.
ghost use Rattle.std.specs.Prelude.{◌≡◌, ◌≤◌, length};

use crate::Grid;
use crate::search::{PLACES, Sought, Two, grids_of, last_in};
use rail_model::Table;
use std::alloc::{AllocError, Global};
use std::marker::Model;

/// How many steps of a staircase one section takes.
pub(crate) const STEPS: usize = 4;

/// The train that follows may only be at its place or beyond when the train that leads has reached its own.
#[derive(Clone, Copy)]
pub struct Step {
    pub leader: u32,
    pub follower: u32,
}

/// Two trains, and for each table a set of pairs of their places. The first leads, and the second follows.
#[derive(Drop)]
pub struct Order {
    first: u32,
    second: u32,
    grids: Vec<Grid>,
    // Table by table, for each place of the train that follows, from the greatest down: the least place of the one that leads at which the
    // first can be there or beyond.
    stairs: Vec<u32>,
    // The sum of these places: the greater, the more the order forbids.
    weight: u32,
    of_run: bool,
    /// Whether it is one of those that are looked for, of a list of orders.
    pub(crate) is_marked: bool,
}

impl Model for Order {
    ghost use Rattle.order_search.specs.Found.{Order as OrderValue};

    ghost Value = { OrderValue };

    ghost view = { λ o. record { first = o.first; second = o.second; grids = o.grids.items } };
}

impl Order {
    /// The train that leads.
    pub fn first(&self) -> u32
        ensures { result ≡ self.now.first }
    {
        self.first
    }

    /// The train that follows.
    pub fn second(&self) -> u32
        ensures { result ≡ self.now.second }
    {
        self.second
    }

    /// The sets of pairs, one for each table.
    pub fn grids(&self) -> &[Grid]
        ensures { result.now ≡ self.now.grids }
    {
        &self.grids
    }

    /// Whether a run has the trains in this order. If not, the tracks force it.
    pub fn is_of_run(&self) -> bool {
        self.of_run
    }

    /// How many sections of two trains keep the order in the table with a number.
    pub(crate) fn count(&self, table: &Table, number: usize) -> usize {
        let mut steps: usize = 0;
        for before in 0..last_in(table, self.second) {
            if self.stair(number, before.saturating_add(1)) > self.stair(number, before) {
                steps = steps.saturating_add(1);
            }
        }
        steps.saturating_add(STEPS - 1) / STEPS
    }

    // How far the train that leads must be for a place of the other.
    fn stair(&self, table: usize, follower: u32) -> u32 {
        let back = (PLACES - 1).saturating_sub(follower) as usize;
        let number = table.saturating_mul(128).saturating_add(back);
        self.stairs.get(number).copied().unwrap_or(PLACES)
    }

    /// Where it must be further than for the place before, up to the last place of the train that follows.
    pub(crate) fn steps(
        &self,
        alloc: Global,
        table: usize,
        last: u32,
    ) -> Result<Vec<Step>, AllocError> {
        let mut steps = Vec::new(alloc);
        for before in 0..last {
            let follower = before.saturating_add(1);
            let leader = self.stair(table, follower);
            if leader > self.stair(table, before) {
                steps.push(Step { leader, follower })?;
            }
        }
        Ok(steps)
    }

    // Whether the order follows in a table from that of the leader and a train between, and that of this train and the follower.
    fn follows_in(&self, leading: &Order, following: &Order, table: usize) -> bool {
        for follower in 0..PLACES {
            let least = self.stair(table, follower);
            let between = following.stair(table, follower);
            let follows = if between < PLACES {
                leading.stair(table, between) >= least
            } else {
                least == PLACES
            };
            if !follows {
                return false;
            }
        }
        true
    }

    /// The same for each table.
    pub(crate) fn follows(&self, leading: &Order, following: &Order) -> bool {
        for table in 0..self.grids.len() {
            if !self.follows_in(leading, following, table) {
                return false;
            }
        }
        true
    }
}

// The least place of the train that leads in a pair with a place of the other.
fn least_leader(grid: &Grid, follower: u32) -> u32 {
    for place in 0..PLACES {
        if grid.has(place, follower) {
            return place;
        }
    }
    PLACES
}

// Adds the staircase of a set to a list, and its places to their sum.
fn add_stairs(stairs: &mut Vec<u32>, grid: &Grid, weight: &mut u32) -> Result<(), AllocError> {
    let mut so_far = PLACES;
    for back in 0..PLACES {
        so_far = so_far.min(least_leader(grid, PLACES - 1 - back));
        *weight = weight.saturating_add(so_far);
        stairs.push(so_far)?;
    }
    Ok(())
}

// The staircases of sets, and the sum of their places.
fn stairs_of(alloc: Global, grids: &[Grid], weight: &mut u32) -> Result<Vec<u32>, AllocError> {
    let mut stairs = Vec::new(alloc);
    for grid in grids {
        add_stairs(&mut stairs, grid, weight)?;
    }
    Ok(stairs)
}

// The order of a train that leads and one that follows.
fn order_of(alloc: Global, sought: Sought<'_>, trains: Two) -> Result<Order, AllocError> {
    let mut weight = 0;
    let grids = grids_of(alloc, sought, trains)?;
    let stairs = stairs_of(alloc, &grids, &mut weight)?;
    Ok(Order {
        first: trains.first,
        second: trains.second,
        grids,
        stairs,
        weight,
        of_run: sought.run.is_some(),
        is_marked: false,
    })
}

// Whether an order has a section in some table.
fn has_sections(tables: &[Table], order: &Order) -> bool {
    for number in 0..tables.len() {
        if order.count(&tables[number], number) > 0 {
            return true;
        }
    }
    false
}

// The number in a list, the strongest orders first, before which an order stands: behind all that are no weaker.
fn place_among(orders: &[Order], order: &Order) -> usize
    ensures { result ≤ length orders.now }
{
    for number in 0..orders.len() {
        let other = &orders[number];
        if other.weight < order.weight {
            return number;
        }
    }
    orders.len()
}

/// Adds the order of a train that leads and one that follows to a list, the strongest orders first, if the tracks or the run force one.
pub(crate) fn add_order(
    alloc: Global,
    sought: Sought<'_>,
    trains: Two,
    orders: &mut Vec<Order>,
) -> Result<(), AllocError> {
    let order = order_of(alloc, sought, trains)?;
    if has_sections(sought.tables, &order) {
        let place = place_among(orders, &order);
        orders.insert(place, order)?;
    }
    Ok(())
}
