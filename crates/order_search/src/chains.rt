// Chains of trains, each behind the one before, that a section keeps in order, and such sections.
use crate::Order;
use crate::order::{STEPS, Step};
use crate::search::{PLACES, Two, last_in};
use rail_model::{Changes, Section, Table, trains_of};
use std::alloc::{AllocError, Global};

/// The limit of such a section.
pub(crate) const LIMIT: u32 = 4;

/// How many shares a train of a chain has: one for each place, 0 behind its last one.
pub(crate) const SHARES: usize = 128;

/// Why two neighbours of a chain have shares: the number of their order, and the steps of its staircase that the section takes.
#[derive(Drop)]
pub struct Link {
    pub order: usize,
    pub steps: Vec<Step>,
}

/// Trains that a section keeps one behind the other: the first one leads, and each further one follows the one before. They alone have
/// shares of the section, and for each two neighbours there is a link.
#[derive(Drop)]
pub struct Chain {
    pub(crate) trains: Vec<u32>,
    /// Train by train, and place by place.
    pub(crate) shares: Vec<u32>,
    /// The place from which on the first train hasn't the whole limit, if it comes there.
    pub(crate) falls: u32,
    /// The place from which on the last train has the whole limit, if it comes there.
    pub(crate) rises: u32,
    pub links: Vec<Link>,
}

/// The share at a place in a list of them.
pub(crate) fn share_at(shares: &[u32], place: u32) -> u32 {
    shares.get(place as usize).copied().unwrap_or(0)
}

/// The train with a number in a list, or one that no table has.
pub(crate) fn train_at(trains: &[u32], number: usize) -> u32 {
    trains.get(number).copied().unwrap_or(u32::MAX)
}

impl Chain {
    /// The trains, the one that leads first.
    pub fn trains(&self) -> &[u32] {
        &self.trains
    }

    /// The shares of the train with a number in the chain.
    pub(crate) fn shares_at(&self, number: usize) -> &[u32] {
        let from = number.saturating_mul(SHARES);
        match self.shares.get(from..from.saturating_add(SHARES)) {
            Some(shares) => shares,
            None => &[],
        }
    }

    /// The shares of a train: none, if it isn't in the chain.
    pub(crate) fn shares_of(&self, train: u32) -> &[u32] {
        for number in 0..self.trains.len() {
            if self.trains[number] == train {
                return self.shares_at(number);
            }
        }
        &[]
    }

    /// Whether the trains of an order have shares.
    pub(crate) fn has_both(&self, order: &Order) -> bool {
        self.trains.contains(&order.first()) && self.trains.contains(&order.second())
    }

    /// Whether the section keeps the order with a number.
    pub fn keeps(&self, order: usize) -> bool {
        for number in 0..self.links.len() {
            if self.links[number].order == order {
                return true;
            }
        }
        false
    }
}

// How many steps the train that leads has reached at a place, and how many the other one has passed at such a place.
fn steps_passed(steps: &[Step], place: u32) -> Two {
    let mut passed = Two {
        first: 0,
        second: 0,
    };
    for step in steps {
        if step.leader <= place {
            passed.first = passed.first.saturating_add(1);
        }
        if step.follower <= place {
            passed.second = passed.second.saturating_add(1);
        }
    }
    passed
}

// The shares of two trains: the one that leads has 4, less how many steps it has reached, and the other how many it has passed.
fn shares_of_two(alloc: Global, last: Two, steps: &[Step]) -> Result<Vec<u32>, AllocError> {
    let mut shares = Vec::new(alloc);
    for place in 0..PLACES {
        let left = LIMIT.saturating_sub(steps_passed(steps, place).first);
        shares.push(if place <= last.first { left } else { 0 })?;
    }
    for place in 0..PLACES {
        let passed = steps_passed(steps, place).second;
        shares.push(if place <= last.second { passed } else { 0 })?;
    }
    Ok(shares)
}

// The place of the train that leads at the step with a number, or one that it doesn't come to.
fn leader_at(steps: &[Step], number: usize) -> u32 {
    match steps.get(number) {
        Some(step) => step.leader,
        None => PLACES,
    }
}

// The same of the train that follows.
fn follower_at(steps: &[Step], number: usize) -> u32 {
    match steps.get(number) {
        Some(step) => step.follower,
        None => PLACES,
    }
}

// The chain of two trains that takes some steps of the order with a number.
fn chain_of_two(
    alloc: Global,
    table: &Table,
    order: &Order,
    number: usize,
    steps: &[Step],
) -> Result<Chain, AllocError> {
    let (first, second) = (order.first(), order.second());
    let last = Two {
        first: last_in(table, first),
        second: last_in(table, second),
    };
    let trains = vec![in alloc; first, second]?;
    let shares = shares_of_two(alloc, last, steps)?;
    let mut links = Vec::new(alloc);
    links.push(Link {
        order: number,
        steps: Vec::from_slice(alloc, steps)?,
    })?;
    Ok(Chain {
        trains,
        shares,
        falls: leader_at(steps, 0),
        rises: follower_at(steps, STEPS - 1),
        links,
    })
}

// Four steps, or those that are left, from a number on.
fn steps_from(steps: &[Step], from: usize) -> &[Step] {
    let to = from.saturating_add(STEPS).min(steps.len());
    match steps.get(from..to) {
        Some(some) => some,
        None => &[],
    }
}

// Adds the chains of the order with a number in a table, four steps in each but the last.
fn add_chains(
    alloc: Global,
    table: &Table,
    table_number: usize,
    order: &Order,
    number: usize,
    chains: &mut Vec<Chain>,
) -> Result<(), AllocError> {
    let steps = order.steps(alloc, table_number, last_in(table, order.second()))?;
    for part in 0..order.count(table, table_number) {
        let some = steps_from(&steps, part.saturating_mul(STEPS));
        chains.push(chain_of_two(alloc, table, order, number, some)?)?;
    }
    Ok(())
}

/// The chains of two trains that keep all orders in the table with a number.
pub(crate) fn chains_of_two(
    alloc: Global,
    table: &Table,
    table_number: usize,
    orders: &[Order],
) -> Result<Vec<Chain>, AllocError> {
    let mut chains = Vec::new(alloc);
    for number in 0..orders.len() {
        add_chains(
            alloc,
            table,
            table_number,
            &orders[number],
            number,
            &mut chains,
        )?;
    }
    Ok(chains)
}

// By how much a train's share of the section of a chain changes at each place.
fn changes_of(
    alloc: Global,
    table: &Table,
    chain: &Chain,
    train: u32,
) -> Result<Changes, AllocError> {
    let shares = chain.shares_of(train);
    let mut changes = Vec::new(alloc);
    let mut before: i32 = 0;
    for place in 0..=last_in(table, train) {
        let share = i32::try_from(share_at(shares, place)).unwrap_or(0);
        changes.push(share.saturating_sub(before))?;
        before = share;
    }
    Ok(Changes::from(changes))
}

// The section of a chain.
fn section_of(alloc: Global, table: &Table, chain: &Chain) -> Result<Section, AllocError> {
    let mut all = Vec::new(alloc);
    for train in 0..trains_of(table) {
        all.push(changes_of(alloc, table, chain, train)?)?;
    }
    Ok(Section::new(LIMIT, all))
}

/// The sections of chains.
pub fn sections_of_chains(
    alloc: Global,
    table: &Table,
    chains: &[Chain],
) -> Result<Vec<Section>, AllocError> {
    let mut sections = Vec::new(alloc);
    for chain in chains {
        sections.push(section_of(alloc, table, chain)?)?;
    }
    Ok(sections)
}
