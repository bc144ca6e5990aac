// Chains that are joined, so that fewer sections keep the same orders. A join is taken only if trains that aren't neighbours in the chain
// never have shares at one time, and all that the orders forbid stays forbidden. Shares only get less, so neighbours stay within the limit.
use crate::chains::{Chain, LIMIT, Link, SHARES, chains_of_two, share_at, train_at};
use crate::search::PLACES;
use crate::{Grid, Order};
use rail_model::Table;
use std::alloc::{AllocError, Global};

// Of more sections of a table than these it isn't tried to pack them.
const MOST_UNPACKED: usize = 256;

// The most joins that are tried in a table. Of lines of 8 to 24 trains at most 268 were.
const MOST_TRIES: usize = 2000;

// The number of a table, the orders that are kept in it, and those of other trains.
#[derive(Clone, Copy)]
struct Kept<'a> {
    number: usize,
    orders: &'a [Order],
    others: &'a [Order],
}

// Whether a train has no share in any pair of a set with a place of another.
fn row_has_none(place: u32, second: &[u32], grid: &Grid) -> bool {
    for other in 0..PLACES {
        if share_at(second, other) > 0 && grid.has(place, other) {
            return false;
        }
    }
    true
}

// Whether at each pair of a set one of two trains has no share.
fn shares_fit(first: &[u32], second: &[u32], grid: &Grid) -> bool {
    for place in 0..PLACES {
        if share_at(first, place) > 0 && !row_has_none(place, second, grid) {
            return false;
        }
    }
    true
}

// Whether one of some orders is that of two trains of a chain, the second one behind the first, and at each of its pairs one of them has no
// share.
fn fit_one(orders: &[Order], table: usize, chain: &Chain, first: usize, second: usize) -> bool {
    let (leader, follower) = (
        train_at(&chain.trains, first),
        train_at(&chain.trains, second),
    );
    for number in 0..orders.len() {
        let order = &orders[number];
        if order.first() == leader && order.second() == follower {
            return match order.grids().get(table) {
                Some(grid) => shares_fit(chain.shares_at(first), chain.shares_at(second), grid),
                None => false,
            };
        }
    }
    false
}

// Whether one of all orders is.
fn two_fit(kept: Kept<'_>, chain: &Chain, first: usize, second: usize) -> bool {
    fit_one(kept.orders, kept.number, chain, first, second)
        || fit_one(kept.others, kept.number, chain, first, second)
}

// Whether the shares of a train of a chain fit those of the trains from a place in it on.
fn train_fits(kept: Kept<'_>, chain: &Chain, first: usize, from: usize) -> bool {
    for second in from..chain.trains.len() {
        if !two_fit(kept, chain, first, second) {
            return false;
        }
    }
    true
}

// Whether the shares of the trains before a place of a chain fit those of the trains behind it. They aren't neighbours.
fn fits(kept: Kept<'_>, chain: &Chain, place: usize) -> bool {
    for first in 0..place {
        if !train_fits(kept, chain, first, place.saturating_add(1)) {
            return false;
        }
    }
    true
}

// What the section of a chain has for the two trains of an order, place by place.
#[derive(Clone, Copy)]
struct Shares<'a> {
    leader: &'a [u32],
    follower: &'a [u32],
}

impl<'a> Shares<'a> {
    fn of(chain: &'a Chain, order: &Order) -> Shares<'a> {
        Shares {
            leader: chain.shares_of(order.first()),
            follower: chain.shares_of(order.second()),
        }
    }

    // Whether they forbid the two trains to be at these places.
    fn forbid(self, leader: u32, follower: u32) -> bool {
        share_at(self.leader, leader).saturating_add(share_at(self.follower, follower)) > LIMIT
    }
}

// Whether one of some chains forbids two trains to be at these places.
fn one_forbids(chains: &[Shares<'_>], leader: u32, follower: u32) -> bool {
    for number in 0..chains.len() {
        if chains[number].forbid(leader, follower) {
            return true;
        }
    }
    false
}

// Whether what was forbidden for a place of the train that leads stays forbidden: by what is joined, or elsewhere.
fn row_stays(before: Shares<'_>, after: Shares<'_>, elsewhere: &[Shares<'_>], leader: u32) -> bool {
    for follower in 0..PLACES {
        if before.forbid(leader, follower)
            && !after.forbid(leader, follower)
            && !one_forbids(elsewhere, leader, follower)
        {
            return false;
        }
    }
    true
}

// Whether all that was forbidden stays forbidden.
fn all_stays(before: Shares<'_>, after: Shares<'_>, elsewhere: &[Shares<'_>]) -> bool {
    for leader in 0..PLACES {
        if !row_stays(before, after, elsewhere, leader) {
            return false;
        }
    }
    true
}

// Two chains of a list, by their numbers, and what they would be joined to.
#[derive(Clone, Copy)]
struct Join<'a> {
    chains: &'a [Chain],
    first: usize,
    second: usize,
    joined: &'a Chain,
}

impl<'a> Join<'a> {
    // What the chains that aren't joined have for the order with a number.
    fn elsewhere(
        self,
        alloc: Global,
        number: usize,
        order: &Order,
    ) -> Result<Vec<Shares<'a>>, AllocError> {
        let mut elsewhere = Vec::new(alloc);
        for k in 0..self.chains.len() {
            let chain = &self.chains[k];
            if k != self.first && k != self.second && chain.keeps(number) {
                elsewhere.push(Shares::of(chain, order))?;
            }
        }
        Ok(elsewhere)
    }
}

// Whether all that a chain forbids by the order with a number stays forbidden after a join.
fn order_stays(
    alloc: Global,
    kept: Kept<'_>,
    join: Join<'_>,
    before: &Chain,
    number: usize,
) -> Result<bool, AllocError> {
    match kept.orders.get(number) {
        Some(order) => {
            let elsewhere = join.elsewhere(alloc, number, order)?;
            let after = Shares::of(join.joined, order);
            Ok(all_stays(Shares::of(before, order), after, &elsewhere))
        }
        None => Ok(false),
    }
}

// Whether two chains have no train in common but the one at which they are joined.
fn are_disjoint(first: &[u32], second: &[u32]) -> bool {
    let mut common: u32 = 0;
    for number in 0..first.len() {
        if second.contains(&first[number]) {
            common = common.saturating_add(1);
        }
    }
    common == 1
}

// The place where the share of a train falls for its follower, if it stands last in one chain and first in another, and rises for its leader
// before that; else one that no train comes to.
fn meets_at(first: &Chain, second: &Chain) -> u32 {
    let last = train_at(&first.trains, first.trains.len().saturating_sub(1));
    let meets = first.rises < second.falls
        && last == train_at(&second.trains, 0)
        && are_disjoint(&first.trains, &second.trains);
    if meets { second.falls } else { PLACES }
}

// A list from a number on.
fn tail(list: &[u32], from: usize) -> &[u32] {
    match list.get(from..) {
        Some(tail) => tail,
        None => &[],
    }
}

// Lessens the shares in a list from a number on to others.
fn lessen(shares: &mut [u32], from: usize, others: &[u32]) {
    for place in 0..PLACES {
        let number = from.saturating_add(place as usize);
        if let Some(share) = shares.get_mut(number) {
            *share = (*share).min(share_at(others, place));
        }
    }
}

// Two lists, one behind the other.
fn both(alloc: Global, first: &[u32], second: &[u32]) -> Result<Vec<u32>, AllocError> {
    let mut list = Vec::from_slice(alloc, first)?;
    list.extend_from_slice(second)?;
    Ok(list)
}

// Two chains one behind the other, without their links: the last train of the first one is the first of the second, with the lesser of its
// shares.
fn join_of(alloc: Global, first: &Chain, second: &Chain) -> Result<Chain, AllocError> {
    let trains = both(alloc, &first.trains, tail(&second.trains, 1))?;
    let mut shares = both(alloc, &first.shares, tail(&second.shares, SHARES))?;
    let from = first.shares.len().saturating_sub(SHARES);
    lessen(&mut shares, from, &second.shares);
    Ok(Chain {
        trains,
        shares,
        falls: first.falls,
        rises: second.rises,
        links: Vec::new(alloc),
    })
}

// The numbers of the orders of the last link of one chain, and of the first link of another.
fn joined_orders(first: &Chain, second: &Chain) -> (usize, usize) {
    match (first.links.last(), second.links.first()) {
        (Some(last), Some(link)) => (last.order, link.order),
        _ => (usize::MAX, usize::MAX),
    }
}

// Whether a join is permitted. Only the train at which the chains are joined has lesser shares than before.
fn is_permitted(
    alloc: Global,
    kept: Kept<'_>,
    join: Join<'_>,
    first: &Chain,
    second: &Chain,
) -> Result<bool, AllocError> {
    let (last, next) = joined_orders(first, second);
    Ok(
        fits(kept, join.joined, first.links.len())
            && order_stays(alloc, kept, join, first, last)?
            && order_stays(alloc, kept, join, second, next)?,
    )
}

// Moves the links of the chain with a number to a list, and leaves it without trains.
fn take_links(
    chains: &mut [Chain],
    number: usize,
    links: &mut Vec<Link>,
) -> Result<(), AllocError> {
    if let Some(chain) = chains.get_mut(number) {
        links.append(&mut chain.links)?;
        chain.trains.truncate(0);
    }
    Ok(())
}

// Puts joined chains in the place of the first of them, and leaves one without trains in the place of the second.
fn put_joined(
    chains: &mut [Chain],
    first: usize,
    second: usize,
    joined: Chain,
) -> Result<(), AllocError> {
    let mut joined = joined;
    take_links(chains, first, &mut joined.links)?;
    take_links(chains, second, &mut joined.links)?;
    if let Some(chain) = chains.get_mut(first) {
        *chain = joined;
    }
    Ok(())
}

// Two chains of a list one behind the other, without their links, if the join is permitted.
fn permitted(
    alloc: Global,
    kept: Kept<'_>,
    chains: &[Chain],
    first: usize,
    second: usize,
) -> Result<Option<Chain>, AllocError> {
    let (Some(leading), Some(following)) = (chains.get(first), chains.get(second)) else {
        return Ok(None);
    };
    let joined = join_of(alloc, leading, following)?;
    let join = Join {
        chains,
        first,
        second,
        joined: &joined,
    };
    if is_permitted(alloc, kept, join, leading, following)? {
        Ok(Some(joined))
    } else {
        Ok(None)
    }
}

// Joins a chain with another one behind it, if that is permitted.
fn join_two(
    alloc: Global,
    kept: Kept<'_>,
    chains: &mut [Chain],
    first: usize,
    second: usize,
) -> Result<bool, AllocError> {
    match permitted(alloc, kept, chains, first, second)? {
        Some(joined) => {
            put_joined(chains, first, second, joined)?;
            Ok(true)
        }
        None => Ok(false),
    }
}

// A chain that may be joined behind another one, by its number, and the place at which it meets that.
#[derive(Clone, Copy)]
struct Candidate {
    second: usize,
    meets: u32,
}

impl Candidate {
    // Whether it is tried before another one: it meets the chain before that, or its number is less.
    fn is_before(self, other: Candidate) -> bool {
        self.meets < other.meets || self.meets == other.meets && self.second < other.second
    }
}

// The first chain that may be joined behind one and is tried later than some other; one that meets it nowhere, if there is none.
fn next_candidate(chains: &[Chain], first: usize, tried: Candidate) -> Candidate {
    let mut next = Candidate {
        second: 0,
        meets: PLACES,
    };
    for second in 0..chains.len() {
        if first < chains.len() {
            let meets = meets_at(&chains[first], &chains[second]);
            let found = Candidate { second, meets };
            if tried.is_before(found) && found.is_before(next) {
                next = found;
            }
        }
    }
    next
}

// Joins a chain with the first of those behind it with which that is permitted. Each try is counted.
fn extend(
    alloc: Global,
    kept: Kept<'_>,
    chains: &mut [Chain],
    first: usize,
    tries: &mut usize,
) -> Result<bool, AllocError> {
    let mut tried = Candidate {
        second: 0,
        meets: 0,
    };
    for _ in 0..chains.len() {
        tried = next_candidate(chains, first, tried);
        if tried.meets >= PLACES || *tries >= MOST_TRIES {
            return Ok(false);
        }
        *tries += 1;
        if join_two(alloc, kept, chains, first, tried.second)? {
            return Ok(true);
        }
    }
    Ok(false)
}

// Joins a chain with those behind it.
fn extend_all(
    alloc: Global,
    kept: Kept<'_>,
    chains: &mut [Chain],
    first: usize,
    tries: &mut usize,
) -> Result<(), AllocError> {
    for _ in 0..chains.len() {
        if !extend(alloc, kept, chains, first, tries)? {
            return Ok(());
        }
    }
    Ok(())
}

// Joins all chains with those behind them.
fn join_all(alloc: Global, kept: Kept<'_>, chains: &mut [Chain]) -> Result<(), AllocError> {
    let mut tries = 0;
    for first in 0..chains.len() {
        extend_all(alloc, kept, chains, first, &mut tries)?;
    }
    Ok(())
}

// Takes out the chains without trains.
fn drop_empty(chains: &mut Vec<Chain>) {
    let mut number: usize = 0;
    for _ in 0..chains.len() {
        if number < chains.len() && chains[number].trains.is_empty() {
            chains.remove(number);
        } else {
            number = number.saturating_add(1);
        }
    }
}

/// The chains that keep orders in the table with a number; joined, if that is wanted and they aren't too many.
pub(crate) fn chains_of(
    alloc: Global,
    table: &Table,
    number: usize,
    orders: &[Order],
    others: &[Order],
    are_joined: bool,
) -> Result<Vec<Chain>, AllocError> {
    let kept = Kept {
        number,
        orders,
        others,
    };
    let mut chains = chains_of_two(alloc, table, number, orders)?;
    if are_joined && chains.len() <= MOST_UNPACKED {
        join_all(alloc, kept, &mut chains)?;
        drop_empty(&mut chains);
    }
    Ok(chains)
}
