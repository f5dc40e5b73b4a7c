//! Which routes of a pool are worth a look: those that keep a node's pairs, and of these the ones
//! that earn most at given prices (partial pricing over a pool: Desaulniers, Desrosiers, Solomon
//! 2005).

ghost use Rattle.std.specs.Prelude.{◌≡◌, ◌≤◌, ◌↔◌, IfOk, IsTrue, length};
ghost use Rattle.instance_reader.specs.Instance.{customer_nodes, most_customers};
ghost use Rattle.route_pool.specs.Kept.{IsKeptAt};
ghost use Rattle.route_pool.specs.Pool.{IsPool};

use crate::keeping::keeps_pairs;
use crate::pool::ColumnPool;
use customer_sets::Pairs;
use instance_reader::Instance;
use std::alloc::{AllocError, Global};

/// The places in the pool of the routes that keep the pairs.
pub fn kept_places(
    alloc: Global,
    inst: &Instance,
    pairs: &Pairs,
    pool: &ColumnPool,
) -> Result<Vec<usize>, AllocError>
    requires few { length (customer_nodes inst.now) ≤ most_customers }
    requires pairs { pairs.now.customers ≡ length (customer_nodes inst.now) }
    requires pool { IsPool inst.now pool.now }
{
    let mut kept = Vec::new(alloc);
    for at in 0..pool.len() {
        if is_kept(inst, pairs, pool, at) {
            kept.push(at)?;
        }
    }
    Ok(kept)
}

/// Whether there is a route at the place of the pool, and keeps the pairs.
fn is_kept(inst: &Instance, pairs: &Pairs, pool: &ColumnPool, at: usize) -> bool
    requires few { length (customer_nodes inst.now) ≤ most_customers }
    requires pairs { pairs.now.customers ≡ length (customer_nodes inst.now) }
    requires pool { IsPool inst.now pool.now }
    ensures { IsTrue result ↔ IsKeptAt inst.now pairs.now pool.now at }
{
    match pool.route(at) {
        Some((order, _)) => keeps_pairs(inst, pairs, order),
        None => false,
    }
}

/// Of the places those whose routes earn most at a weight and the customers' prices, the greatest
/// gain last, and no more than there are customers. There is none exactly where no route earns,
/// by the times that the pool has noted.
pub fn earning(
    alloc: Global,
    inst: &Instance,
    pool: &ColumnPool,
    places: &[usize],
    weight: u64,
    prices: &[i128],
) -> Result<Vec<usize>, AllocError>
    ensures { IfOk result (λ found.
        length found.items ≤ length (customer_nodes inst.now)) }
{
    let worth = worth_by_node(alloc, inst, prices)?;
    let mut gains = gains_at(alloc, pool, places, &worth, weight)?;
    gains.sort_unstable();
    let first = gains.len().saturating_sub(inst.customers().len());
    places_of(alloc, &gains[first..])
}

/// The places of gains.
fn places_of(alloc: Global, gains: &[(i128, usize)]) -> Result<Vec<usize>, AllocError>
    ensures { IfOk result (λ found. length found.items ≡ length gains.now) }
{
    let mut found = Vec::with_capacity(alloc, gains.len())?;
    for (_, at) in gains {
        found.push(*at)?;
    }
    Ok(found)
}

/// The price of the customer at each node, 0 where there is none.
fn worth_by_node(alloc: Global, inst: &Instance, prices: &[i128]) -> Result<Vec<i128>, AllocError> {
    let mut worth = Vec::new(alloc);
    worth.resize(inst.nodes(), 0i128)?;
    for (node, price) in inst.customers().iter().zip(prices.iter()) {
        if let Some(place) = worth.get_mut(*node) {
            *place = *price;
        }
    }
    Ok(worth)
}

/// What the routes at the places earn, each with its place, where it is above 0.
fn gains_at(
    alloc: Global,
    pool: &ColumnPool,
    places: &[usize],
    worth: &[i128],
    weight: u64,
) -> Result<Vec<(i128, usize)>, AllocError> {
    let mut gains = Vec::new(alloc);
    for at in places {
        let gain = gain_at(pool, *at, worth, weight);
        if gain > 0 {
            gains.push((gain, *at))?;
        }
    }
    Ok(gains)
}

/// What the route at a place earns: the prices of its customers less its time times the weight.
fn gain_at(pool: &ColumnPool, at: usize, worth: &[i128], weight: u64) -> i128 {
    let Some((order, pooled)) = pool.route(at) else {
        return 0;
    };
    let mut paid = 0i128;
    for node in order {
        paid = paid.saturating_add(worth.get(*node).copied().unwrap_or(0));
    }
    let cost = i128::from(weight).saturating_mul(i128::from(pooled.time));
    paid.saturating_sub(cost)
}
