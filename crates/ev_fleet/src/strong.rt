//! Of a few pairs the one whose children's bounds rise most (strong branching: Applegate, Bixby,
//! Chvátal, Cook 1995).

ghost use Rattle.std.specs.Prelude.{◌≡◌, ◌≤◌, IfOk, length};
ghost use Rattle.std.specs.List.{All};
ghost use Rattle.instance_reader.specs.Instance.{customer_nodes, most_customers};
ghost use Rattle.branching.specs.Nodes.{HasNode, IsLive};
ghost use Rattle.route_pool.specs.Pool.{IsPool};
ghost use Rattle.ev_fleet.specs.Splitting.{IsChoice};

use crate::pair::Choice;
use branching::{Tree, child_pairs};
use column_pool::{ColumnPool, estimate_node};
use customer_sets::Pairs;
use instance_reader::Instance;
use std::alloc::{AllocError, Global};

/// The bound of a node that is to be split, and the cost of the plan that is held.
#[derive(Clone, Copy)]
pub(crate) struct Gap {
    pub(crate) bound: u128,
    pub(crate) cost: Option<u128>,
}

impl Gap {
    /// By how much a child's bound may be above the node's and be of use: up to the cost, and where
    /// no plan is held by a thirtieth.
    fn width(self) -> u128 {
        match self.cost {
            Some(cost) => cost.saturating_sub(self.bound).max(1),
            None => (self.bound / 30).max(1),
        }
    }

    /// By how much an estimate is above the bound, at least by 1, and no more than is of use.
    fn gain(self, estimate: u128) -> u128 {
        estimate.saturating_sub(self.bound).max(1).min(self.width())
    }
}

/// The choice of which the product of both children's gains is greatest (Achterberg 2007): the
/// first one or one of the others, of equal ones the first.
pub(crate) fn strongest(
    alloc: Global,
    inst: &Instance,
    tree: &Tree,
    key: usize,
    pool: &ColumnPool,
    gap: Gap,
    first: Choice,
    others: &[Choice],
) -> Result<Choice, AllocError>
    requires few { length (customer_nodes inst.now) ≤ most_customers }
    requires customers { tree.now.customers ≡ length (customer_nodes inst.now) }
    requires live { HasNode tree.now.nodes key IsLive }
    requires pool { IsPool inst.now pool.now }
    requires first { IsChoice tree.now key first }
    requires others { All (IsChoice tree.now key) others.now }
    ensures { IfOk result (IsChoice tree.now key) }
{
    if others.is_empty() {
        return Ok(first);
    }
    let mut best = first;
    let mut most = gains(alloc, inst, tree, key, pool, gap, first, 0)?;
    for choice in others {
        let product = gains(alloc, inst, tree, key, pool, gap, *choice, most)?;
        if product > most {
            best = *choice;
            most = product;
        }
    }
    Ok(best)
}

/// The product of the gains of the children where the node is split on the choice. Where it can't
/// be above `most`, a number that isn't may stand for it.
fn gains(
    alloc: Global,
    inst: &Instance,
    tree: &Tree,
    key: usize,
    pool: &ColumnPool,
    gap: Gap,
    choice: Choice,
    most: u128,
) -> Result<u128, AllocError>
    requires few { length (customer_nodes inst.now) ≤ most_customers }
    requires customers { tree.now.customers ≡ length (customer_nodes inst.now) }
    requires live { HasNode tree.now.nodes key IsLive }
    requires pool { IsPool inst.now pool.now }
    requires choice { IsChoice tree.now key choice }
{
    let (apart, together) = child_pairs(tree.pairs(key), choice.i, choice.j);
    let first = gap.gain(estimate(alloc, inst, &apart, pool)?);
    if first.saturating_mul(gap.width()) <= most {
        return Ok(0);
    }
    let second = gap.gain(estimate(alloc, inst, &together, pool)?);
    Ok(first.saturating_mul(second))
}

/// What the bound of a node with these pairs may come to; the greatest number where the pool's
/// routes cover no plan.
fn estimate(
    alloc: Global,
    inst: &Instance,
    pairs: &Pairs,
    pool: &ColumnPool,
) -> Result<u128, AllocError>
    requires few { length (customer_nodes inst.now) ≤ most_customers }
    requires pairs { pairs.now.customers ≡ length (customer_nodes inst.now) }
    requires pool { IsPool inst.now pool.now }
{
    let estimate = estimate_node(alloc, inst, pairs, pool)?;
    Ok(estimate.unwrap_or(u128::MAX))
}
