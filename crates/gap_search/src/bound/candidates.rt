//! Proofs that may be accepted, of prices and closed labels. No clause rests on this.

use super::sections::section_by;
use crate::clock::GapClock;
use crate::trips::fastest_plan;
use customer_sets::{CustSet, LargeSet};
use ev_list::Listed;
use instance_reader::{Instance, MOST_CUSTOMERS};
use near_completion::Ground;
use near_lists::near_labels;
use near_prices::{NearPrices, PricedRoute};
use near_proof::NearProof;
use near_tree::{LeafSection, TreeNode, TreeProof};
use route_plan::RoutePlan;
use std::alloc::{AllocError, Global};
use tree_text::BoundProof;

/// Proofs by these prices that may be accepted: a near proof, for up to 128 customers where each
/// has a tight route, and a tree of one leaf. A short list is thought to take so many milliseconds.
pub(crate) fn candidates<C: GapClock>(
    alloc: Global,
    inst: &Instance,
    ground: &Ground,
    found: &NearPrices,
    milliseconds: u64,
    clock: &mut C,
) -> Result<Vec<BoundProof>, AllocError> {
    let Some(section) = section_by(alloc, inst, ground, found, milliseconds, clock)? else {
        return Ok(Vec::new(alloc));
    };
    let bound = Some(price_total(&section));
    let tight = if has_prices(&section, &found.prices) {
        tight_plans(alloc, inst, ground, found)?
    } else {
        None
    };
    both_kinds(alloc, inst, bound, section, tight)
}

/// Proofs that there is no plan, by a section of weight 0: a near proof, for up to 128 customers,
/// and a tree of one leaf.
pub(crate) fn candidates_of_none(
    alloc: Global,
    inst: &Instance,
    section: LeafSection,
) -> Result<Vec<BoundProof>, AllocError> {
    both_kinds(alloc, inst, None, section, Some(Vec::new(alloc)))
}

/// A near proof of a section, where there are tight routes for it and few enough customers, and a
/// tree of that leaf.
fn both_kinds(
    alloc: Global,
    inst: &Instance,
    bound: Option<u128>,
    section: LeafSection,
    tight: Option<Vec<RoutePlan>>,
) -> Result<Vec<BoundProof>, AllocError> {
    let mut candidates = Vec::new(alloc);
    if let Some(tight) = tight {
        if let Some(proof) = near_proof(alloc, inst, bound, &section, tight)? {
            candidates.push(BoundProof::Near(proof))?;
        }
    }
    candidates.push(tree_of(alloc, bound, section)?)?;
    Ok(candidates)
}

/// A tree of one leaf.
fn tree_of(
    alloc: Global,
    bound: Option<u128>,
    section: LeafSection,
) -> Result<BoundProof, AllocError> {
    let mut nodes = Vec::new(alloc);
    nodes.push(TreeNode::Leaf(section))?;
    Ok(BoundProof::Tree(TreeProof {
        bound,
        nodes: Listed::from_vec(nodes),
    }))
}

/// The sum of the prices of a section.
fn price_total(section: &LeafSection) -> u128 {
    let mut sum: u128 = 0;
    for price in section.prices.as_slice() {
        sum = sum.saturating_add(whole(*price));
    }
    sum
}

/// A number, 0 where it is below that.
fn whole(number: i128) -> u128 {
    u128::try_from(number).unwrap_or(0)
}

/// The near proof of a section and of tight routes, where there are few enough customers and its
/// labels are those of a near proof.
fn near_proof(
    alloc: Global,
    inst: &Instance,
    bound: Option<u128>,
    section: &LeafSection,
    tight: Vec<RoutePlan>,
) -> Result<Option<NearProof>, AllocError> {
    if inst.customers().len() > MOST_CUSTOMERS {
        return Ok(None);
    }
    let Some(labels) = near_labels(alloc, inst, section)? else {
        return Ok(None);
    };
    Ok(Some(NearProof {
        bound,
        weight: section.weight,
        prices: Listed::from_vec(whole_prices(alloc, section.prices.as_slice())?),
        sets: Listed::from_vec(small_sets(alloc, section.sets.as_slice())?),
        labels: Listed::from_vec(labels),
        tight: Listed::from_vec(tight),
    }))
}

/// Whether these are the prices of a section.
fn has_prices(section: &LeafSection, prices: &[i64]) -> bool {
    let own = section.prices.as_slice();
    own.len() == prices.len()
        && own
            .iter()
            .zip(prices)
            .all(|(one, other)| *one == i128::from(*other))
}

/// Prices, as a near proof lists them.
fn whole_prices(alloc: Global, prices: &[i128]) -> Result<Vec<u64>, AllocError> {
    let mut all = Vec::with_capacity(alloc, prices.len())?;
    for price in prices {
        all.push(u64::try_from(*price).unwrap_or(0))?;
    }
    Ok(all)
}

/// Near sets, as a near proof lists them.
fn small_sets(alloc: Global, sets: &[LargeSet]) -> Result<Vec<CustSet>, AllocError> {
    let mut all = Vec::with_capacity(alloc, sets.len())?;
    for set in sets {
        all.push(small_set(*set))?;
    }
    Ok(all)
}

/// The customers of a set with a number below 128.
fn small_set(set: LargeSet) -> CustSet {
    let mut small = CustSet::empty();
    for customer in 0..128 {
        if set.has(customer) {
            small = small.with(customer);
        }
    }
    small
}

/// A tight route for each customer, if each has one.
fn tight_plans(
    alloc: Global,
    inst: &Instance,
    ground: &Ground,
    found: &NearPrices,
) -> Result<Option<Vec<RoutePlan>>, AllocError> {
    let mut plans = Vec::with_capacity(alloc, found.tight.len())?;
    for place in &found.tight {
        match tight_plan(alloc, inst, ground, &found.routes, *place)? {
            Some(plan) => plans.push(plan)?,
            None => return Ok(None),
        }
    }
    Ok(Some(plans))
}

/// A fastest plan of the route at a place, if there is one.
fn tight_plan(
    alloc: Global,
    inst: &Instance,
    ground: &Ground,
    routes: &[PricedRoute],
    place: Option<usize>,
) -> Result<Option<RoutePlan>, AllocError> {
    let Some(route) = place.and_then(|at| routes.get(at)) else {
        return Ok(None);
    };
    let mut nodes = Vec::with_capacity(alloc, route.order.len())?;
    for customer in &route.order {
        nodes.push(ground.node(*customer))?;
    }
    fastest_plan(alloc, inst, &nodes)
}
