//! A tree over near sections, which is grown where a gap is left. No clause rests on this.

use super::question::routes_held;
use super::routes::{NearOrder, known_routes, orders_of};
use crate::offers::cost_of_plan;
use crate::watcher::GapWatcher;
use customer_sets::LargeSet;
use instance_reader::Instance;
use near_branch::{BranchClock, BranchQuestion, Branched, branch};
use near_completion::Ground;
use near_prices::PricedRoute;
use route_improve::Improved;
use std::alloc::{AllocError, Global};
use tree_text::BoundProof;

/// What is known at the root of a tree, before it is grown.
#[derive(Drop)]
pub(crate) struct Root {
    /// The near sets, by customer.
    pub(crate) near: Vec<LargeSet>,
    /// Routes that are known.
    pub(crate) routes: Vec<PricedRoute>,
}

/// What a tree gives. Nothing is promised of it.
#[derive(Drop)]
pub(crate) struct Grown {
    /// A proof that may be accepted.
    pub(crate) proof: Option<BoundProof>,
    /// Routes that may make a cheaper plan than the one that is held, if some were found.
    pub(crate) orders: Option<Vec<NearOrder>>,
}

/// What a tree of so many nodes at the most gives; `None` where none are asked for, no gap is left
/// between what is held and this bound, or the clock is up. The only `Err` is want of memory.
pub(crate) fn grow_tree<C: BranchClock, W: GapWatcher>(
    alloc: Global,
    inst: &Instance,
    held: &Improved,
    bound: Option<u128>,
    root: Root,
    nodes: Option<u64>,
    clock: &mut C,
    watcher: &mut W,
) -> Result<Option<Grown>, AllocError> {
    let Some(nodes) = nodes else {
        return Ok(None);
    };
    let cost = cost_held(inst, held);
    if !is_open(cost, bound) || clock.is_up() {
        return Ok(None);
    }
    let ground = Ground::new(alloc, inst)?;
    let question = BranchQuestion {
        plan: routes_held(alloc, inst, held)?,
        cost,
        seen: known_routes(alloc, &root.routes)?,
        near: root.near,
        nodes,
    };
    let found = branch(alloc, inst, &ground, question, clock, watcher)?;
    Ok(Some(given(alloc, &ground, found)?))
}

/// What a search that branched gives.
fn given(alloc: Global, ground: &Ground, found: Branched) -> Result<Grown, AllocError> {
    Ok(Grown {
        proof: found.proof.map(BoundProof::Tree),
        orders: match found.plan {
            Some(routes) => Some(orders_of(alloc, ground, &routes)?),
            None => None,
        },
    })
}

/// What the plan that is held costs.
fn cost_held(inst: &Instance, held: &Improved) -> Option<u128> {
    match held {
        Improved::Plan(plan) => Some(cost_of_plan(inst, plan)),
        Improved::Alone(_) => None,
    }
}

/// Whether a gap is left, or a plan may be missing. Without a bound there is none.
fn is_open(cost: Option<u128>, bound: Option<u128>) -> bool {
    match (cost, bound) {
        (_, None) => false,
        (None, Some(_)) => true,
        (Some(cost), Some(bound)) => bound < cost,
    }
}
