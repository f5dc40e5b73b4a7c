//! The node that is taken next, what bounds it, and what becomes of it.

ghost use Rattle.std.specs.Prelude.{◌≡◌, ◌<◌, ◌≤◌, IfOk, IfSome, IsNone, length, OnOk, Some};
ghost use Rattle.customer_sets.specs.Pairs.{IsDecided};
ghost use Rattle.branching.specs.Nodes.{HasNode, IsTaken, NoneIsOpen};
ghost use Rattle.branching.specs.Work.{work_left};
ghost use Rattle.ev_model.specs.Fleet.{IsFleetPlan};
ghost use Rattle.instance_reader.specs.Instance.{customer_nodes, most_customers};
ghost use Rattle.column_pool.specs.Bounds.{IsNodeBound, plans_of};
ghost use Rattle.route_pool.specs.Pool.{IsPool};
ghost use Rattle.ev_fleet.specs.Answers.{answer_of, shares_in};
ghost use Rattle.ev_fleet.specs.Bounds.{IsAtMost};
ghost use Rattle.ev_fleet.specs.Greedy.{TakesGreedy, routes_at};
ghost use Rattle.ev_fleet.specs.Held.{MayHold, cost_at};
ghost use Rattle.ev_fleet.specs.Searching.{IsTakenNext};
ghost use Rattle.ev_fleet.specs.Splitting.{CannotSplit, IsSettled};
ghost use Rattle.ev_fleet.specs.Whole.{ReachesCost, TakesShares};

use crate::greedy::{greedy_routes, routes_at};
use crate::held::{Held, offer};
use crate::moved::moved_plan;
use crate::pair::choose_pair;
use crate::partition::plan_of_pool;
use crate::shares::{plan_of_routes, plan_of_shares};
use crate::strong::Gap;
use bound_certificate::{Root, Section, Share};
use branching::Tree;
use column_pool::{ColumnPool, NodeBound, bound_node};
use customer_sets::Pairs;
use instance_reader::Instance;
use std::alloc::{AllocError, Global};

/// A node that was taken.
#[derive(Clone, Copy)]
pub(crate) struct TakenNode {
    pub(crate) key: usize,
    /// The pairs that are forbidden there.
    pub(crate) pairs: Pairs,
    /// The number of the section that its leaf names.
    pub(crate) section: usize,
    /// The bound of this section.
    pub(crate) bound: u128,
}

/// Takes the open node of least bound.
pub(crate) fn take_next(tree: &mut Tree) -> TakenNode
    requires open { NoneIsOpen tree.old.nodes → ⊥ }
    ensures next { IsTakenNext tree.old result tree.new }
    ensures taken { HasNode tree.new.nodes result.key IsTaken }
    ensures work { work_left tree.new.nodes ≡ work_left tree.old.nodes }
{
    let Some(key) = tree.take() else {
        unreachable!()
    };
    TakenNode {
        key,
        pairs: *tree.pairs(key),
        section: tree.section(key),
        bound: tree.bound(key),
    }
}

/// The section of the node with these forbidden pairs, and what shows its bound. The plans of its
/// shares are offered as the plan that is held, and then one of the pool's routes, for which so
/// many of them may be looked at. What is held then is made cheaper by moves, unless it has the
/// cost `moved` of a plan that was.
#[tactic(auto, using(crate::proofs::Bounds::most_most))]
pub(crate) fn bound_pairs(
    alloc: Global,
    inst: &Instance,
    pool: &mut ColumnPool,
    held: &mut Option<Held>,
    pairs: &Pairs,
    looks: u64,
    moved: Option<u128>,
) -> Result<(Section, Root), AllocError>
    requires few { length (customer_nodes inst.now) ≤ most_customers }
    requires pairs { pairs.now.customers ≡ length (customer_nodes inst.now) }
    requires pool { IsPool inst.now pool.old }
    requires held { MayHold inst.now held.old }
    ensures pool { IsPool inst.now pool.new }
    ensures held { MayHold inst.now held.new }
    ensures kept { IsAtMost (cost_at held.new) (cost_at held.old) }
    ensures bound { IfOk result
        (λ found. IsNodeBound inst.now pairs.now (answer_of found.0 found.1)) }
    ensures taken { IfOk result
        (λ found. TakesShares inst.now (shares_in found.1) (cost_at held.new)) }
    ensures decided { IsDecided pairs.now →
        IfOk result (λ found. ReachesCost (cost_at held.new) found.0) }
{
    let (section, root) = bound_shares(alloc, inst, pool, held, pairs)?;
    offer_pool(alloc, inst, held, pool, &section, looks)?;
    offer_moved(alloc, inst, held, moved)?;
    Ok((section, root))
}

/// The section of the node with these forbidden pairs, and what shows its bound. The plans of its
/// shares are offered as the plan that is held.
fn bound_shares(
    alloc: Global,
    inst: &Instance,
    pool: &mut ColumnPool,
    held: &mut Option<Held>,
    pairs: &Pairs,
) -> Result<(Section, Root), AllocError>
    requires few { length (customer_nodes inst.now) ≤ most_customers }
    requires pairs { pairs.now.customers ≡ length (customer_nodes inst.now) }
    requires pool { IsPool inst.now pool.old }
    requires held { MayHold inst.now held.old }
    ensures pool { IsPool inst.now pool.new }
    ensures held { MayHold inst.now held.new }
    ensures kept { IsAtMost (cost_at held.new) (cost_at held.old) }
    ensures bound { IfOk result
        (λ found. IsNodeBound inst.now pairs.now (answer_of found.0 found.1)) }
    ensures taken { IfOk result
        (λ found. TakesShares inst.now (shares_in found.1) (cost_at held.new)) }
    ensures decided { IsDecided pairs.now →
        IfOk result (λ found. ReachesCost (cost_at held.new) found.0) }
{
    let (section, root) = parts_of(bound_node(alloc, inst, pairs, pool)?);
    let (_, shares) = shares_in(&root);
    offer_shares(alloc, inst, held, shares)?;
    Ok((section, root))
}

/// Offers a plan of the pool's routes as the plan that is held, if a cheaper one is found before so
/// many routes were looked at.
fn offer_pool(
    alloc: Global,
    inst: &Instance,
    held: &mut Option<Held>,
    pool: &ColumnPool,
    section: &Section,
    looks: u64,
) -> Result<(), AllocError>
    requires few { length (customer_nodes inst.now) ≤ most_customers }
    requires held { MayHold inst.now held.old }
    ensures held { MayHold inst.now held.new }
    ensures kept { IsAtMost (cost_at held.new) (cost_at held.old) }
{
    if let Some(plan) = plan_of_pool(alloc, inst, pool, section, cost_of(held), looks)? {
        offer(inst, held, plan);
    }
    Ok(())
}

/// Offers the plan that is held, made cheaper by moves, unless it has the cost `moved` of a plan
/// that was made so already.
fn offer_moved(
    alloc: Global,
    inst: &Instance,
    held: &mut Option<Held>,
    moved: Option<u128>,
) -> Result<(), AllocError>
    requires few { length (customer_nodes inst.now) ≤ most_customers }
    requires held { MayHold inst.now held.old }
    ensures held { MayHold inst.now held.new }
    ensures kept { IsAtMost (cost_at held.new) (cost_at held.old) }
{
    if cost_of(held) == moved {
        return Ok(());
    }
    if let Some(plan) = moved_plan(alloc, inst, held)? {
        offer(inst, held, plan);
    }
    Ok(())
}

/// Offers the plans of the shares as the plan that is held; where they are no fleet plan, a plan of
/// routes that are taken greedily: of those with shares, and then of the plan that is held.
fn offer_shares(
    alloc: Global,
    inst: &Instance,
    held: &mut Option<Held>,
    shares: &[Share],
) -> Result<(), AllocError>
    requires few { length (customer_nodes inst.now) ≤ most_customers }
    requires held { MayHold inst.now held.old }
    ensures held { MayHold inst.now held.new }
    ensures kept { IsAtMost (cost_at held.new) (cost_at held.old) }
    ensures taken { OnOk result (TakesShares inst.now shares.now (cost_at held.new)) }
    ensures greedy { OnOk result ((IsFleetPlan inst.now 1 (plans_of shares.now) → ⊥) →
        TakesGreedy inst.now shares.now (routes_at held.old) (cost_at held.new)) }
{
    match plan_of_shares(alloc, inst, shares)? {
        Some(plan) => offer(inst, held, plan),
        None => {
            let routes = greedy_routes(alloc, shares, routes_at(held))?;
            if let Some(plan) = plan_of_routes(inst, routes) {
                offer(inst, held, plan);
            }
        }
    }
    Ok(())
}

/// Closes a taken node whose bound reaches the cost of the plan that is held, and else splits it;
/// whether it was split.
pub(crate) fn settle(
    alloc: Global,
    inst: &Instance,
    pool: &ColumnPool,
    tree: &mut Tree,
    key: usize,
    name: usize,
    bound: Option<u128>,
    cost: Option<u128>,
    root: &Root,
) -> Result<bool, AllocError>
    requires few { length (customer_nodes inst.now) ≤ most_customers }
    requires customers { tree.old.customers ≡ length (customer_nodes inst.now) }
    requires pool { IsPool inst.now pool.now }
    requires taken { HasNode tree.old.nodes key IsTaken }
    requires decided { CannotSplit tree.old key → IsAtMost cost bound }
    ensures settled { OnOk result (IsSettled tree.old key name bound cost tree.new) }
    ensures work { OnOk result (work_left tree.new.nodes < work_left tree.old.nodes) }
{
    if let Some(bound) = below(bound, cost) {
        let (over, shares) = shares_in(root);
        let gap = Gap { bound, cost };
        if let Some((i, j)) = choose_pair(alloc, inst, tree, key, pool, gap, shares, over)? {
            tree.split(key, i, j, name, bound)?;
            return Ok(true);
        }
    }
    tree.close(key, name);
    Ok(false)
}

/// The bound where it is a number below the cost.
fn below(bound: Option<u128>, cost: Option<u128>) -> Option<u128>
    ensures below { IfSome result (λ b. (bound ≡ Some b) × (IsAtMost cost (Some b) → ⊥)) }
    ensures none { IsNone result → IsAtMost cost bound }
{
    match (bound, cost) {
        (Some(own), Some(cost)) if own >= cost => None,
        _ => bound,
    }
}

/// The cost of the plan that is held.
pub(crate) fn cost_of(held: &Option<Held>) -> Option<u128>
    ensures { result ≡ cost_at held.now }
{
    match held {
        Some(held) => Some(held.cost),
        None => None,
    }
}

/// The section of an answer, and the rest of it as a root.
fn parts_of(answer: NodeBound) -> (Section, Root)
    ensures { answer ≡ answer_of result.0 result.1 }
{
    match answer {
        NodeBound::Exact {
            section,
            over,
            shares,
        } => (section, Root::Exact { over, shares }),
        NodeBound::Empty { section } => (section, Root::None),
        NodeBound::Wide {
            columns,
            basis,
            section,
        } => (section, Root::Wide { columns, basis }),
    }
}

/// The weight and the shares of an exact root, and no shares of another.
fn shares_in(root: &Root) -> (u64, &[Share])
    ensures { result.1.now ≡ shares_in root.now }
{
    match root {
        Root::Exact { over, shares } => (*over, shares.as_slice()),
        Root::None | Root::Wide { .. } => (1, &[]),
    }
}
