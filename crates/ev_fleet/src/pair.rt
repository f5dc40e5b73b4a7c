//! On which pair a node is split.

ghost use Rattle.std.specs.Prelude.{◌≡◌, ◌⊎◌, ◌<◌, ◌≤◌, ◌+◌, IfOk, IfSome, IsNone, length, Some};
ghost use Rattle.std.specs.List.{All};
ghost use Rattle.instance_reader.specs.Instance.{customer_nodes, most_customers};
ghost use Rattle.branching.specs.Nodes.{HasNode, IsLive};
ghost use Rattle.route_pool.specs.Pool.{IsPool};
ghost use Rattle.ev_fleet.specs.Splitting.{CanSplit, CannotSplit, CannotSplitTo, IsChoice, MayChoose};

use crate::strong::{Gap, strongest};
use bound_certificate::Share;
use branching::Tree;
use column_pool::ColumnPool;
use instance_reader::Instance;
use route_plan::RoutePlan;
use std::alloc::{AllocError, Global};

/// Two places of customers, of which the second follows the first on some route.
#[derive(Clone, Copy, Debug, PartialEq, Eq)]
pub(crate) struct Choice {
    pub(crate) i: usize,
    pub(crate) j: usize,
    /// How far twice the sum of the shares of such routes is from what these are over.
    pub(crate) away: u64,
}

/// The children of how many pairs are looked at.
const CANDIDATES: usize = 10;

/// A pair on which the node can be split. `None` says that there is none.
///
/// Of the few pairs that the shares use partly and that are nearest to one half it is the one whose
/// children's bounds rise most, as far as the routes of the pool tell. Where the shares use
/// none partly, it is the one nearest to one half of those that they use, and else the first.
pub(crate) fn choose_pair(
    alloc: Global,
    inst: &Instance,
    tree: &Tree,
    key: usize,
    pool: &ColumnPool,
    gap: Gap,
    shares: &[Share],
    over: u64,
) -> Result<Option<(usize, usize)>, AllocError>
    requires few { length (customer_nodes inst.now) ≤ most_customers }
    requires customers { tree.now.customers ≡ length (customer_nodes inst.now) }
    requires live { HasNode tree.now.nodes key IsLive }
    requires pool { IsPool inst.now pool.now }
    ensures pair { IfOk result (λ found.
        IfSome found (λ pair. CanSplit tree.now key pair.0 pair.1)) }
    ensures none { IfOk result (λ found. IsNone found → CannotSplit tree.now key) }
{
    let candidates = partly_used(alloc, inst, tree, key, shares, over)?;
    if let Some((first, others)) = candidates.split_first() {
        let choice = strongest(alloc, inst, tree, key, pool, gap, *first, others)?;
        return Ok(Some((choice.i, choice.j)));
    }
    match nearest(inst, tree, key, shares, over, &[]) {
        Some(choice) => Ok(Some((choice.i, choice.j))),
        None => Ok(first_pair(tree, key)),
    }
}

/// The few pairs that the shares use partly and that are nearest to one half, nearest first.
fn partly_used(
    alloc: Global,
    inst: &Instance,
    tree: &Tree,
    key: usize,
    shares: &[Share],
    over: u64,
) -> Result<Vec<Choice>, AllocError>
    requires live { HasNode tree.now.nodes key IsLive }
    ensures { IfOk result (λ chosen. All (IsChoice tree.now key) chosen.items) }
{
    let mut chosen = Vec::new(alloc);
    for _ in 0..CANDIDATES {
        match nearest(inst, tree, key, shares, over, &chosen) {
            Some(choice) if choice.away < over => chosen.push(choice)?,
            _ => return Ok(chosen),
        }
    }
    Ok(chosen)
}

/// Of the pairs of the routes besides the chosen ones that whose shares are nearest to one half.
fn nearest(
    inst: &Instance,
    tree: &Tree,
    key: usize,
    shares: &[Share],
    over: u64,
    chosen: &[Choice],
) -> Option<Choice>
    requires live { HasNode tree.now.nodes key IsLive }
    ensures { MayChoose tree.now key result }
{
    let mut best = None;
    for share in shares {
        best = nearer_on(inst, tree, key, shares, over, chosen, &share.plan, best);
    }
    best
}

/// The nearer of a choice and the pairs of a route besides the chosen ones.
fn nearer_on(
    inst: &Instance,
    tree: &Tree,
    key: usize,
    shares: &[Share],
    over: u64,
    chosen: &[Choice],
    plan: &RoutePlan,
    best: Option<Choice>,
) -> Option<Choice>
    requires live { HasNode tree.now.nodes key IsLive }
    requires best { MayChoose tree.now key best }
    ensures { MayChoose tree.now key result }
{
    let mut best = best;
    let mut before = 0;
    for stop in plan.stops.as_slice() {
        let place = place_of(inst, stop.node);
        if !is_among(chosen, before, place) {
            best = with_pair(inst, tree, key, shares, over, before, place, best);
        }
        if place > 0 {
            before = place;
        }
    }
    best
}

/// Whether the places are a choice of these.
fn is_among(chosen: &[Choice], i: usize, j: usize) -> bool {
    chosen.iter().any(|choice| choice.i == i && choice.j == j)
}

/// The nearer of a choice and two places, where the node may be split on these.
fn with_pair(
    inst: &Instance,
    tree: &Tree,
    key: usize,
    shares: &[Share],
    over: u64,
    i: usize,
    j: usize,
    best: Option<Choice>,
) -> Option<Choice>
    requires live { HasNode tree.now.nodes key IsLive }
    requires best { MayChoose tree.now key best }
    ensures { MayChoose tree.now key result }
{
    if !tree.can_split(key, i, j) {
        return best;
    }
    let used = used_by(inst, shares, i, j);
    let choice = Choice {
        i,
        j,
        away: used.saturating_mul(2).abs_diff(over),
    };
    nearer(best, choice)
}

/// The nearer of two choices.
fn nearer(best: Option<Choice>, choice: Choice) -> Option<Choice>
    ensures { (result ≡ best) ⊎ (result ≡ Some choice) }
{
    match best {
        Some(before) if before.away <= choice.away => best,
        _ => Some(choice),
    }
}

/// The shares of the routes on which the second place follows the first.
fn used_by(inst: &Instance, shares: &[Share], i: usize, j: usize) -> u64 {
    let mut used = 0u64;
    for share in shares {
        if follows(inst, &share.plan, i, j) {
            used = used.saturating_add(share.share);
        }
    }
    used
}

/// Whether the second place follows the first on the route.
fn follows(inst: &Instance, plan: &RoutePlan, i: usize, j: usize) -> bool {
    let mut before = 0;
    for stop in plan.stops.as_slice() {
        let place = place_of(inst, stop.node);
        if before == i && place == j {
            return true;
        }
        if place > 0 {
            before = place;
        }
    }
    false
}

/// The place of a node on a route, 0 for a number that is no node's.
fn place_of(inst: &Instance, node: usize) -> usize {
    if node < inst.nodes() {
        inst.place_of(node)
    } else {
        0
    }
}

/// The first pair on which the node can be split; `None` exactly where there is none.
fn first_pair(tree: &Tree, key: usize) -> Option<(usize, usize)>
    requires live { HasNode tree.now.nodes key IsLive }
    ensures pair { IfSome result (λ pair. CanSplit tree.now key pair.0 pair.1) }
    ensures none { IsNone result → CannotSplit tree.now key }
{
    let customers = tree.pairs(key).customers();
    for i in 1..customers + 1 {
        if let Some(j) = first_after(tree, key, i, customers) {
            return Some((i, j));
        }
    }
    None
}

/// The first place on which the node can be split together with `i`.
fn first_after(tree: &Tree, key: usize, i: usize, customers: usize) -> Option<usize>
    requires live { HasNode tree.now.nodes key IsLive }
    requires customers { customers ≤ 128 }
    ensures pair { IfSome result (λ j. CanSplit tree.now key i j) }
    ensures none { IsNone result → CannotSplitTo tree.now key i (customers + 1) }
{
    for j in 1..customers + 1 {
        if tree.can_split(key, i, j) {
            return Some(j);
        }
    }
    None
}
