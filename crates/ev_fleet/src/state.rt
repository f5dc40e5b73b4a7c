//! The state of a search, its beginning, and its steps.

ghost use Rattle.std.specs.Prelude.{◌≡◌, ◌<◌, ◌≤◌, IfOk, IfSome, length, OnOk};
ghost use Rattle.branching.specs.Nodes.{NoneIsOpen};
ghost use Rattle.branching.specs.Work.{work_left};
ghost use Rattle.instance_reader.specs.Instance.{customer_nodes, most_customers};
ghost use Rattle.route_pool.specs.Pool.{IsPool};
ghost use Rattle.ev_fleet.specs.Bounds.{IsAtMost};
ghost use Rattle.ev_fleet.specs.Held.{MayHold, cost_at};
ghost use Rattle.ev_fleet.specs.Plans.{IsHeld, cost_held};
ghost use Rattle.ev_fleet.specs.Searching.{HasOneMore, IsAdvanced, IsBegun, IsFirst, IsOwnCost, IsPromising, IsSearching};

use crate::held::{Held, offer};
use crate::own::own_plan;
use crate::section_bound::{bound_of, greater_of};
use crate::taking::{bound_pairs, cost_of, settle, take_next};
use bound_certificate::{Root, Section};
use branching::Tree;
use column_pool::ColumnPool;
use instance_reader::Instance;
use route_plan::FleetPlan;
use std::alloc::{AllocError, Global};

/// How many routes may be looked at for a plan at the root.
const ROOT_LOOKS: u64 = 20_000_000;

/// How many at every twentieth node.
const NODE_LOOKS: u64 = 4_000_000;

/// A search between two nodes.
#[derive(Drop)]
pub(crate) struct FleetSearch {
    pub(crate) tree: Tree,
    /// The sections of the nodes whose bound was found, in this order.
    pub(crate) sections: Vec<Section>,
    /// Routes that were found.
    pub(crate) pool: ColumnPool,
    /// The cheapest plan that was found.
    pub(crate) held: Option<Held>,
    /// How many nodes are open. It is told to who watches, and nothing rests on it.
    pub(crate) open_nodes: u64,
}

/// A search of which the bound of the root was found, and what shows it.
pub(crate) fn begin(alloc: Global, inst: &Instance) -> Result<(FleetSearch, Root), AllocError>
    requires few { length (customer_nodes inst.now) ≤ most_customers }
    ensures { IfOk result (λ begun. IsBegun inst.now begun.0 begun.1) }
{
    let mut search = first_search(alloc, inst)?;
    let root = advance(alloc, inst, &mut search)?;
    Ok((search, root))
}

/// A search of which no bound was found yet. It holds the plan of own routes, if there is one.
fn first_search(alloc: Global, inst: &Instance) -> Result<FleetSearch, AllocError>
    requires few { length (customer_nodes inst.now) ≤ most_customers }
    ensures { IfOk result (IsFirst inst.now) }
{
    let mut pool = ColumnPool::new(alloc);
    let held = hold_own(alloc, inst, &mut pool)?;
    Ok(FleetSearch {
        tree: Tree::new(alloc, inst.customers().len())?,
        sections: Vec::new(alloc),
        pool,
        held,
        open_nodes: 1,
    })
}

/// The plan of a fastest route for each customer alone, if each has one.
fn hold_own(
    alloc: Global,
    inst: &Instance,
    pool: &mut ColumnPool,
) -> Result<Option<Held>, AllocError>
    requires few { length (customer_nodes inst.now) ≤ most_customers }
    requires pool { IsPool inst.now pool.old }
    ensures pool { IsPool inst.now pool.new }
    ensures held { IfOk result (MayHold inst.now) }
    ensures own { IfOk result (λ held. IsOwnCost inst.now (cost_at held)) }
{
    let plan = own_plan(alloc, inst, pool)?;
    Ok(held_of(inst, plan))
}

/// A plan, if there is one, with its cost.
fn held_of(inst: &Instance, plan: Option<FleetPlan>) -> Option<Held>
    requires few { length (customer_nodes inst.now) ≤ most_customers }
    requires plan { IfSome plan (IsHeld inst.now) }
    ensures held { MayHold inst.now result }
    ensures cost { IsAtMost (cost_at result) (cost_held inst.now plan) }
{
    let Some(plan) = plan else {
        return None;
    };
    let mut held = None;
    offer(inst, &mut held, plan);
    held
}

/// Takes the open node of least bound, finds its section, and closes or splits it. Some open node
/// has a bound below the cost of the plan that is held, or none is held.
pub(crate) fn step(
    alloc: Global,
    inst: &Instance,
    search: &mut FleetSearch,
) -> Result<(), AllocError>
    requires few { length (customer_nodes inst.now) ≤ most_customers }
    requires searching { IsSearching inst.now search.old }
    requires promising { IsPromising search.old.tree (cost_at search.old.held) }
    ensures searching { OnOk result (IsSearching inst.now search.new) }
    ensures kept { OnOk result (IsAtMost (cost_at search.new.held) (cost_at search.old.held)) }
    ensures one { OnOk result (HasOneMore search.old.sections.items search.new.sections.items) }
    ensures work { OnOk result
        (work_left search.new.tree.nodes < work_left search.old.tree.nodes) }
{
    let _ = advance(alloc, inst, search)?;
    Ok(())
}

/// Takes the open node of least bound, finds its section, and closes or splits it. The answer is
/// what shows the bound of this section.
fn advance(alloc: Global, inst: &Instance, search: &mut FleetSearch) -> Result<Root, AllocError>
    requires few { length (customer_nodes inst.now) ≤ most_customers }
    requires customers { search.old.tree.customers ≡ length (customer_nodes inst.now) }
    requires open { NoneIsOpen search.old.tree.nodes → ⊥ }
    requires held { MayHold inst.now search.old.held }
    requires pool { IsPool inst.now search.old.pool }
    ensures advanced { IfOk result (IsAdvanced inst.now search.old search.new) }
    ensures work { OnOk result
        (work_left search.new.tree.nodes < work_left search.old.tree.nodes) }
{
    let moved = moved_cost(search);
    let taken = take_next(&mut search.tree);
    let (section, root) = bound_pairs(
        alloc,
        inst,
        &mut search.pool,
        &mut search.held,
        &taken.pairs,
        looks_at(search.sections.len()),
        moved,
    )?;
    let own = bound_of(&section);
    let number = search.sections.len();
    let (name, bound) = greater_of(number, own, taken.section, taken.bound);
    search.sections.push(section)?;
    let cost = cost_of(&search.held);
    let is_split = settle(
        alloc,
        inst,
        &search.pool,
        &mut search.tree,
        taken.key,
        name,
        bound,
        cost,
        &root,
    )?;
    search.open_nodes = open_behind(search.open_nodes, is_split);
    Ok(root)
}

/// The cost of the plan that is held where it was made cheaper by moves already: behind the first
/// node.
fn moved_cost(search: &FleetSearch) -> Option<u128> {
    if search.sections.is_empty() {
        None
    } else {
        cost_of(&search.held)
    }
}

/// How many nodes are open once one of them was split or closed.
fn open_behind(before: u64, is_split: bool) -> u64 {
    if is_split {
        before.saturating_add(1)
    } else {
        before.saturating_sub(1)
    }
}

/// How many routes may be looked at for a plan of the pool's routes, behind so many nodes.
fn looks_at(nodes: usize) -> u64 {
    if nodes == 0 {
        ROOT_LOOKS
    } else if nodes % 20 == 0 {
        NODE_LOOKS
    } else {
        0
    }
}
