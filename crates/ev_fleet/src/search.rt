//! The search.

ghost use Rattle.std.specs.Prelude.{◌≡◌, ◌≤◌, false, IfOk, IfSome, IsTrue, length};
ghost use Rattle.instance_reader.specs.Instance.{customer_nodes, most_customers};
ghost use Rattle.ev_fleet.specs.Held.{cost_at};
ghost use Rattle.ev_fleet.specs.Outcome.{IsOutcome};
ghost use Rattle.ev_fleet.specs.Searching.{IsDone, IsFurtherWithin, IsPromising, IsUsedUp, MayEnd};

use crate::answer::outcome_of;
use crate::outcome::Outcome;
use crate::state::{FleetSearch, begin, step};
use crate::taking::cost_of;
use crate::watcher::{Nobody, Progress, Watcher};
use instance_reader::Instance;
use std::alloc::{AllocError, Global};

/// The cheapest plan of a fleet, with a certificate that none costs less; with a budget, which is
/// the greatest number of nodes whose bound is found, the cheapest plan that was found by then, and
/// a certificate of what none costs less than.
///
/// The certificate's sections are those of the nodes, in the order in which their bounds were
/// found; its text, where it isn't too long, is read as it. `stopped` is true exactly where the
/// budget is used up and the cost is above the certificate's bound, or no plan is held though the
/// bound is a number. The only `Err` is want of memory.
pub fn plan_fleet(
    alloc: Global,
    inst: &Instance,
    budget: Option<u64>,
) -> Result<Outcome, AllocError>
    requires few { length (customer_nodes inst.now) ≤ most_customers }
    requires budget { IfSome budget (λ most. 1 ≤ most) }
    ensures { IfOk result (IsOutcome inst.now budget) }
{
    plan_fleet_watched(alloc, inst, budget, &mut Nobody {})
}

/// The same as `plan_fleet`, where a watcher is told behind each node how far the search is.
pub fn plan_fleet_watched<W: Watcher>(
    alloc: Global,
    inst: &Instance,
    budget: Option<u64>,
    watcher: &mut W,
) -> Result<Outcome, AllocError>
    requires few { length (customer_nodes inst.now) ≤ most_customers }
    requires budget { IfSome budget (λ most. 1 ≤ most) }
    ensures { IfOk result (IsOutcome inst.now budget) }
{
    let (mut search, root) = begin(alloc, inst)?;
    watcher.watch(progress_of(&search));
    while goes_on(&search, budget) {
        step(alloc, inst, &mut search)?;
        watcher.watch(progress_of(&search));
    }
    outcome_of(alloc, inst, search, root)
}

/// How far the search is.
fn progress_of(search: &FleetSearch) -> Progress
    ensures nodes { result.nodes ≡ length search.now.sections.items }
    ensures cost { result.cost ≡ cost_at search.now.held }
{
    Progress {
        nodes: search.sections.len() as u64,
        open_nodes: search.open_nodes,
        bound: search.tree.least_bound(),
        cost: cost_of(&search.held),
    }
}

/// Whether an open node may lead to a cheaper plan, and another node is within the budget.
fn goes_on(search: &FleetSearch, budget: Option<u64>) -> bool
    ensures within { IsTrue result → IsFurtherWithin budget (length search.now.sections.items) }
    ensures promising { IsTrue result →
        IsPromising search.now.tree (cost_at search.now.held) }
    ensures ended { result ≡ false → MayEnd budget search.now }
{
    is_within(search.sections.len() as u64, budget) && is_promising(search)
}

/// Whether the bound of some open node is below the cost of the plan that is held.
fn is_promising(search: &FleetSearch) -> bool
    ensures promising { IsTrue result →
        IsPromising search.now.tree (cost_at search.now.held) }
    ensures done { result ≡ false →
        IsDone search.now.tree.nodes (cost_at search.now.held) }
{
    match (search.tree.least_bound(), &search.held) {
        (None, _) => false,
        (Some(_), None) => true,
        (Some(least), Some(held)) => least < held.cost,
    }
}

/// Whether one node more is within the budget.
fn is_within(nodes: u64, budget: Option<u64>) -> bool
    ensures within { IsTrue result → IsFurtherWithin budget nodes }
    ensures used { result ≡ false → IsUsedUp budget nodes }
{
    match budget {
        Some(most) => nodes < most,
        None => true,
    }
}
