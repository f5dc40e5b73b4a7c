//! Fleet plans that are made cheaper by ruin and recreate.

ghost use Rattle.std.specs.Prelude.{◌≡◌, ◌≤◌, IfOk, IfSome, option_map};
ghost use Rattle.ev_model.specs.Fleet.{IsFleetPlan, cost_of};
ghost use Rattle.plan_check.specs.FleetRules.{stops_of};
ghost use Rattle.ruin_recreate.specs.Recreated.{IsNoDearer, IsRecreated};

use crate::effort::{Effort, RecreateProgress, RecreateWatcher, Watched};
use crate::plans::{orders_of, plan_of};
use crate::search::RuinSearch;
use crate::seen::Seen;
use instance_reader::Instance;
use plan_check::{LargeFault, check_large};
use route_improve::{Improved, MoveClock, Nobody, improve_timed, improve_timed_within};
use route_plan::FleetPlan;
use std::alloc::{AllocError, Global};

/// So much work the moves of single customers do at the end at the most.
const MOVES_WORK: u64 = 40_000_000;

/// What a search found.
#[derive(Drop)]
pub struct Recreated {
    /// A plan, or why there is none.
    pub outcome: Improved,
    /// Routes that were seen on the way, the cheapest of each set of customers. Nothing is promised
    /// of them.
    pub seen: Vec<SeenRoute>,
}

/// A route that was seen: customers in an order.
#[derive(Drop)]
pub struct SeenRoute {
    /// The nodes of different customers, in order.
    pub nodes: Vec<usize>,
    /// What a route takes that serves them so, in scaled time.
    pub time: u64,
}

/// Makes a fleet plan cheaper by ruin and recreate, with so much effort, or begins with none.
///
/// The plan is a fleet plan that costs no more than `from`. Each of its routes is fastest for the
/// order of its customers, and they stand in rising order of their first customers. It may be
/// written as text. [`Improved::Alone`] comes only where there is no `from` and the search found no
/// plan; that customer has no feasible route of his own then, and none with a lesser node hasn't.
/// The only `Err` is want of memory. What is found is a function of the arguments, and of what the
/// watcher ends: the numbers by chance come from `seed`.
pub fn recreate<W: RecreateWatcher>(
    alloc: Global,
    inst: &Instance,
    from: Option<&FleetPlan>,
    effort: Effort,
    seed: u64,
    watcher: &mut W,
) -> Result<Recreated, AllocError>
    requires { IfSome from (λ plan. IsFleetPlan inst.now 1 (stops_of plan.now.routes)) }
    ensures { IfOk result (λ found.
        IsRecreated inst.now (option_map (λ plan. plan.now.routes) from.entry) found.outcome) }
{
    let orders = orders_of(alloc, inst, from)?;
    let mut search = RuinSearch::new(alloc, inst, seed)?;
    let best = search.run(alloc, &orders, effort, watcher)?;
    let found = plan_of(alloc, inst, &search.nodes_of(alloc, &best.orders)?)?;
    let mut clock = Watched::new(watcher, RecreateProgress { cost: best.cost });
    Ok(Recreated {
        outcome: no_dearer(alloc, inst, from, found, &mut clock)?,
        seen: seen_routes(alloc, &search, &best.seen)?,
    })
}

/// The plan that was found, where it is one and costs no more, else the one before, or else routes
/// for the customers alone; made cheaper by moves of single customers, unless a clock ends these.
fn no_dearer<C: MoveClock>(
    alloc: Global,
    inst: &Instance,
    from: Option<&FleetPlan>,
    found: Option<FleetPlan>,
    clock: &mut C,
) -> Result<Improved, AllocError>
    requires { IfSome from (λ plan. IsFleetPlan inst.now 1 (stops_of plan.now.routes)) }
    ensures { IfOk result
        (IsRecreated inst.now (option_map (λ plan. plan.now.routes) from.entry)) }
{
    let Some(from) = from else {
        return begun(alloc, inst, found, clock);
    };
    let plan = cheaper_plan(alloc, inst, from, found, clock)?;
    Ok(Improved::Plan(plan))
}

/// The plan that was found, where it is one, else routes for the customers alone.
#[tactic(auto, using(crate::proofs::Answered::begun_by_moves))]
fn begun<C: MoveClock>(
    alloc: Global,
    inst: &Instance,
    found: Option<FleetPlan>,
    clock: &mut C,
) -> Result<Improved, AllocError>
    ensures { IfOk result (IsRecreated inst.now None) }
{
    if let Some(plan) = found {
        match check_large(alloc, inst, &plan) {
            Ok(_) => {
                let plan = improve_timed_within(alloc, inst, &plan, MOVES_WORK, clock)?;
                return Ok(Improved::Plan(plan));
            }
            Err(LargeFault::Memory) => return Err(AllocError),
            Err(LargeFault::Plan { fault: _ }) => {}
        }
    }
    improve_timed(alloc, inst, None, clock, &mut Nobody {})
}

/// The plan that was found, where it is one and costs no more than the one before, else that one.
fn cheaper_plan<C: MoveClock>(
    alloc: Global,
    inst: &Instance,
    from: &FleetPlan,
    found: Option<FleetPlan>,
    clock: &mut C,
) -> Result<FleetPlan, AllocError>
    requires { IsFleetPlan inst.now 1 (stops_of from.now.routes) }
    ensures { IfOk result (IsNoDearer inst.now from.now.routes) }
{
    let before = match check_large(alloc, inst, from) {
        Ok(before) => before,
        Err(LargeFault::Memory) => return Err(AllocError),
        // A fleet plan breaks no rule; it would stay as it is.
        Err(LargeFault::Plan { fault: _ }) => {
            return improve_timed_within(alloc, inst, from, MOVES_WORK, clock);
        }
    };
    if let Some(plan) = found {
        match check_large(alloc, inst, &plan) {
            Ok(cost) if cost <= before => {
                return improve_timed_within(alloc, inst, &plan, MOVES_WORK, clock);
            }
            Err(LargeFault::Memory) => return Err(AllocError),
            _ => {}
        }
    }
    improve_timed_within(alloc, inst, from, MOVES_WORK, clock)
}

/// The routes that were seen, by nodes.
fn seen_routes(
    alloc: Global,
    search: &RuinSearch,
    seen: &Seen,
) -> Result<Vec<SeenRoute>, AllocError> {
    let mut routes = Vec::with_capacity(alloc, seen.orders.len())?;
    for own in &seen.orders {
        routes.push(SeenRoute {
            nodes: search.nodes(alloc, &own.order)?,
            time: search.scaled(own.time),
        })?;
    }
    Ok(routes)
}
