//! The search for a plan and for a close bound.

ghost use Rattle.std.specs.Prelude.{◌≡◌, ◌&&◌, IfOk, IfSome, option_map};
ghost use Rattle.ev_model.specs.Fleet.{IsFleetPlan};
ghost use Rattle.gap_search.specs.Gap.{IsGapOutcome};
ghost use Rattle.plan_check.specs.FleetRules.{stops_of};

use crate::bound::{BoundFound, search_bound};
use crate::candidate::proof_of_candidates;
use crate::clock::GapClock;
use crate::first::{FirstPlan, first_plan};
use crate::grown::with_tree;
use crate::offers::tell;
use crate::options::GapOptions;
use crate::outcome::GapOutcome;
use crate::plans::{FoundRoutes, cheaper};
use crate::settling::settled;
use crate::watcher::GapWatcher;
use instance_reader::Instance;
use route_plan::FleetPlan;
use std::alloc::{AllocError, Global};

/// A fleet plan, and a proof of what no fleet plan costs less than.
///
/// The plan costs no more than `start`, and without `start` no more than routes for the customers
/// alone, where each has one; no relocation and no exchange of a customer makes it cheaper, and it
/// may be written as text. None is held only where there is no `start` and some customer has no
/// feasible route of his own; the first is named. The proof is accepted, its text is read as it
/// where it isn't too long, and no plan that is held costs less than its bound. How close the two
/// are isn't promised, nor of which kind the proof is.
///
/// The clock is asked whether the search stops. Where it is up, what makes a proof of the prices at
/// hand goes on. Where the options let it, it also ends the last moves: that some may make the plan
/// cheaper is so only where it said then that its time is up, which it tells behind the call
/// ([`route_improve::MoveClock::has_ended`]). The only `Err` is want of memory.
pub fn close_gap<C: GapClock, W: GapWatcher>(
    alloc: Global,
    inst: &Instance,
    start: Option<&FleetPlan>,
    options: GapOptions,
    clock: &mut C,
    watcher: &mut W,
) -> Result<GapOutcome, AllocError>
    requires { IfSome start (λ plan. IsFleetPlan inst.now 1 (stops_of plan.now.routes)) }
    ensures { IfOk result
        (IsGapOutcome inst.now (option_map (λ plan. plan.now.routes) start.entry)
        (options.ends_moves && C.has_ended clock.new)) }
{
    let first = first_plan(alloc, inst, start, options.recreation, clock, watcher)?;
    tell(inst, &first.plan, None, watcher);
    let BoundFound {
        candidates,
        prices,
        orders,
        dives,
        root,
    } = search_bound(alloc, inst, &first, clock, watcher)?;
    let proof = proof_of_candidates(alloc, inst, &candidates)?;
    let found = FoundRoutes {
        orders,
        dives,
        prices,
        bound: proof.bound(),
    };
    let FirstPlan { plan, seen: _seen } = first;
    let plan = cheaper(alloc, inst, plan, found, clock, watcher)?;
    let held = GapOutcome { plan, proof };
    let grown = with_tree(alloc, inst, held, root, options.nodes, clock, watcher)?;
    let GapOutcome { plan, proof } = grown;
    let plan = settled(alloc, inst, plan, options.ends_moves, clock, watcher)?;
    Ok(GapOutcome { plan, proof })
}
