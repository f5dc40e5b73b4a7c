//! What is held in the end, which no move of single customers makes cheaper.

ghost use Rattle.std.specs.Prelude.{◌&&◌, IfOk, IfSome};
ghost use Rattle.ev_model.specs.Fleet.{IsFleetPlan};
ghost use Rattle.gap_search.specs.After.{IsSettledAfter};
ghost use Rattle.gap_search.specs.Gap.{plan_held};
ghost use Rattle.plan_check.specs.FleetRules.{stops_of};

use crate::watcher::GapWatcher;
use instance_reader::Instance;
use route_improve::{Improved, MoveClock, improve_timed, improve_watched};
use std::alloc::{AllocError, Global};

/// What is held; a plan is made cheaper by moves until none helps, or until the clock says so, where
/// it may end them.
pub(crate) fn settled<C: MoveClock, W: GapWatcher>(
    alloc: Global,
    inst: &Instance,
    held: Improved,
    may_end: bool,
    clock: &mut C,
    watcher: &mut W,
) -> Result<Improved, AllocError>
    requires { IfSome (plan_held held) (λ plan. IsFleetPlan inst.now 1 (stops_of plan.routes)) }
    ensures { IfOk result (IsSettledAfter inst.now (may_end && C.has_ended clock.new) held) }
{
    match held {
        Improved::Plan(plan) if may_end => {
            improve_timed(alloc, inst, Some(&plan), clock, watcher)
        }
        Improved::Plan(plan) => improve_watched(alloc, inst, Some(&plan), watcher),
        Improved::Alone(node) => Ok(Improved::Alone(node)),
    }
}
