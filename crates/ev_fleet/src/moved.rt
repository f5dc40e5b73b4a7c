//! A fleet plan that is made cheaper by moves of single customers. Nothing rests on how.

ghost use Rattle.std.specs.Prelude.{◌≤◌, IfOk, IfSome, length};
ghost use Rattle.instance_reader.specs.Instance.{customer_nodes, most_customers};
ghost use Rattle.ev_fleet.specs.Held.{MayHold};
ghost use Rattle.ev_fleet.specs.Plans.{IsHeld};

use crate::held::Held;
use crate::shares::plan_of_routes;
use instance_reader::Instance;
use route_improve::improve_within;
use route_plan::FleetPlan;
use std::alloc::{AllocError, Global};

/// How much work is done for a plan at most: some seconds.
const MOST_WORK: u64 = 5_000_000;

/// The plan that is held, made cheaper by moves of customers as long as some help, and not for
/// long; none where none is held. The only `Err` is want of memory.
pub(crate) fn moved_plan(
    alloc: Global,
    inst: &Instance,
    held: &Option<Held>,
) -> Result<Option<FleetPlan>, AllocError>
    requires few { length (customer_nodes inst.now) ≤ most_customers }
    requires held { MayHold inst.now held.now }
    ensures { IfOk result (λ found. IfSome found (IsHeld inst.now)) }
{
    let Some(held) = held else {
        return Ok(None);
    };
    let moved = improve_within(alloc, inst, &held.plan, MOST_WORK)?;
    Ok(plan_of_routes(inst, moved.routes.into_vec()))
}
