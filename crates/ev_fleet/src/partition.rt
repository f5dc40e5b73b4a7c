//! A fleet plan of the pool's routes that serve each customer once (set partitioning). Nothing
//! rests on how it is found.

ghost use Rattle.std.specs.Prelude.{◌≤◌, IfOk, IfSome, length};
ghost use Rattle.instance_reader.specs.Instance.{customer_nodes, most_customers};
ghost use Rattle.ev_fleet.specs.Plans.{IsHeld};

use crate::candidates::candidates_of;
use crate::shares::plan_of_routes;
use bound_certificate::Section;
use column_pool::ColumnPool;
use instance_reader::Instance;
use route_plan::FleetPlan;
use set_partitioning::{find_partition, room_below};
use std::alloc::{AllocError, Global};

/// A fleet plan of the pool's routes that is cheaper than the cost, if one is found before so many
/// routes were looked at. The prices of the section tell which routes are worth it. The only `Err`
/// is want of memory.
pub(crate) fn plan_of_pool(
    alloc: Global,
    inst: &Instance,
    pool: &ColumnPool,
    section: &Section,
    cost: Option<u128>,
    looks: u64,
) -> Result<Option<FleetPlan>, AllocError>
    requires few { length (customer_nodes inst.now) ≤ most_customers }
    ensures { IfOk result (λ found. IfSome found (IsHeld inst.now)) }
{
    let room = room_below(cost, section.weight, section.prices.as_slice());
    if looks == 0 || room < i128::from(section.weight) {
        return Ok(None);
    }
    let candidates = candidates_of(alloc, inst, pool, section)?;
    let customers = inst.customers().len();
    let Some(places) = find_partition(alloc, &candidates, customers, room, looks)? else {
        return Ok(None);
    };
    let mut routes = Vec::new(alloc);
    for at in &places {
        if let Some((_, plan)) = pool.route_at(*at) {
            routes.push(plan.copy(alloc)?)?;
        }
    }
    Ok(plan_of_routes(inst, routes))
}
