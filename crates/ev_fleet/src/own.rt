//! The plan of a route for each customer alone.

ghost use Rattle.std.specs.Prelude.{◌≡◌, ◌<◌, true, IfOk, IfSome, MatchOption};
ghost use Rattle.ev_model.specs.Network.{is_customer, node_count};
ghost use Rattle.instance_reader.specs.Instance.{customer_nodes};
ghost use Rattle.route_pool.specs.Pool.{IsPool};
ghost use Rattle.ev_fleet.specs.OwnRoutes.{AreFastestOwn, HasNoOwn, IsFastestOwn, LacksOwn};
ghost use Rattle.ev_fleet.specs.Plans.{CostsNoMoreThanOwn, IsHeld};

use column_pool::ColumnPool;
use ev_list::Listed;
use frvcp_labels::solve_route;
use instance_reader::Instance;
use route_plan::{FleetPlan, RoutePlan};
use std::alloc::{AllocError, Global};

/// The plan of a fastest route for each customer alone, in order of their nodes; `None` exactly
/// where some customer can't be served alone. Routes that are found are put into the pool. The only
/// `Err` is want of memory.
#[tactic(auto, using(crate::proofs::Owned::own_costs, crate::proofs::Owned::own_lacks))]
pub(crate) fn own_plan(
    alloc: Global,
    inst: &Instance,
    pool: &mut ColumnPool,
) -> Result<Option<FleetPlan>, AllocError>
    requires pool { IsPool inst.now pool.old }
    ensures pool { IsPool inst.now pool.new }
    ensures held { IfOk result (λ plan. IfSome plan (IsHeld inst.now)) }
    ensures own { IfOk result (CostsNoMoreThanOwn inst.now) }
{
    let _nodes = inst.nodes();
    let _customers = inst.customers();
    let Some(routes) = own_routes(alloc, inst, pool)? else {
        return Ok(None);
    };
    Ok(Some(FleetPlan {
        routes: Listed::from_vec(routes),
    }))
}

/// A fastest route for each customer alone; `None` exactly where some customer has none.
#[tactic(auto, using(crate::proofs::Owned::own_step, crate::proofs::Owned::own_column))]
fn own_routes(
    alloc: Global,
    inst: &Instance,
    pool: &mut ColumnPool,
) -> Result<Option<Vec<RoutePlan>>, AllocError>
    requires pool { IsPool inst.now pool.old }
    ensures pool { IsPool inst.now pool.new }
    ensures own { IfOk result (λ answer. MatchOption answer (LacksOwn inst.now)
        (λ routes. AreFastestOwn inst.now (customer_nodes inst.now) routes.items)) }
{
    let customers = inst.customers();
    let mut routes = Vec::new(alloc);
    for node in customers {
        let Some(plan) = own_route(alloc, inst, *node)? else {
            return Ok(None);
        };
        pool.put(alloc, inst, &[*node], plan.copy(alloc)?)?;
        routes.push(plan)?;
    }
    Ok(Some(routes))
}

/// A fastest route for the customer at the node alone; `None` exactly where there is none.
fn own_route(alloc: Global, inst: &Instance, node: usize) -> Result<Option<RoutePlan>, AllocError>
    requires known { node < node_count inst.now }
    requires customer { is_customer inst.now node ≡ true }
    ensures { IfOk result (λ answer. MatchOption answer (HasNoOwn inst.now node)
        (λ plan. IsFastestOwn inst.now node plan.stops)) }
{
    let _nodes = inst.nodes();
    let route = [0, node, 0];
    solve_route(alloc, inst, &route, inst.max_q())
}
