//! A route for each customer alone.

ghost use Rattle.std.specs.Prelude.{◌≡◌, IfErr, IfOk};
ghost use Rattle.instance_reader.specs.Instance.{customer_nodes};
ghost use Rattle.plan_check.specs.FleetRules.{IsCustomer};
ghost use Rattle.route_improve.specs.Improved.{IsFirstAlone, IsOwnFault};
ghost use Rattle.route_improve.specs.Own.{AreOwn, IsOwn, IsOwnOrAlone};

use crate::route::Route;
use instance_reader::Instance;
use order_pricing::fastest_plan;
use std::alloc::{AllocError, AllocFailed, Global};

/// Why there aren't routes for each customer alone.
#[derive(Clone, Copy, Drop)]
pub(crate) enum OwnFault {
    /// The customer at this node has no feasible route of his own; the least such node.
    Alone(usize),
    /// Memory was refused.
    Memory,
}

/// A route for each customer alone, in order of their nodes.
pub(crate) fn own_routes(alloc: Global, inst: &Instance) -> Result<Vec<Route>, OwnFault>
    ensures own { IfOk result (λ routes.
        AreOwn inst.now (customer_nodes inst.now) routes.items) }
    ensures fault { IfErr result (IsOwnFault inst.now) }
{
    let customers = inst.customers();
    let mut routes = Vec::new(alloc);
    for node in customers {
        match own_route(alloc, inst, *node) {
            Ok(Some(route)) => match routes.push(route) {
                Ok(()) => {}
                Err(AllocFailed { .. }) => return Err(OwnFault::Memory),
            },
            Ok(None) => return Err(OwnFault::Alone(*node)),
            Err(AllocError) => return Err(OwnFault::Memory),
        }
    }
    Ok(routes)
}

/// The route for a customer alone; `None` exactly where there is none.
fn own_route(alloc: Global, inst: &Instance, node: usize) -> Result<Option<Route>, AllocError>
    requires { IsCustomer inst.now node }
    ensures { IfOk result (IsOwnOrAlone inst.now node) }
{
    let mut order = Vec::new(alloc);
    order.push(node)?;
    match fastest_plan(alloc, inst, &order)? {
        Some(plan) => Ok(Some(Route {
            order,
            time: plan.full_time(inst),
        })),
        None => Ok(None),
    }
}
