//! Routes of vehicles of some kind, as they are searched for.

ghost use Rattle.std.specs.Prelude.{◌≡◌, ◌<◌, IfOk, map, true};
ghost use Rattle.std.specs.List.{All};
ghost use Rattle.ev_model.specs.Network.{is_customer, node_count};
ghost use Rattle.fleet_model.specs.Places.{customer_number};
ghost use Rattle.route_pool.specs.Pool.{IsColumn};
ghost use Rattle.mixed_fleet.specs.Searched.{searched_of};

use ev_list::Listed;
use instance_reader::Instance;
use mixed_model::MixedRoute;
use route_plan::RoutePlan;
use route_pool::number_of;
use std::alloc::{AllocError, Global};

/// A route of a vehicle of some kind, with the numbers of its customers and its scaled time.
#[derive(Drop)]
pub(crate) struct Searched {
    pub(crate) route: MixedRoute,
    pub(crate) numbers: Listed<usize>,
    pub(crate) time: u64,
}

/// A plan of a vehicle of a kind, with the numbers of the customers at these nodes, and its time.
pub(crate) fn as_searched(
    alloc: Global,
    inst: &Instance,
    kind: usize,
    order: &[usize],
    plan: RoutePlan,
) -> Result<Searched, AllocError>
    requires { IsColumn inst.now order.now plan.stops }
    ensures { IfOk result (λ r. r ≡ searched_of inst.now kind order.now plan) }
{
    let time = plan.full_time(inst);
    let numbers = numbers_at(alloc, inst, order)?;
    Ok(Searched {
        route: MixedRoute { kind, plan },
        numbers: Listed::from_vec(numbers),
        time,
    })
}

/// The numbers of the customers at the nodes.
fn numbers_at(alloc: Global, inst: &Instance, order: &[usize]) -> Result<Vec<usize>, AllocError>
    requires known { All (λ node. node < node_count inst.now) order.now }
    requires customers { All (λ node. is_customer inst.now node ≡ true) order.now }
    ensures { IfOk result (λ numbers.
        numbers.items ≡ map (customer_number inst.now) order.now) }
{
    let mut numbers = Vec::with_capacity(alloc, order.len())?;
    for node in order {
        numbers.push(number_of(inst, *node))?;
    }
    Ok(numbers)
}
