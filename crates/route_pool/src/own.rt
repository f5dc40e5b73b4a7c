//! The own routes of customers.

ghost use Rattle.std.specs.Prelude.{◌≡◌, ◌<◌, true};
ghost use Rattle.ev_model.specs.Network.{is_customer, node_count};
ghost use Rattle.route_pool.specs.Pool.{IsGrown, IsPool};

use crate::pool::ColumnPool;
use frvcp_labels::solve_route;
use instance_reader::Instance;
use std::alloc::{AllocError, Global};

/// Puts a fastest route of each customer alone into the pool, where there is one.
pub fn put_own_routes(
    alloc: Global,
    inst: &Instance,
    pool: &mut ColumnPool,
) -> Result<(), AllocError>
    requires { IsPool inst.now pool.old }
    ensures pool { IsPool inst.now pool.new }
    ensures grown { IsGrown inst.now pool.old pool.new }
{
    for node in inst.customers() {
        put_own_route(alloc, inst, pool, *node)?;
    }
    Ok(())
}

/// Puts a fastest route of the customer at the node alone into the pool, where there is one.
pub fn put_own_route(
    alloc: Global,
    inst: &Instance,
    pool: &mut ColumnPool,
    node: usize,
) -> Result<(), AllocError>
    requires known { node < node_count inst.now }
    requires customer { is_customer inst.now node ≡ true }
    requires pool { IsPool inst.now pool.old }
    ensures pool { IsPool inst.now pool.new }
    ensures grown { IsGrown inst.now pool.old pool.new }
{
    if pool.has(&[node]) {
        return Ok(());
    }
    let count = inst.nodes();
    prove!(node < count);
    let route = [0, node, 0];
    let Some(plan) = solve_route(alloc, inst, &route, inst.max_q())? else {
        return Ok(());
    };
    pool.put(alloc, inst, &[node], plan)
}
