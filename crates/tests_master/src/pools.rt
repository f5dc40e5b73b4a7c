//! A worked instance: which routes of a pool keep pairs, which of them earn, and where they stand.

ghost use Rattle.std.specs.Prelude.{IfSome};
ghost use Rattle.route_pool.specs.Pool.{IsPool};

use crate::instances::{instance, pairs_without};
use instance_reader::Instance;
use route_pool::{ColumnPool, earning, kept_places, put_own_routes};
use std::alloc::Global;
use worked_instances::THREE_CUSTOMERS;

/// The pool of the customers' own routes.
fn own_routes(alloc: Global, inst: &Instance) -> Option<ColumnPool>
    ensures { IfSome result (IsPool inst.now) }
{
    let mut pool = ColumnPool::new(alloc);
    put_own_routes(alloc, inst, &mut pool).ok()?;
    Some(pool)
}

/// Of three customers, each of whom is 8 by a route of his own: how many routes keep the pairs
/// where customer 2 isn't first, how many earn at these prices, how many stops a copy of the first
/// has, and where the route of customer 3 stands.
fn told(alloc: Global) -> Option<(usize, usize, usize, Option<usize>)> {
    let inst = instance(alloc, THREE_CUSTOMERS, 100)?;
    let pool = own_routes(alloc, &inst)?;
    let pairs = pairs_without(inst.customers().len(), &[(0, 2)])?;
    let kept = kept_places(alloc, &inst, &pairs, &pool).ok()?;
    let found = earning(alloc, &inst, &pool, &[0, 1, 2, 7], 2, &[30, 16, 20]).ok()?;
    let (_, plan) = pool.route_at(0)?;
    let copy = plan.copy(alloc).ok()?;
    Some((kept.len(), found.len(), copy.stops.len(), pool.place(&[3])))
}

#[test]
fn routes_of_a_pool_are_told(rt: HostRuntime) {
    assert_eq!(rt; told(rt.alloc()), Some((2, 2, 3, Some(2))));
}
