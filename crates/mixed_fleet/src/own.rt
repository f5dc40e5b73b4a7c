//! Routes of one customer alone.

ghost use Rattle.std.specs.Prelude.{◌≡◌, ◌<◌, IfOk, length, true};
ghost use Rattle.std.specs.List.{All};
ghost use Rattle.ev_model.specs.Network.{is_customer, node_count};
ghost use Rattle.instance_reader.specs.Instance.{customer_nodes};
ghost use Rattle.mixed_model.specs.Kinds.{first_of};
ghost use Rattle.mixed_fleet.specs.Fleets.{AreFleetKinds};
ghost use Rattle.mixed_fleet.specs.Own.{AreOwnOf, faster_of, IsLeastBelow, IsOwnBy};
ghost use Rattle.mixed_fleet.specs.Searched.{IsSearched};

use crate::searched::{Searched, as_searched};
use frvcp_labels::solve_route;
use instance_reader::Instance;
use std::alloc::{AllocError, Global};

/// The fastest routes of customers alone, each of the kind that takes least time.
#[derive(Drop)]
pub(crate) struct OwnRoutes {
    /// Those of the customers who can be served alone, in rising order of their nodes.
    pub(crate) routes: Vec<Searched>,
    /// Whether each customer can be served alone, by a vehicle of some kind.
    pub(crate) whole: bool,
}

/// The fastest routes of customers alone, over all kinds. The only `Err` is want of memory.
pub(crate) fn own_routes(alloc: Global, kinds: &[Instance]) -> Result<OwnRoutes, AllocError>
    requires { AreFleetKinds kinds.now }
    ensures routes { IfOk result (λ own. All (IsSearched kinds.now) own.routes.items) }
    ensures own { IfOk result (λ own. AreOwnOf kinds.now
        (customer_nodes (first_of kinds.now)) (customer_nodes (first_of kinds.now)) own) }
{
    let mut own = OwnRoutes {
        routes: Vec::new(alloc),
        whole: true,
    };
    let customers = kinds[0].customers();
    for node in customers {
        match least_own(alloc, kinds, *node)? {
            Some(route) => own.routes.push(route)?,
            None => own.whole = false,
        }
    }
    Ok(own)
}

/// A route of the customer at the node alone than which none of any kind takes less time; `None`
/// exactly where there is none.
fn least_own(alloc: Global, kinds: &[Instance], node: usize) -> Result<Option<Searched>, AllocError>
    requires fleet { AreFleetKinds kinds.now }
    requires known { node < node_count (first_of kinds.now) }
    requires customer { is_customer (first_of kinds.now) node ≡ true }
    ensures { IfOk result (IsLeastBelow kinds.now (length kinds.now) node) }
{
    let mut least = None;
    for kind in 0..kinds.len() {
        least = faster_of(least, own_by(alloc, &kinds[kind], kind, node)?);
    }
    Ok(least)
}

/// A fastest route of the customer at the node alone, by a vehicle of one kind; `None` exactly
/// where there is none.
fn own_by(
    alloc: Global,
    inst: &Instance,
    kind: usize,
    node: usize,
) -> Result<Option<Searched>, AllocError>
    requires known { node < node_count inst.now }
    requires customer { is_customer inst.now node ≡ true }
    ensures { IfOk result (IsOwnBy inst.now kind node) }
{
    let _nodes = inst.nodes();
    let way = [0, node, 0];
    let Some(plan) = solve_route(alloc, inst, &way, inst.max_q())? else {
        return Ok(None);
    };
    Ok(Some(as_searched(alloc, inst, kind, &[node], plan)?))
}

/// The one that takes less time, and of equal ones the first.
fn faster_of(one: Option<Searched>, other: Option<Searched>) -> Option<Searched>
    ensures { result ≡ faster_of one other }
{
    match (one, other) {
        (Some(first), Some(second)) => {
            if second.time < first.time {
                Some(second)
            } else {
                Some(first)
            }
        }
        (Some(first), None) => Some(first),
        (None, second) => second,
    }
}
