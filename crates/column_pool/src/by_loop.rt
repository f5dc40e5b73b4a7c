//! The bound of a node by the price loop.

ghost use Rattle.std.specs.Prelude.{◌≡◌, ◌≤◌, ◌^◌, IfOk, length};
ghost use Rattle.instance_reader.specs.Instance.{customer_nodes, most_customers};
ghost use Rattle.master_table.specs.RowView.{limits_of};
ghost use Rattle.price_loop.specs.Endings.{IsEnded};
ghost use Rattle.route_pool.specs.Pool.{IsGrown, IsPool};
ghost use Rattle.column_pool.specs.Nodes.{node_problem};
ghost use Rattle.column_pool.specs.TooWide.{IsNodeBoundAt};

use crate::bound::NodeBound;
use crate::earners::NodeEarners;
use crate::exact::bound_of;
use crate::route::{NodeRoute, plans_of, routes_at};
use crate::taking::{places_of, take_all};
use crate::wide::wide_bound;
use customer_sets::Pairs;
use instance_reader::Instance;
use master_table::Caps;
use piece_fn::Label;
use price_loop::{LoopEnd, price_out};
use route_pool::{ColumnPool, put_own_routes};
use std::alloc::{AllocError, Global};

/// The bound of a node by the simplex method on a table with these caps, or by its rising prices
/// where a basis is past them. The routes of the loop go into the pool, which notes those of the
/// basis at the end.
pub(crate) fn bound_by_loop(
    alloc: Global,
    inst: &Instance,
    pairs: &Pairs,
    pool: &mut ColumnPool,
    caps: Caps,
) -> Result<NodeBound, AllocError>
    requires few { length (customer_nodes inst.now) ≤ most_customers }
    requires pairs { pairs.now.customers ≡ length (customer_nodes inst.now) }
    requires pool { IsPool inst.now pool.old }
    requires body { 1 ≤ caps.body }
    requires body_cap { caps.body ≤ 2 ^ 40 }
    requires cost { 128 ≤ caps.cost }
    requires cost_cap { caps.cost ≤ 2 ^ 84 }
    ensures bound { IfOk result (IsNodeBoundAt caps.body caps.cost inst.now pairs.now) }
    ensures pool { IsPool inst.now pool.new }
    ensures grown { IsGrown inst.now pool.old pool.new }
{
    put_own_routes(alloc, inst, pool)?;
    match end_of(alloc, inst, pairs, pool, caps)? {
        LoopEnd::Closed {
            lp,
            routes,
            basis,
            closing,
        } => {
            take_all(alloc, inst, pool, &routes)?;
            let recent = places_of(alloc, inst.customers().len(), pool, &routes, &basis)?;
            pool.note_recent(recent);
            bound_of(alloc, inst, pairs, &routes, lp, closing)
        }
        LoopEnd::Wide { routes, basis } => {
            take_all(alloc, inst, pool, &routes)?;
            let plans = plans_of(alloc, routes)?;
            wide_bound(alloc, inst, pairs, pool, plans, &basis)
        }
    }
}

/// How the price loop ends that begins with the routes that the pool has noted, as far as they keep
/// the pairs.
fn end_of(
    alloc: Global,
    inst: &Instance,
    pairs: &Pairs,
    pool: &ColumnPool,
    caps: Caps,
) -> Result<LoopEnd<NodeRoute, Vec<Label>>, AllocError>
    requires few { length (customer_nodes inst.now) ≤ most_customers }
    requires pairs { pairs.now.customers ≡ length (customer_nodes inst.now) }
    requires pool { IsPool inst.now pool.now }
    requires body { 1 ≤ caps.body }
    requires body_cap { caps.body ≤ 2 ^ 40 }
    requires cost { 128 ≤ caps.cost }
    requires cost_cap { caps.cost ≤ 2 ^ 84 }
    ensures { IfOk result (IsEnded (node_problem inst.now pairs.now) (limits_of caps)) }
{
    let earners = NodeEarners::new(alloc, inst, pairs, pool)?;
    let begin = routes_at(alloc, inst, pairs, pool, pool.recent())?;
    price_out(alloc, &earners, caps, begin)
}
