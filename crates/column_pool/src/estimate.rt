//! What the bound of a node may come to, without pricing.

ghost use Rattle.std.specs.Prelude.{◌≡◌, ◌≤◌, length};
ghost use Rattle.instance_reader.specs.Instance.{customer_nodes, most_customers};
ghost use Rattle.route_pool.specs.Pool.{IsColumn, IsPool};

use crate::route::set_of;
use customer_sets::Pairs;
use instance_reader::Instance;
use master_simplex::{Lp, LpFault, solve};
use master_table::{CERTIFICATE_CAPS, Table, TableFault};
use price_loop::cover_cost;
use route_plan::RoutePlan;
use route_pool::{ColumnPool, earning, keeps_pairs, kept_places};
use std::alloc::{AllocError, Global};

/// What it costs at least to cover the customers by fractions of the pool's routes that keep the
/// pairs, rounded up to a whole scaled time. `None` tells that these routes cover no plan even by
/// fractions, or that the numbers grow too wide.
///
/// It is a guide for choices and no bound: routes that aren't in the pool may cost less. Which
/// number is answered isn't promised. The only `Err` is want of memory.
pub fn estimate_node(
    alloc: Global,
    inst: &Instance,
    pairs: &Pairs,
    pool: &ColumnPool,
) -> Result<Option<u128>, AllocError>
    requires few { length (customer_nodes inst.now) ≤ most_customers }
    requires pairs { pairs.now.customers ≡ length (customer_nodes inst.now) }
    requires pool { IsPool inst.now pool.now }
{
    let mut table = match Table::new(alloc, inst.customers().len(), CERTIFICATE_CAPS) {
        Ok(table) => table,
        Err(TableFault::Memory) => return Err(AllocError),
        Err(TableFault::Wide { .. }) => unreachable!(),
    };
    let places = kept_places(alloc, inst, pairs, pool)?;
    add_at(inst, pairs, pool, &mut table, pool.recent())?;
    for _ in &places {
        let Some(lp) = optimum(alloc, &mut table)? else {
            return Ok(None);
        };
        let further = earning(alloc, inst, pool, &places, lp.weight, &lp.prices)?;
        if !add_at(inst, pairs, pool, &mut table, &further)? {
            return Ok(cover_cost(&lp));
        }
    }
    let lp = optimum(alloc, &mut table)?;
    Ok(lp.and_then(|lp| cover_cost(&lp)))
}

/// The answer of the simplex method; `None` where the numbers grow too wide.
fn optimum(alloc: Global, table: &mut Table) -> Result<Option<Lp>, AllocError> {
    match solve(alloc, table) {
        Ok(lp) => Ok(Some(lp)),
        Err(LpFault::Memory) => Err(AllocError),
        Err(LpFault::Wide { .. }) => Ok(None),
    }
}

/// Adds the routes at the places as columns where they keep the pairs and their columns aren't too
/// wide, and tells whether there was one.
fn add_at(
    inst: &Instance,
    pairs: &Pairs,
    pool: &ColumnPool,
    table: &mut Table,
    places: &[usize],
) -> Result<bool, AllocError>
    requires few { length (customer_nodes inst.now) ≤ most_customers }
    requires pairs { pairs.now.customers ≡ length (customer_nodes inst.now) }
    requires pool { IsPool inst.now pool.now }
{
    let mut added = false;
    for at in places {
        if let Some((order, pooled)) = pool.route(*at) {
            added |= add_if_kept(inst, pairs, table, order, &pooled.plan)?;
        }
    }
    Ok(added)
}

/// Adds the route as a column where it keeps the pairs and its column isn't too wide, and tells
/// whether it did.
fn add_if_kept(
    inst: &Instance,
    pairs: &Pairs,
    table: &mut Table,
    order: &[usize],
    plan: &RoutePlan,
) -> Result<bool, AllocError>
    requires few { length (customer_nodes inst.now) ≤ most_customers }
    requires pairs { pairs.now.customers ≡ length (customer_nodes inst.now) }
    requires column { IsColumn inst.now order.now plan.now.stops }
{
    if !keeps_pairs(inst, pairs, order) {
        return Ok(false);
    }
    let set = set_of(inst, order);
    match table.add_column(set, plan.full_time(inst)) {
        Ok(_) => Ok(true),
        Err(TableFault::Memory) => Err(AllocError),
        Err(TableFault::Wide { .. }) => Ok(false),
    }
}
