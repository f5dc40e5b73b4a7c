//! The bound of a node.

ghost use Rattle.std.specs.Prelude.{◌≡◌, ◌≤◌, IfOk, length};
ghost use Rattle.customer_sets.specs.Pairs.{IsDecided};
ghost use Rattle.instance_reader.specs.Instance.{customer_nodes, most_customers};
ghost use Rattle.column_pool.specs.Bounds.{IsBoundOfDecided, IsNodeBound};
ghost use Rattle.route_pool.specs.Pool.{IsGrown, IsPool};

use crate::bound::NodeBound;
use crate::by_loop::bound_by_loop;
use crate::decided::bound_of_decided;
use customer_sets::Pairs;
use instance_reader::Instance;
use master_table::CERTIFICATE_CAPS;
use route_pool::ColumnPool;
use std::alloc::{AllocError, Global};

/// The bound of the node whose forbidden pairs these are: a section with exactly these pairs and
/// closed labels, and what shows that its bound couldn't be had higher by prices. All of it is in
/// the ranges of certificates.
///
/// Where the pairs are decided (no customer is left to branch on) the answer is `Exact` or `Empty`,
/// and the section's bound is the least cost of a fleet plan that keeps them: the routes with
/// shares are such a plan.
///
/// Afterwards the pool has for each order from before the same plan or a faster one, and perhaps
/// further routes. This holds after a refusal too. The only `Err` is want of memory.
pub fn bound_node(
    alloc: Global,
    inst: &Instance,
    pairs: &Pairs,
    pool: &mut ColumnPool,
) -> Result<NodeBound, AllocError>
    requires few { length (customer_nodes inst.now) ≤ most_customers }
    requires pairs { pairs.now.customers ≡ length (customer_nodes inst.now) }
    requires pool { IsPool inst.now pool.old }
    ensures bound { IfOk result (IsNodeBound inst.now pairs.now) }
    ensures decided { IsDecided pairs.now → IfOk result (IsBoundOfDecided inst.now pairs.now) }
    ensures pool { IsPool inst.now pool.new }
    ensures grown { IsGrown inst.now pool.old pool.new }
{
    if pairs.decided() {
        return bound_of_decided(alloc, inst, pairs, pool);
    }
    bound_by_loop(alloc, inst, pairs, pool, CERTIFICATE_CAPS)
}
