//! The bound of a node where a basis is too wide.

ghost use Rattle.std.specs.Prelude.{◌≡◌, ◌+◌, ◌≤◌, IfOk, length};
ghost use Rattle.ev_model.specs.Network.{scaled_limit};
ghost use Rattle.instance_reader.specs.Instance.{customer_nodes, most_customers};
ghost use Rattle.master_table.specs.Tableau.{Limits};
ghost use Rattle.column_pool.specs.Columns.{AreNodeRoutes};
ghost use Rattle.column_pool.specs.TooWide.{IsNodeBoundAt, IsPastBasis};
ghost use Rattle.route_pool.specs.Pool.{IsPool};

use crate::bound::NodeBound;
use crate::earners::NodeEarners;
use crate::section::section_of;
use bound_certificate::entries_of;
use customer_sets::Pairs;
use ev_list::Listed;
use instance_reader::Instance;
use price_loop::{Risen, rise};
use pricing::Prices;
use route_plan::RoutePlan;
use route_pool::ColumnPool;
use std::alloc::{AllocError, Global};

/// The bound of a node by its rising prices, where the columns with the numbers of `basis`, among
/// the helpers and then the plans' routes, are a basis past the caps of the table. These may be of
/// any size.
pub(crate) fn wide_bound(
    alloc: Global,
    inst: &Instance,
    pairs: &Pairs,
    pool: &ColumnPool,
    plans: Vec<RoutePlan>,
    basis: &[usize],
) -> Result<NodeBound, AllocError>
    requires few { length (customer_nodes inst.now) ≤ most_customers }
    requires pairs { pairs.now.customers ≡ length (customer_nodes inst.now) }
    requires pool { IsPool inst.now pool.now }
    requires routes { AreNodeRoutes inst.now pairs.now plans.items }
    ensures { (caps : Limits) → IsPastBasis inst.now caps plans.items basis.now →
        IfOk result (IsNodeBoundAt caps.body caps.cost inst.now pairs.now) }
{
    let nodes = inst.nodes();
    prove!(1 <= nodes);
    let entries = entries_of(alloc, inst.customers().len(), basis)?;
    let earners = NodeEarners::new(alloc, inst, pairs, pool)?;
    match rise(alloc, &earners, past_limit(inst))? {
        Risen::Nowhere {
            prices,
            closing,
            ..
        } => Ok(NodeBound::Empty {
            section: section_of(
                pairs,
                Prices {
                    weight: 0,
                    of: prices,
                },
                closing,
            ),
        }),
        Risen::Priced { prices, closing } => Ok(NodeBound::Wide {
            columns: Listed::from_vec(plans),
            basis: Listed::from_vec(entries),
            section: section_of(
                pairs,
                Prices {
                    weight: 1,
                    of: prices,
                },
                closing,
            ),
        }),
    }
}

/// The first time past the limit, scaled: each route takes less.
fn past_limit(inst: &Instance) -> u64
    ensures { result ≡ scaled_limit inst.now + 1 }
{
    inst.denominator() * inst.limit() + 1
}
