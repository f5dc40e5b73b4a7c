//! The bound at an optimum, or at a ray, beside which no route earns.

ghost use Rattle.std.specs.Prelude.{◌≡◌, ◌≤◌, ℕ, IfOk, length, map};
ghost use Rattle.std.specs.List.{All};
ghost use Rattle.bound_certificate.specs.Meaning.{route_shares};
ghost use Rattle.instance_reader.specs.Instance.{customer_nodes, most_customers};
ghost use Rattle.price_loop.specs.Columns.{HasRoute};
ghost use Rattle.column_pool.specs.Columns.{IsPricedOut, share_of};
ghost use Rattle.column_pool.specs.TooWide.{IsNodeBoundAt};

use crate::bound::NodeBound;
use crate::route::NodeRoute;
use crate::section::section_of;
use bound_certificate::Share;
use customer_sets::Pairs;
use ev_list::Listed;
use instance_reader::Instance;
use master_simplex::Lp;
use piece_fn::Label;
use pricing::Prices;
use std::alloc::{AllocError, Global};

/// The shares of routes, with the plans of these; the first `helpers` columns are helpers.
fn shares_of(
    alloc: Global,
    helpers: usize,
    routes: &[NodeRoute],
    shares: &[(usize, u64)],
) -> Result<Vec<Share>, AllocError>
    requires { All (HasRoute helpers routes.now) shares.now }
    ensures { IfOk result (λ v.
        route_shares v.items ≡ map (share_of helpers routes.now) shares.now) }
{
    let mut found = Vec::with_capacity(alloc, shares.len())?;
    for (column, share) in shares {
        let plan = routes[*column - helpers].plan.copy(alloc)?;
        found.push(Share {
            share: *share,
            plan,
        })?;
    }
    Ok(found)
}

/// The bound at the answer of the simplex method over the routes' columns, where the labels show
/// that no further route earns.
pub(crate) fn bound_of(
    alloc: Global,
    inst: &Instance,
    pairs: &Pairs,
    routes: &[NodeRoute],
    lp: Lp,
    labels: Vec<Label>,
) -> Result<NodeBound, AllocError>
    requires few { length (customer_nodes inst.now) ≤ most_customers }
    requires pairs { pairs.now.customers ≡ length (customer_nodes inst.now) }
    requires over { IsPricedOut inst.now pairs.now routes.now lp labels }
    ensures { (body cost : ℕ) → IfOk result (IsNodeBoundAt body cost inst.now pairs.now) }
{
    let Lp {
        weight,
        prices,
        over,
        shares,
    } = lp;
    let nodes = inst.nodes();
    prove!(nodes > 0);
    let section = section_of(pairs, Prices { weight, of: prices }, labels);
    if weight == 0 {
        return Ok(NodeBound::Empty { section });
    }
    let shares = shares_of(alloc, inst.customers().len(), routes, &shares)?;
    Ok(NodeBound::Exact {
        section,
        over,
        shares: Listed::from_vec(shares),
    })
}
