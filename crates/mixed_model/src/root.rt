//! The rules of the root.

ghost use Rattle.std.specs.Prelude.{◌≤◌, IfOk, length};
ghost use Rattle.std.specs.List.{All};
ghost use Rattle.instance_reader.specs.Instance.{customer_nodes, most_customers};
ghost use Rattle.certificate_parts.specs.Ranges.{BasisFits, customer_count};
ghost use Rattle.mixed_model.specs.Tellings.{TellsExact, TellsRoot, TellsWide};
ghost use Rattle.mixed_model.specs.Kinds.{AreKinds, first_of};
ghost use Rattle.mixed_model.specs.Ranges.{MixedFits, RouteFits, SharesFit};

use crate::routes::{listed_routes, shared_routes};
use crate::{MixedProof, MixedRoot, MixedRoute, MixedShare};
use certificate_check::{bound_of, cover_exactly, is_wide_basis};
use certificate_parts::BasisEntry;
use instance_reader::Instance;
use std::alloc::{AllocError, Global};

/// Whether the root shows what it says of the price sum over the weight.
pub(crate) fn root_holds(
    alloc: Global,
    kinds: &[Instance],
    p: &MixedProof,
) -> Result<bool, AllocError>
    requires kinds { AreKinds kinds.now }
    requires few { length (customer_nodes (first_of kinds.now)) ≤ most_customers }
    requires fits { MixedFits kinds.now p.now }
    ensures { IfOk result (TellsRoot kinds.now p.now p.now.root) }
{
    match &p.root {
        MixedRoot::None => Ok(bound_of(p.weight, p.prices.as_slice()).is_none()),
        MixedRoot::Exact { over, shares } => is_exact(alloc, kinds, p, *over, shares.as_slice()),
        MixedRoot::Wide { columns, basis } => {
            is_wide(alloc, kinds, columns.as_slice(), basis.as_slice())
        }
    }
}

/// Whether the shares are a fractional cover, and cost the price sum over the weight, which is
/// above 0.
fn is_exact(
    alloc: Global,
    kinds: &[Instance],
    p: &MixedProof,
    over: u64,
    shares: &[MixedShare],
) -> Result<bool, AllocError>
    requires kinds { AreKinds kinds.now }
    requires few { length (customer_nodes (first_of kinds.now)) ≤ most_customers }
    requires fits { MixedFits kinds.now p.now }
    requires shares { SharesFit (length kinds.now) over shares.now }
    ensures { IfOk result (TellsExact kinds.now p.now over shares.now) }
{
    let Some(routes) = shared_routes(alloc, kinds, shares)? else {
        return Ok(false);
    };
    let customers = kinds[0].customers().len();
    Ok(cover_exactly(
        customers,
        p.weight,
        p.prices.as_slice(),
        over,
        routes.as_slice(),
    ))
}

/// Whether the columns are routes of a fleet, each for its kind, and the basis over them is too
/// wide.
fn is_wide(
    alloc: Global,
    kinds: &[Instance],
    columns: &[MixedRoute],
    basis: &[BasisEntry],
) -> Result<bool, AllocError>
    requires kinds { AreKinds kinds.now }
    requires few { length (customer_nodes (first_of kinds.now)) ≤ most_customers }
    requires columns { All (RouteFits (length kinds.now)) columns.now }
    requires basis { BasisFits (customer_count (first_of kinds.now)) (length columns.now)
        basis.now }
    ensures { IfOk result (TellsWide kinds.now columns.now basis.now) }
{
    let Some(routes) = listed_routes(alloc, kinds, columns)? else {
        return Ok(false);
    };
    is_wide_basis(alloc, kinds[0].customers().len(), routes.as_slice(), basis)
}
