//! The plan that whole shares of an exact root are.

ghost use Rattle.std.specs.Prelude.{◌↔◌, ◌≡◌, IfOk, IsTrue, map, MatchOption};
ghost use Rattle.mixed_fleet.specs.Fleets.{AreFleetKinds};
ghost use Rattle.mixed_fleet.specs.Proofs.{IsBestProof};
ghost use Rattle.mixed_fleet.specs.Whole.{AreWhole, HasParts, IsAtBound};

use crate::listed::copy_of_route;
use ev_list::Listed;
use instance_reader::Instance;
use mixed_model::{MixedProof, MixedRoot, MixedRoute, MixedShare};
use set_partitioning::sort_by_first;
use std::alloc::{AllocError, Global};

/// The routes of an exact root as a plan, in rising order of their first customers, where each has
/// its whole share; `None` exactly where some has not, or the root isn't exact.
pub(crate) fn whole_plan(
    alloc: Global,
    kinds: &[Instance],
    proof: &MixedProof,
) -> Result<Option<Listed<MixedRoute>>, AllocError>
    requires fleet { AreFleetKinds kinds.now }
    requires proof { IsBestProof kinds.now proof.now }
    ensures { IfOk result (λ plan. MatchOption plan (HasParts proof.now.root)
        (IsAtBound kinds.now proof.now)) }
{
    let MixedRoot::Exact { over, shares } = &proof.root else {
        return Ok(None);
    };
    if !are_whole(*over, shares.as_slice()) {
        return Ok(None);
    }
    let mut routes = routes_of(alloc, shares.as_slice())?;
    sort_by_first(&mut routes);
    Ok(Some(Listed::from_vec(routes)))
}

/// Whether each route has its whole share.
fn are_whole(over: u64, shares: &[MixedShare]) -> bool
    ensures { IsTrue result ↔ AreWhole over shares.now }
{
    shares.iter().all(|x| x.share == over)
}

/// The routes of the shares.
fn routes_of(alloc: Global, shares: &[MixedShare]) -> Result<Vec<MixedRoute>, AllocError>
    ensures { IfOk result (λ routes. routes.items ≡ map (λ x. x.route) shares.now) }
{
    let mut routes = Vec::with_capacity(alloc, shares.len())?;
    for share in shares {
        routes.push(copy_of_route(alloc, &share.route)?)?;
    }
    Ok(routes)
}
