//! A proof by the prices at which no route of any kind earns.

ghost use Rattle.std.specs.Prelude.{◌≡◌, pos, ◌<ℤ◌, ◌≤ℤ◌, IfOk};
ghost use Rattle.std.specs.List.{All};
ghost use Rattle.fleet_model.specs.Prices.{price_total};
ghost use Rattle.price_loop.specs.Masters.{IsWide};
ghost use Rattle.mixed_fleet.specs.Fleets.{AreFleetKinds};
ghost use Rattle.mixed_fleet.specs.Problem.{AreClosedLists, MayBeAsked, problem_of};
ghost use Rattle.mixed_fleet.specs.Proofs.{IsBestProof};
ghost use Rattle.mixed_fleet.specs.Roots.{IsRightRoot};
ghost use Rattle.mixed_fleet.specs.Searched.{IsSearched};
ghost use Rattle.mixed_fleet.specs.Shares.{certificate_caps, IsClosedAt};

use crate::bound::bound_of;
use crate::earners::KindsEarners;
use crate::kept::know_lists;
use crate::listed::{columns_of, shares_of};
use crate::searched::Searched;
use bound_certificate::entries_of;
use ev_list::Listed;
use instance_reader::Instance;
use master_simplex::Lp;
use master_table::CERTIFICATE_CAPS;
use mixed_model::{MixedProof, MixedRoot};
use piece_fn::Label;
use price_loop::{LoopEnd, Risen, RoundWatcher, price_out_watched, rise_watched};
use std::alloc::{AllocError, Global};

/// More than the scaled time of any route: the scaled limits are at most 10^18.
const TOP: u64 = 1_000_000_000_000_000_001;

/// A proof by the prices at which no route of any kind earns, found by the price loop, which begins
/// with these routes; and all routes that the loop has met. The only `Err` is want of memory.
pub(crate) fn best_proof<W: RoundWatcher>(
    alloc: Global,
    kinds: &[Instance],
    begin: Vec<Searched>,
    watcher: &mut W,
) -> Result<(MixedProof, Vec<Searched>), AllocError>
    requires fleet { AreFleetKinds kinds.now }
    requires begin { All (IsSearched kinds.now) begin.items }
    ensures proof { IfOk result (λ end. IsBestProof kinds.now end.0) }
    ensures met { IfOk result (λ end. All (IsSearched kinds.now) end.1.items) }
{
    let earners = KindsEarners::new(kinds);
    match price_out_watched(alloc, &earners, CERTIFICATE_CAPS, begin, watcher)? {
        LoopEnd::Closed {
            lp,
            routes,
            basis: _,
            closing,
        } => Ok((proof_at_end(alloc, kinds, lp, &routes, closing)?, routes)),
        LoopEnd::Wide { routes, basis } => {
            let proof = wide_proof(alloc, kinds, &routes, &basis, watcher)?;
            Ok((proof, routes))
        }
    }
}

/// The proof at an optimum, or at a ray, of the simplex method.
fn proof_at_end(
    alloc: Global,
    kinds: &[Instance],
    lp: Lp,
    routes: &[Searched],
    closing: Listed<Listed<Label>>,
) -> Result<MixedProof, AllocError>
    requires fleet { AreFleetKinds kinds.now }
    requires closed { IsClosedAt kinds.now lp routes.now closing }
    ensures { IfOk result (IsBestProof kinds.now) }
{
    let Lp {
        weight,
        prices,
        over,
        shares,
    } = lp;
    if weight == 0 {
        return Ok(proof_with(kinds, weight, prices, closing, MixedRoot::None));
    }
    let found = shares_of(alloc, kinds[0].customers().len(), routes, &shares)?;
    let root = MixedRoot::Exact {
        over,
        shares: Listed::from_vec(found),
    };
    Ok(proof_with(kinds, weight, prices, closing, root))
}

/// The proof by rising prices, where the columns with the numbers of `basis` are a basis past the
/// caps.
fn wide_proof<W: RoundWatcher>(
    alloc: Global,
    kinds: &[Instance],
    routes: &[Searched],
    basis: &[usize],
    watcher: &mut W,
) -> Result<MixedProof, AllocError>
    requires fleet { AreFleetKinds kinds.now }
    requires wide { IsWide (problem_of kinds.now) certificate_caps routes.now basis.now }
    ensures { IfOk result (IsBestProof kinds.now) }
{
    match rise_watched(alloc, &KindsEarners::new(kinds), TOP, watcher)? {
        Risen::Nowhere {
            customer: _,
            prices,
            closing,
        } => Ok(proof_with(kinds, 0, prices, closing, MixedRoot::None)),
        Risen::Priced { prices, closing } => {
            let columns = columns_of(alloc, routes)?;
            let entries = entries_of(alloc, kinds[0].customers().len(), basis)?;
            let root = MixedRoot::Wide {
                columns: Listed::from_vec(columns),
                basis: Listed::from_vec(entries),
            };
            Ok(proof_with(kinds, 1, prices, closing, root))
        }
    }
}

/// A proof by prices, with what shows that no route of any kind earns at them, and a root.
fn proof_with(
    kinds: &[Instance],
    weight: u64,
    prices: Vec<i128>,
    labels: Listed<Listed<Label>>,
    root: MixedRoot,
) -> MixedProof
    requires fleet { AreFleetKinds kinds.now }
    requires asked { MayBeAsked kinds.now weight prices.items }
    requires closed { AreClosedLists kinds.now weight prices.items labels }
    requires some { pos 0 ≤ℤ price_total prices.items }
    requires above { weight ≡ 0 → pos 0 <ℤ price_total prices.items }
    requires root { IsRightRoot kinds.now weight prices.items root }
    ensures { IsBestProof kinds.now result }
{
    let _nodes = kinds[0].nodes();
    know_lists(labels.as_slice());
    MixedProof {
        bound: bound_of(weight, &prices),
        weight,
        prices: Listed::from_vec(prices),
        labels,
        root,
    }
}
