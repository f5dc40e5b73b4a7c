//! Planning a fleet of several kinds of vehicles.

ghost use Rattle.std.specs.Prelude.{◌≤◌, IfOk, length, MatchOption};
ghost use Rattle.std.specs.List.{All};
ghost use Rattle.ev_model.specs.Network.{IsNetwork};
ghost use Rattle.instance_reader.specs.Instance.{customer_nodes, most_customers};
ghost use Rattle.mixed_model.specs.Kinds.{AreKinds, first_of};
ghost use Rattle.mixed_fleet.specs.Fleets.{AreFleetKinds};
ghost use Rattle.mixed_fleet.specs.Held.{MayHold, routes_at};
ghost use Rattle.mixed_fleet.specs.Outcome.{IsOutcome};
ghost use Rattle.mixed_fleet.specs.Plans.{CostsNoMoreThanOwn};
ghost use Rattle.mixed_fleet.specs.Proofs.{IsBestProof};
ghost use Rattle.mixed_fleet.specs.Whole.{HasParts, IsAtBound};

use crate::greedy::greedy_routes;
use crate::held::{Held, cheaper, cost_of, own_plan, routes_of};
use crate::listed::columns_of;
use crate::outcome::MixedOutcome;
use crate::own::own_routes;
use crate::partition::with_met;
use crate::root::best_proof;
use crate::whole::whole_plan;
use ev_list::Listed;
use instance_reader::Instance;
use mixed_model::{MixedProof, MixedRoute};
use price_loop::{Nobody, RoundWatcher};
use std::alloc::{AllocError, Global};

/// A plan of a fleet of these kinds of vehicles, as many of each kind as one likes, where one is
/// found, and a proof of a bound on what such a fleet costs.
///
/// The proof is accepted. Its bound is the least cost of a fractional cover by routes of these
/// kinds, rounded up, or that of the rising prices where the numbers of the master problem grow too
/// wide; it has none only where there is no fractional cover. Where each customer has a route alone
/// by some kind, a plan is held, which costs no more than the fastest of these; and where each
/// share of the root is whole, one is held that costs exactly the bound. Costs and prices are
/// scaled by the denominator that all kinds share. The only `Err` is want of memory.
pub fn plan_mixed(alloc: Global, kinds: &[Instance]) -> Result<MixedOutcome, AllocError>
    requires kinds { AreKinds kinds.now }
    requires few { length (customer_nodes (first_of kinds.now)) ≤ most_customers }
    ensures { IfOk result (IsOutcome kinds.now) }
{
    plan_mixed_watched(alloc, kinds, &mut Nobody {})
}

/// The same as [`plan_mixed`], where a watcher is told how far the price loop is, and how far the
/// prices that rise.
pub fn plan_mixed_watched<W: RoundWatcher>(
    alloc: Global,
    kinds: &[Instance],
    watcher: &mut W,
) -> Result<MixedOutcome, AllocError>
    requires kinds { AreKinds kinds.now }
    requires few { length (customer_nodes (first_of kinds.now)) ≤ most_customers }
    ensures { IfOk result (IsOutcome kinds.now) }
{
    know_networks(kinds);
    let own = own_routes(alloc, kinds)?;
    let alone = columns_of(alloc, &own.routes)?;
    let held = own_plan(alloc, kinds, &own)?;
    let (proof, met) = best_proof(alloc, kinds, own.routes, watcher)?;
    let whole = whole_plan(alloc, kinds, &proof)?;
    let greedy = greedy_routes(alloc, kinds, &proof, &alone)?;
    let held = cheaper(kinds, held, greedy);
    let held = with_met(alloc, kinds, held, &proof, &met)?;
    Ok(outcome_of(kinds, held, whole, proof))
}

/// Each kind is a network.
fn know_networks(kinds: &[Instance])
    ensures { All IsNetwork kinds.now }
{
    for inst in kinds {
        let _nodes = inst.nodes();
    }
}

/// The outcome: the plan of whole shares, which costs least, or else the plan that is held.
fn outcome_of(
    kinds: &[Instance],
    held: Option<Held>,
    whole: Option<Listed<MixedRoute>>,
    proof: MixedProof,
) -> MixedOutcome
    requires fleet { AreFleetKinds kinds.now }
    requires proof { IsBestProof kinds.now proof }
    requires held { MayHold kinds.now held }
    requires own { CostsNoMoreThanOwn kinds.now (routes_at held) }
    requires whole { MatchOption whole (HasParts proof.root) (IsAtBound kinds.now proof) }
    ensures { IsOutcome kinds.now result }
{
    match whole {
        Some(routes) => MixedOutcome {
            plan: Some(routes),
            cost: proof.bound,
            proof,
        },
        None => MixedOutcome {
            cost: cost_of(&held),
            plan: routes_of(held),
            proof,
        },
    }
}
