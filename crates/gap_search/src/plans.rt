//! Plans that are made of routes that a search found, and made cheaper by some moves.

ghost use Rattle.std.specs.Prelude.{◌≡◌, IfOk, IfSome};
ghost use Rattle.ev_model.specs.Fleet.{IsFleetPlan, cost_of};
ghost use Rattle.plan_check.specs.FleetRules.{stops_of};
ghost use Rattle.gap_search.specs.After.{IsHeldAfter, IsPlanAfter};
ghost use Rattle.gap_search.specs.Gap.{plan_held};

use crate::bound::NearOrder;
use crate::clock::{End, GapClock, Moving};
use crate::offers::Offers;
use crate::trips::fastest_plan;
use crate::watcher::GapWatcher;
use ev_list::Listed;
use instance_reader::{Instance, MOST_CUSTOMERS};
use plan_check::{LargeFault, check_large};
use route_improve::{Improved, improve_timed_within};
use route_plan::FleetPlan;
use std::alloc::{AllocError, Global};

/// So many plans are made of choices of routes at the most.
const MOST_PLANS: usize = 40;

/// So much work is done at the most to make one of them cheaper by moves: some seconds.
const MOVES_WORK: u64 = 4_000_000;

/// Routes that a search found, of which plans are made.
#[derive(Drop)]
pub(crate) struct FoundRoutes {
    pub(crate) orders: Vec<NearOrder>,
    /// Those of whole plans.
    pub(crate) dives: Vec<Vec<NearOrder>>,
    /// The prices by which they were found, by customer's number.
    pub(crate) prices: Vec<i64>,
    /// What no plan costs less than.
    pub(crate) bound: Option<u128>,
}

/// What is held, with a plan that costs no more: of the routes others are made, each is made
/// cheaper by some moves, and the cheapest is held. Where no plan is held, and for more than 128
/// customers, none is made. The clock is asked between two of them whether to stop.
pub(crate) fn cheaper<C: GapClock, W: GapWatcher>(
    alloc: Global,
    inst: &Instance,
    held: Improved,
    found: FoundRoutes,
    clock: &mut C,
    watcher: &mut W,
) -> Result<Improved, AllocError>
    requires { IfSome (plan_held held) (λ plan. IsFleetPlan inst.now 1
        (stops_of plan.routes)) }
    ensures { IfOk result (IsHeldAfter inst.now held) }
{
    match held {
        Improved::Plan(plan) if inst.customers().len() <= MOST_CUSTOMERS => {
            let plan = cheaper_plan(alloc, inst, plan, found, clock, watcher)?;
            Ok(Improved::Plan(plan))
        }
        held => Ok(held),
    }
}

/// A plan that costs no more than the one that is held.
fn cheaper_plan<C: GapClock, W: GapWatcher>(
    alloc: Global,
    inst: &Instance,
    held: FleetPlan,
    found: FoundRoutes,
    clock: &mut C,
    watcher: &mut W,
) -> Result<FleetPlan, AllocError>
    requires { IsFleetPlan inst.now 1 (stops_of held.routes) }
    ensures { IfOk result (IsPlanAfter inst.now held) }
{
    let FoundRoutes {
        orders,
        dives,
        prices,
        bound,
    } = found;
    let mut offers = Offers::new(alloc, inst, &prices, bound)?;
    offers.add_orders(alloc, orders)?;
    let held = with_dives(alloc, inst, held, &mut offers, dives, clock, watcher)?;
    with_choices(alloc, inst, held, &mut offers, clock, watcher)
}

/// The cheapest of the plan that is held and of those of dives, in which parts are replaced.
fn with_dives<C: GapClock, W: GapWatcher>(
    alloc: Global,
    inst: &Instance,
    mut held: FleetPlan,
    offers: &mut Offers<'_>,
    dives: Vec<Vec<NearOrder>>,
    clock: &mut C,
    watcher: &mut W,
) -> Result<FleetPlan, AllocError>
    requires { IsFleetPlan inst.now 1 (stops_of held.routes) }
    ensures { IfOk result (IsPlanAfter inst.now held) }
{
    for dive in dives {
        if clock.is_up() {
            break;
        }
        let places = offers.add_orders(alloc, dive)?;
        let places = offers.polished(alloc, places)?;
        held = with_choice(alloc, inst, held, offers, &places, clock, watcher)?;
    }
    Ok(held)
}

/// The cheapest of the plan that is held and of those of choices that cost less than it.
fn with_choices<C: GapClock, W: GapWatcher>(
    alloc: Global,
    inst: &Instance,
    mut held: FleetPlan,
    offers: &mut Offers<'_>,
    clock: &mut C,
    watcher: &mut W,
) -> Result<FleetPlan, AllocError>
    requires { IsFleetPlan inst.now 1 (stops_of held.routes) }
    ensures { IfOk result (IsPlanAfter inst.now held) }
{
    for _ in 0..MOST_PLANS {
        if clock.is_up() {
            break;
        }
        let places = offers.add_plan(alloc, &held)?;
        let Some(places) = offers.cheaper_choice(alloc, places)? else {
            break;
        };
        held = with_choice(alloc, inst, held, offers, &places, clock, watcher)?;
    }
    Ok(held)
}

/// The plan that is held, or the one of the routes at these places, made cheaper by some moves,
/// where it is one and costs less.
fn with_choice<C: GapClock, W: GapWatcher>(
    alloc: Global,
    inst: &Instance,
    held: FleetPlan,
    offers: &Offers<'_>,
    places: &[usize],
    clock: &mut C,
    watcher: &mut W,
) -> Result<FleetPlan, AllocError>
    requires { IsFleetPlan inst.now 1 (stops_of held.routes) }
    ensures { IfOk result (IsPlanAfter inst.now held) }
{
    let Some(plan) = plan_of_places(alloc, inst, offers, places)? else {
        return Ok(held);
    };
    let Some(other) = improved(alloc, inst, &plan, clock)? else {
        return Ok(held);
    };
    let held = cheaper_of(alloc, inst, held, other)?;
    watcher.watch_gap(offers.progress(&held));
    Ok(held)
}

/// The plan of routes in these orders, if each can be driven.
pub(crate) fn plan_of(
    alloc: Global,
    inst: &Instance,
    orders: &[NearOrder],
) -> Result<Option<FleetPlan>, AllocError> {
    let mut plans = Vec::with_capacity(alloc, orders.len())?;
    for order in orders {
        let Some(plan) = fastest_plan(alloc, inst, &order.nodes)? else {
            return Ok(None);
        };
        plans.push(plan)?;
    }
    Ok(Some(FleetPlan {
        routes: Listed::from_vec(plans),
    }))
}

/// The plan of the routes at these places, if each can be driven.
fn plan_of_places(
    alloc: Global,
    inst: &Instance,
    offers: &Offers<'_>,
    places: &[usize],
) -> Result<Option<FleetPlan>, AllocError> {
    let mut plans = Vec::with_capacity(alloc, places.len())?;
    for place in places {
        let Some(offer) = offers.all.get(*place) else {
            return Ok(None);
        };
        let Some(plan) = fastest_plan(alloc, inst, &offer.nodes)? else {
            return Ok(None);
        };
        plans.push(plan)?;
    }
    Ok(Some(FleetPlan {
        routes: Listed::from_vec(plans),
    }))
}

/// The plan, made cheaper by some moves before the clock is up, where it is a fleet plan.
pub(crate) fn improved<C: GapClock>(
    alloc: Global,
    inst: &Instance,
    plan: &FleetPlan,
    clock: &mut C,
) -> Result<Option<FleetPlan>, AllocError>
    ensures { IfOk result (λ found. IfSome found
        (λ better. IsFleetPlan inst.now 1 (stops_of better.routes))) }
{
    match check_large(alloc, inst, plan) {
        Ok(_) => {}
        Err(LargeFault::Memory) => return Err(AllocError),
        Err(LargeFault::Plan { .. }) => return Ok(None),
    }
    let mut moving = Moving::until(clock, End::Before(0));
    let better = improve_timed_within(alloc, inst, plan, MOVES_WORK, &mut moving)?;
    Ok(Some(better))
}

/// The cheaper one of two fleet plans.
pub(crate) fn cheaper_of(
    alloc: Global,
    inst: &Instance,
    held: FleetPlan,
    other: FleetPlan,
) -> Result<FleetPlan, AllocError>
    requires held { IsFleetPlan inst.now 1 (stops_of held.routes) }
    requires other { IsFleetPlan inst.now 1 (stops_of other.routes) }
    ensures { IfOk result (IsPlanAfter inst.now held) }
{
    let (Some(cost), Some(than)) = (cost_of(alloc, inst, &other)?, cost_of(alloc, inst, &held)?)
    else {
        return Ok(held);
    };
    if cost < than { Ok(other) } else { Ok(held) }
}

/// What a fleet plan costs; `None` says nothing.
pub(crate) fn cost_of(
    alloc: Global,
    inst: &Instance,
    plan: &FleetPlan,
) -> Result<Option<u128>, AllocError>
    ensures { IfOk result (λ cost. IfSome cost
        (λ scaled. scaled ≡ cost_of inst.now 1 (stops_of plan.now.routes))) }
{
    match check_large(alloc, inst, plan) {
        Ok(cost) => Ok(Some(cost)),
        Err(LargeFault::Memory) => Err(AllocError),
        Err(LargeFault::Plan { .. }) => Ok(None),
    }
}
