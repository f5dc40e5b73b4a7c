//! The limits that near routes set to the price of a customer.

ghost use Rattle.std.specs.Prelude.{◌≡◌, ◌<◌, ◌≤◌, ◌⊎◌, IfNone, IfOk, IfSome, get_or, length, set, true};
ghost use Rattle.std.specs.List.{All};
ghost use Rattle.certificate_parts.specs.Ranges.{ColumnFits};
ghost use Rattle.ev_model.specs.Fleet.{times_in};
ghost use Rattle.ev_model.specs.Network.{is_customer, node_count};
ghost use Rattle.ev_model.specs.Time.{time_of};
ghost use Rattle.fleet_model.specs.Places.{numbers_of};
ghost use Rattle.near_proof.specs.Routes.{IsNearRoute};
ghost use Rattle.near_proof.specs.Terms.{earned_by};
ghost use Rattle.ng_pricing.specs.Fixing.{IsFirst, IsOpen, IsSetting};
ghost use Rattle.ng_pricing.specs.Met.{AreMet, IsLimit, IsMet, Pays};
ghost use Rattle.ng_pricing.specs.declared.met.MetRoute.{MetRoute};

use crate::met::{Limit, MetRoute};
use crate::setting::{ClosedAt, Setting, price_alone};
use frvcp_labels::solve_route;
use near_pricing::{NearPriced, near_price};
use route_plan::RoutePlan;
use std::alloc::{AllocError, Global};

/// The first price of a customer, from above.
#[derive(Drop)]
pub(crate) enum First {
    Limited { limit: Limit },
    /// The customer stands on no near route: the labels are closed at weight 0 and the price 1 for
    /// the customer alone.
    Unserved { at: ClosedAt },
}

impl Setting<'_> {
    /// The first price of a customer: the least that the routes allow which were met, among them a
    /// fastest one for the customer alone; where none serves the customer, that of a route which
    /// pricing finds.
    pub(crate) fn first_limit(
        &self,
        alloc: Global,
        prices: &[u64],
        met: &mut Vec<MetRoute>,
        customer: usize,
    ) -> Result<First, AllocError>
        requires setting { IsSetting self.now }
        requires open { IsOpen self.now.inst.now self.now.sets.now prices.now customer }
        requires met { AreMet self.now.inst.now self.now.sets.now met.old.items }
        ensures met { IfOk result (λ _.
            AreMet self.now.inst.now self.now.sets.now met.new.items) }
        ensures first { IfOk result (IsFirst self.now.inst.now self.now.sets.now prices.now customer
            met.new.items) }
    {
        let node = self.inst.customers()[customer];
        self.meet_own(alloc, met, node)?;
        match least_limit(prices, met.as_slice(), customer) {
            Some(limit) => Ok(First::Limited { limit }),
            None => self.sought_limit(alloc, prices, met, customer),
        }
    }

    /// Meets a fastest route of the customer at the node alone, where there is one.
    fn meet_own(
        &self,
        alloc: Global,
        met: &mut Vec<MetRoute>,
        node: usize,
    ) -> Result<(), AllocError>
        requires setting { IsSetting self.now }
        requires known { node < node_count self.now.inst.now }
        requires customer { is_customer self.now.inst.now node ≡ true }
        requires met { AreMet self.now.inst.now self.now.sets.now met.old.items }
        ensures { IfOk result (λ _. AreMet self.now.inst.now self.now.sets.now met.new.items) }
    {
        let count = self.inst.nodes();
        prove!(node < count);
        let route = [0, node, 0];
        let Some(plan) = solve_route(alloc, self.inst, &route, self.inst.max_q())? else {
            return Ok(());
        };
        met.push(MetRoute::new(alloc, self.inst, plan)?)?;
        Ok(())
    }

    /// The price that a near route allows which pricing finds for the customer alone.
    fn sought_limit(
        &self,
        alloc: Global,
        prices: &[u64],
        met: &mut Vec<MetRoute>,
        customer: usize,
    ) -> Result<First, AllocError>
        requires setting { IsSetting self.now }
        requires open { IsOpen self.now.inst.now self.now.sets.now prices.now customer }
        requires met { AreMet self.now.inst.now self.now.sets.now met.old.items }
        ensures met { IfOk result (λ _.
            AreMet self.now.inst.now self.now.sets.now met.new.items) }
        ensures first { IfOk result (IsFirst self.now.inst.now self.now.sets.now prices.now customer
            met.new.items) }
    {
        let asked = price_alone(alloc, prices.len(), customer)?;
        match near_price(alloc, self.inst, self.sets, &asked)? {
            NearPriced::Better { plan } => {
                let limit = self.meet(alloc, prices, met, customer, plan)?;
                Ok(First::Limited { limit })
            }
            NearPriced::Closed { labels } => Ok(First::Unserved {
                at: ClosedAt {
                    prices: asked.of,
                    labels,
                },
            }),
        }
    }

    /// Meets a near route that serves the customer. Answers the price that it allows.
    pub(crate) fn meet(
        &self,
        alloc: Global,
        prices: &[u64],
        met: &mut Vec<MetRoute>,
        customer: usize,
        plan: RoutePlan,
    ) -> Result<Limit, AllocError>
        requires setting { IsSetting self.now }
        requires open { IsOpen self.now.inst.now self.now.sets.now prices.now customer }
        requires met { AreMet self.now.inst.now self.now.sets.now met.old.items }
        requires route { IsNearRoute self.now.inst.now self.now.sets.now plan.stops }
        requires serves { 1 ≤ times_in (numbers_of self.now.inst.now plan.stops) customer }
        requires fits { ColumnFits plan }
        ensures met { IfOk result (λ _.
            AreMet self.now.inst.now self.now.sets.now met.new.items) }
        ensures limit { IfOk result (IsLimit prices.now customer met.new.items) }
        ensures pays { IfOk result (λ limit.
            earned_by (set prices.now customer limit.price)
            (numbers_of self.now.inst.now plan.stops)
            ≤ time_of self.now.inst.now 1 self.now.inst.now.capacity plan.stops) }
    {
        let route = MetRoute::new(alloc, self.inst, plan)?;
        let Some(price) = route.allowed(prices, customer) else {
            unreachable!();
        };
        let limit = Limit {
            price,
            route: met.len(),
        };
        met.push(route)?;
        Ok(limit)
    }
}

/// The least price of the customer that some route allows which serves the customer.
fn least_limit(prices: &[u64], met: &[MetRoute], customer: usize) -> Option<Limit>
    requires customer { customer < length prices.now }
    requires known { All (λ (r : MetRoute). All (λ c. c < length prices.now) r.numbers) met.now }
    requires few { All (λ (r : MetRoute). length r.numbers ≤ 128) met.now }
    requires free { get_or prices.now customer 0 ≡ 0 }
    requires pays { All (Pays prices.now) met.now }
    ensures some { IfSome result (IsLimit prices.now customer met.now) }
    ensures least { IfSome result (λ limit.
        All (Pays (set prices.now customer limit.price)) met.now) }
    ensures none { IfNone result
        (All (λ (r : MetRoute). times_in r.numbers customer ≡ 0) met.now) }
{
    let mut least = None;
    for (route, other) in met.iter().enumerate() {
        if let Some(price) = other.allowed(prices, customer) {
            least = Some(lesser(least, Limit { price, route }));
        }
    }
    least
}

/// The limit with the lesser price.
fn lesser(least: Option<Limit>, other: Limit) -> Limit
    ensures one { (result ≡ other) ⊎ (least ≡ Some result) }
    ensures within { result.price ≤ other.price }
    ensures least { IfSome least (λ limit. result.price ≤ limit.price) }
{
    match least {
        Some(limit) if limit.price <= other.price => limit,
        _ => other,
    }
}
