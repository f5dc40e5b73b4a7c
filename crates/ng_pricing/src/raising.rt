//! Rising prices: fixed customer by customer, each at the greatest at which every near route pays.

ghost use Rattle.std.specs.Prelude.{◌≡◌, ◌+◌, ◌<◌, ◌≤◌, ◌^◌, IfNone, IfOk, IfSome, length, set, slice_get};
ghost use Rattle.std.specs.List.{All};
ghost use Rattle.instance_reader.specs.Instance.{customer_nodes};
ghost use Rattle.near_pricing.specs.Answers.{AreClosedLabels};
ghost use Rattle.near_proof.specs.Truth.{NearRoutesPay};
ghost use Rattle.ng_pricing.specs.Fixing.{IsFixed, IsOpen, IsRaised, IsRising, IsSetting, IsUnserved};
ghost use Rattle.ng_pricing.specs.Met.{AreMet, IsLimit};
ghost use Rattle.ng_pricing.specs.Rising.{terms_at};
ghost use Rattle.ng_pricing.specs.declared.met.MetRoute.{MetRoute};

use crate::limits::First;
use crate::lowering::Begun;
use crate::met::{Limit, MetRoute};
use crate::setting::{ClosedAt, Setting, copy_of, prices_with};
use crate::watcher::{PriceWatcher, progress_of};
use ev_list::Listed;
use near_pricing::{NearPriced, near_price};
use near_proof::NearLabel;
use route_plan::RoutePlan;
use std::alloc::{AllocError, Global};

/// Prices by the customers' numbers, of which the first are fixed, and the later ones are those
/// with which the prices begin to rise.
#[derive(Drop)]
pub(crate) struct Rising {
    pub(crate) prices: Vec<u64>,
    /// Closed at the prices.
    pub(crate) labels: Listed<NearLabel>,
    /// For each customer with a fixed price a route that shows that it can't be higher.
    pub(crate) tight: Vec<RoutePlan>,
    /// The near routes that were met.
    pub(crate) met: Vec<MetRoute>,
}

/// The price of a customer, and a route that shows that it can't be higher.
#[derive(Drop)]
pub(crate) struct Fixed {
    pub(crate) price: u64,
    /// Closed at the price; `None` where it is the one with which the customer began.
    pub(crate) labels: Option<Listed<NearLabel>>,
    pub(crate) tight: RoutePlan,
}

/// What comes of raising the prices of customers one by one.
#[derive(Drop)]
pub(crate) enum Raised {
    Priced { rising: Rising },
    /// Some customer stands on no near route.
    Nowhere { at: ClosedAt },
}

impl Setting<'_> {
    /// Lowers the prices until no near route earns by them, and then raises those of the customers
    /// one by one, in rising order. The watcher is told behind each.
    pub(crate) fn raised<W: PriceWatcher>(
        &self,
        alloc: Global,
        start: Vec<u64>,
        watcher: &mut W,
    ) -> Result<Raised, AllocError>
        requires setting { IsSetting self.now }
        requires one_price { length start.items ≡ length (customer_nodes self.now.inst.now) }
        requires small { All (λ price. price ≤ 10 ^ 18) start.items }
        ensures { IfOk result (IsRaised self.now.inst.now self.now.sets.now start.items) }
    {
        let Begun {
            prices: base,
            labels,
            met,
        } = self.begun(alloc, start)?;
        let mut rising = Rising {
            prices: copy_of(alloc, &base)?,
            labels,
            tight: Vec::new(alloc),
            met,
        };
        for customer in 0..self.inst.customers().len() {
            if let Some(at) = self.fix(alloc, &base, &mut rising, customer)? {
                return Ok(Raised::Nowhere { at });
            }
            watcher.watch_prices(progress_of(&rising.prices, customer + 1));
        }
        Ok(Raised::Priced { rising })
    }

    /// Fixes the price of a customer, where those of the customers before are fixed; or answers
    /// labels that show that some customer stands on no near route.
    fn fix(
        &self,
        alloc: Global,
        base: &[u64],
        rising: &mut Rising,
        customer: usize,
    ) -> Result<Option<ClosedAt>, AllocError>
        requires setting { IsSetting self.now }
        requires customer { customer < length (customer_nodes self.now.inst.now) }
        requires before { IsRising self.now.inst.now self.now.sets.now base.now customer
            rising.old }
        ensures fixed { IfOk result (λ found. IfNone found
            (IsRising self.now.inst.now self.now.sets.now base.now (customer + 1) rising.new)) }
        ensures unserved { IfOk result (λ found. IfSome found
            (IsUnserved self.now.inst.now self.now.sets.now)) }
    {
        let paid = base[customer];
        rising.prices[customer] = 0;
        let first = self.first_limit(alloc, &rising.prices, &mut rising.met, customer)?;
        let limit = match first {
            First::Limited { limit } => limit,
            First::Unserved { at } => return Ok(Some(at)),
        };
        let fixed = self.lowered(
            alloc,
            &rising.prices,
            &mut rising.met,
            customer,
            limit,
            paid,
        )?;
        rising.tight.push(fixed.tight)?;
        rising.prices[customer] = fixed.price;
        if let Some(labels) = fixed.labels {
            rising.labels = labels;
        }
        Ok(None)
    }

    /// Lowers the price of a customer to what the routes allow that pricing finds, until it finds
    /// none, or the price is one that all near routes are known to pay.
    fn lowered(
        &self,
        alloc: Global,
        prices: &[u64],
        met: &mut Vec<MetRoute>,
        customer: usize,
        first: Limit,
        paid: u64,
    ) -> Result<Fixed, AllocError>
        requires setting { IsSetting self.now }
        requires open { IsOpen self.now.inst.now self.now.sets.now prices.now customer }
        requires met { AreMet self.now.inst.now self.now.sets.now met.old.items }
        requires first { IsLimit prices.now customer met.old.items first }
        ensures met { IfOk result (λ _.
            AreMet self.now.inst.now self.now.sets.now met.new.items) }
        ensures fixed { IfOk result
            (IsFixed self.now.inst.now self.now.sets.now prices.now customer paid) }
    {
        let mut limit = first;
        'lower: while limit.price != paid {
            let asked = prices_with(alloc, prices, customer, limit.price)?;
            match near_price(alloc, self.inst, self.sets, &asked)? {
                NearPriced::Better { plan } => {
                    limit = self.meet(alloc, prices, met, customer, plan)?;
                }
                NearPriced::Closed { labels } => {
                    return fixed_at(alloc, met.as_slice(), limit, Some(labels));
                }
            }
        }
        fixed_at(alloc, met.as_slice(), limit, None)
    }
}

/// The price of a limit, with its route.
fn fixed_at(
    alloc: Global,
    met: &[MetRoute],
    limit: Limit,
    labels: Option<Listed<NearLabel>>,
) -> Result<Fixed, AllocError>
    requires { limit.route < length met.now }
    ensures price { IfOk result (λ fixed. fixed.price ≡ limit.price) }
    ensures labels { IfOk result (λ fixed. fixed.labels ≡ labels) }
    ensures tight { IfOk result (λ fixed. (route : MetRoute) →
        slice_get met.now limit.route ≡ Some route → fixed.tight ≡ route.plan) }
{
    let tight = met[limit.route].plan.copy(alloc)?;
    Ok(Fixed {
        price: limit.price,
        labels,
        tight,
    })
}
