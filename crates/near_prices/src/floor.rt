//! Prices by which surely no route earns, toward which others are lowered. No clause rests on this.

use crate::kept::Ratio;
use crate::numbers::{at, narrow, signed};
use crate::pricing::Pricing;
use crate::routes::Route;
use near_completion::Ground;
use near_search::{NearFound, NearRoute};
use std::alloc::{AllocError, Global};

/// The floor of prices: a customer earns what an arc to him takes at the least, weighted, and an
/// entry nothing. No route earns by it, so none does by prices in between it and others by which
/// none does.
#[derive(Drop)]
pub(crate) struct Floor {
    /// The prices of the rows.
    pub(crate) prices: Vec<i64>,
}

impl Floor {
    /// The floor of so many rows, those of the customers first.
    pub(crate) fn new(
        alloc: Global,
        ground: &Ground,
        rows: usize,
        weight: u32,
    ) -> Result<Floor, AllocError> {
        let mut prices = vec![in alloc; 0; rows]?;
        for (customer, price) in prices.iter_mut().take(ground.customers()).enumerate() {
            *price = signed(least_to(ground, customer).saturating_mul(u64::from(weight)));
        }
        Ok(Floor { prices })
    }

    /// So much of prices as lies between the floor and them, and the floor.
    pub(crate) fn lower(&self, ratio: Ratio, prices: &mut [i64]) {
        for (price, floor) in prices.iter_mut().zip(&self.prices) {
            let above = i128::from(*price).saturating_sub(i128::from(*floor));
            *price = narrow(ratio.part_of(above).saturating_add(i128::from(*floor)));
        }
    }

    /// How far prices have to be lowered, so that none of the routes that were found earns.
    pub(crate) fn worst_of(&self, pricing: &Pricing<'_>, found: &NearFound) -> Ratio {
        let weight = u64::from(pricing.terms.weight());
        let mut worst = Ratio::whole();
        for route in &found.routes {
            let cost = route.time.saturating_mul(weight);
            let floor = self.earned_on(pricing.ground, route);
            worst = worst.least(Ratio::of(cost, route.reduced, floor));
        }
        worst
    }

    /// How far they have to be lowered for a route that is known, which earns by them.
    pub(crate) fn ratio_of(&self, route: &Route, reduced: i64) -> Ratio {
        let over = i128::from(route.reduced_cost(&self.prices));
        let floor = i128::from(signed(route.cost)).saturating_sub(over);
        Ratio::of(route.cost, reduced, floor)
    }

    /// What a route earns by the floor.
    fn earned_on(&self, ground: &Ground, route: &NearRoute) -> i128 {
        let mut earned: i128 = 0;
        for place in &route.places {
            if ground.is_customer(*place) {
                earned = earned.saturating_add(i128::from(at(&self.prices, *place)));
            }
        }
        earned
    }
}

/// The least time of an arc to a customer, 0 where there is none.
fn least_to(ground: &Ground, customer: usize) -> u64 {
    let mut least = None;
    for place in 0..=ground.depot() {
        if let Some(arc) = ground.arc(place, customer) {
            least = Some(arc.time.min(least.unwrap_or(arc.time)));
        }
    }
    least.unwrap_or(0)
}
