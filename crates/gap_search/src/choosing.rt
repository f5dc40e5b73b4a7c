//! Choices of routes that serve each customer once.

use crate::offers::{Offer, Offers, number_of};
use customer_sets::CustSet;
use set_partitioning::{Candidate, find_partition, room_below};
use std::alloc::{AllocError, Global};

/// So many candidates are looked at for a plan of all customers, at the most.
const LOOKS: u64 = 400_000_000;

/// So many for a part of a plan.
const FEW_LOOKS: u64 = 1_000_000;

/// Of so many routes that stand near one another others are sought, from few to many.
const SIZES: [usize; 4] = [3, 5, 7, 10];

/// The weight of time beside prices.
const WEIGHT: u64 = 1;

/// So often parts of a plan are replaced at the most.
const MOST_TURNS: usize = 200;

/// The customers of a part of a plan, numbered anew.
#[derive(Drop)]
struct Part {
    /// The new number of each customer, by the old one.
    ranks: Vec<usize>,
    /// Their prices, by new number.
    prices: Vec<i128>,
}

impl Offers<'_> {
    /// A cheaper choice than the one at these places, if one is found: first parts of it are
    /// replaced, and where that is of no use all of it.
    pub(crate) fn cheaper_choice(
        &self,
        alloc: Global,
        places: Vec<usize>,
    ) -> Result<Option<Vec<usize>>, AllocError> {
        let cost = self.cost_of(&places);
        let among = self.served_by(&places);
        let polished = self.polished(alloc, places)?;
        if self.cost_of(&polished) < cost {
            return Ok(Some(polished));
        }
        self.choice_below(alloc, among, cost, LOOKS)
    }

    /// The choice in which parts of the one at these places are replaced by cheaper ones.
    pub(crate) fn polished(
        &self,
        alloc: Global,
        places: Vec<usize>,
    ) -> Result<Vec<usize>, AllocError> {
        let mut places = places;
        for size in SIZES {
            for _ in 0..MOST_TURNS {
                match self.with_a_part(alloc, &places, size)? {
                    Some(other) => places = other,
                    None => break,
                }
            }
        }
        Ok(places)
    }

    /// The choice in which so many routes around one of them are replaced by cheaper ones.
    fn with_a_part(
        &self,
        alloc: Global,
        places: &[usize],
        size: usize,
    ) -> Result<Option<Vec<usize>>, AllocError> {
        for seed in places {
            let order = self.nearest_first(alloc, places, *seed)?;
            let part = order.get(..size).unwrap_or(&order);
            let rest = order.get(size..).unwrap_or(&[]);
            let among = self.served_by(part);
            let cost = self.cost_of(part);
            if let Some(mut found) = self.choice_below(alloc, among, cost, FEW_LOOKS)? {
                found.extend_from_slice(rest)?;
                return Ok(Some(found));
            }
        }
        Ok(None)
    }

    /// The places, those of routes nearest to one of them first.
    fn nearest_first(
        &self,
        alloc: Global,
        places: &[usize],
        seed: usize,
    ) -> Result<Vec<usize>, AllocError> {
        let mut keyed = Vec::with_capacity(alloc, places.len())?;
        for place in places {
            keyed.push((self.distance(seed, *place), *place))?;
        }
        keyed.sort()?;
        let mut order = Vec::with_capacity(alloc, places.len())?;
        for (_, place) in keyed {
            order.push(place)?;
        }
        Ok(order)
    }

    /// The least time between customers of two routes, 0 for a route and itself.
    fn distance(&self, from: usize, to: usize) -> u64 {
        if from == to {
            return 0;
        }
        let mut least = u64::MAX;
        if let (Some(one), Some(other)) = (self.all.get(from), self.all.get(to)) {
            for node in &one.nodes {
                least = least.min(self.least_time(*node, other));
            }
        }
        least
    }

    /// The least time from a node to a customer of a route.
    fn least_time(&self, from: usize, offer: &Offer) -> u64 {
        let mut least = u64::MAX;
        for to in &offer.nodes {
            if from < self.inst.nodes() && *to < self.inst.nodes() {
                least = least.min(self.inst.time(from, *to).saturating_add(1));
            }
        }
        least
    }

    /// Places of routes that serve these customers once each, and take less than so much together.
    fn choice_below(
        &self,
        alloc: Global,
        among: CustSet,
        cost: u128,
        looks: u64,
    ) -> Result<Option<Vec<usize>>, AllocError> {
        let part = Part::new(alloc, among, &self.prices)?;
        let mut places = Vec::new(alloc);
        let mut candidates = Vec::new(alloc);
        for (place, offer) in self.all.iter().enumerate() {
            if offer.served.is_subset(among) {
                places.push(place)?;
                candidates.push(self.candidate(&part, offer))?;
            }
        }
        let room = room_below(Some(cost), WEIGHT, &part.prices);
        let customers = part.prices.len().min(128);
        let Some(found) = find_partition(alloc, &candidates, customers, room, looks)? else {
            return Ok(None);
        };
        let mut chosen = Vec::with_capacity(alloc, found.len())?;
        for at in found {
            if let Some(place) = places.get(at) {
                chosen.push(*place)?;
            }
        }
        Ok(Some(chosen))
    }

    /// A route as a candidate for a part.
    fn candidate(&self, part: &Part, offer: &Offer) -> Candidate {
        let mut candidate = Candidate::at_cost(offer.time, WEIGHT);
        for node in &offer.nodes {
            if let Some(number) = number_of(self.inst, *node) {
                let rank = part.ranks.get(number).copied().unwrap_or(0);
                if rank < 128 {
                    candidate = candidate.serving(rank, &part.prices);
                }
            }
        }
        candidate
    }
}

impl Part {
    /// The part with these customers.
    fn new(alloc: Global, among: CustSet, prices: &[i128]) -> Result<Part, AllocError> {
        let mut part = Part {
            ranks: Vec::new(alloc),
            prices: Vec::new(alloc),
        };
        for number in 0..128 {
            part.ranks.push(part.prices.len())?;
            if among.has(number) {
                part.prices.push(prices.get(number).copied().unwrap_or(0))?;
            }
        }
        Ok(part)
    }
}
