//! What ways home take at the least, however late they end. No clause rests on this.

use crate::sizes::{paid_for, sum};
use near_completion::{Arc, Ground, Last, NearTerms};
use std::alloc::{AllocError, Global};

/// So often what ways take is lowered at the most before it is given up.
const MOST_TURNS: usize = 100;

/// There is no way.
const NO_WAY: i128 = i128::MAX;

/// What ways home take at the least beyond what they earn, by place, where everybody may come next
/// and nobody is remembered: so much they take whenever they end.
#[derive(Drop)]
pub(crate) struct SteadyCosts {
    costs: Vec<i128>,
}

impl SteadyCosts {
    /// Those of some terms; `None` where steps that lead back to a place may earn, so that there is
    /// no least way, or that isn't known soon.
    pub(crate) fn new(
        alloc: Global,
        ground: &Ground,
        terms: &NearTerms,
    ) -> Result<Option<SteadyCosts>, AllocError> {
        let mut steady = SteadyCosts {
            costs: Vec::with_capacity(alloc, ground.depot())?,
        };
        for place in 0..ground.depot() {
            steady.costs.push(cost_home(ground, terms, place))?;
        }
        for _ in 0..MOST_TURNS {
            if !steady.lower(ground, terms) {
                return Ok(Some(steady));
            }
        }
        Ok(None)
    }

    /// Lowers what ways take by a first step. Whether any gets less.
    fn lower(&mut self, ground: &Ground, terms: &NearTerms) -> bool {
        let mut is_lower = false;
        for place in 0..self.costs.len() {
            let least = self.by_step(ground, terms, place);
            if let Some(own) = self.costs.get_mut(place) {
                if least < *own {
                    *own = least;
                    is_lower = true;
                }
            }
        }
        is_lower
    }

    /// What ways from a place take at the least that begin with a step to another.
    fn by_step(&self, ground: &Ground, terms: &NearTerms, place: usize) -> i128 {
        let anybody = terms.class_of(Last::Anybody);
        let mut least = NO_WAY;
        for (to, (arc, cost)) in ground.arcs_from(place).iter().zip(&self.costs).enumerate() {
            if let Some(arc) = arc {
                if *cost != NO_WAY {
                    let earned = if ground.is_customer(to) {
                        terms.gain(anybody, to)
                    } else {
                        0
                    };
                    let step = sum(paid_for(terms.weight(), arc.cost), earned.saturating_neg());
                    least = least.min(sum(step, *cost));
                }
            }
        }
        least
    }

    /// What ways home from a place take at the least; `None` where there is none or it doesn't fit.
    pub(crate) fn rest(&self, place: usize) -> Option<i64> {
        let cost = self.costs.get(place)?;
        i64::try_from(*cost).ok()
    }
}

/// What going home at once takes.
fn cost_home(ground: &Ground, terms: &NearTerms, place: usize) -> i128 {
    match ground.arc(place, ground.depot()) {
        Some(Arc { cost, .. }) => paid_for(terms.weight(), cost),
        None => NO_WAY,
    }
}
