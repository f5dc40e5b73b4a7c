//! Routes while they are ruined and recreated.

use crate::ground::{Ground, NEVER};
use std::alloc::{AllocError, Global};

/// What a route takes without charging, and the least detours to a station.
#[derive(Clone, Copy)]
pub(crate) struct Sums {
    pub(crate) time: u64,
    pub(crate) energy: u64,
    /// The least detour over its gaps, and in which gap that is.
    detour: u64,
    gap: usize,
    /// The least detour over the other gaps.
    other_detour: u64,
}

/// A route: customers in order, by number.
#[derive(Drop)]
pub(crate) struct Tour {
    pub(crate) order: Vec<usize>,
    /// Its least time.
    pub(crate) time: u64,
    /// That with the toll for what is past the limit.
    pub(crate) cost: u64,
    pub(crate) sums: Sums,
}

impl Sums {
    /// The sums of an order.
    pub(crate) fn of(ground: &Ground, order: &[usize]) -> Sums {
        let mut sums = Sums {
            time: 0,
            energy: 0,
            detour: NEVER,
            gap: 0,
            other_detour: NEVER,
        };
        if order.is_empty() {
            return sums;
        }
        let mut from = ground.depot;
        for gap in 0..=order.len() {
            let to = order.get(gap).copied().unwrap_or(ground.depot);
            sums.add(ground, gap, from, to);
            from = to;
        }
        sums
    }

    /// Adds a gap.
    fn add(&mut self, ground: &Ground, gap: usize, from: usize, to: usize) {
        let arc = ground.arc(from, to);
        self.time = self.time.wrapping_add(arc.time);
        self.energy = self.energy.wrapping_add(arc.energy);
        if arc.detour < self.detour {
            self.other_detour = self.detour;
            self.detour = arc.detour;
            self.gap = gap;
        } else {
            self.other_detour = self.other_detour.min(arc.detour);
        }
    }

    /// The least detour over all gaps but one.
    pub(crate) fn detour_beside(&self, gap: usize) -> u64 {
        if self.gap == gap {
            self.other_detour
        } else {
            self.detour
        }
    }
}

impl Tour {
    /// A route that serves nobody.
    pub(crate) fn empty(alloc: Global, ground: &Ground) -> Tour {
        Tour {
            order: Vec::new(alloc),
            time: 0,
            cost: 0,
            sums: Sums::of(ground, &[]),
        }
    }

    /// The same route once more.
    pub(crate) fn copy(&self, alloc: Global) -> Result<Tour, AllocError> {
        let mut order = Vec::with_capacity(alloc, self.order.len().saturating_add(1))?;
        order.extend_from_slice(&self.order)?;
        Ok(Tour {
            order,
            time: self.time,
            cost: self.cost,
            sums: self.sums,
        })
    }
}
