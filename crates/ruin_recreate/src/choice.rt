//! Where a customer may be put, and what that costs.

use crate::chance::Chance;
use crate::fleet::Place;
use crate::ground::Ground;
use crate::toll::Toll;
use crate::tours::Tour;

/// What is added to a rise, so that one below nothing is a number.
const LEVEL: u64 = 1 << 60;

/// Where a customer is put.
#[derive(Clone, Copy)]
pub(crate) enum Target {
    /// No place is known.
    Nowhere,
    /// On a route of his own.
    Alone,
    /// At a place of a route.
    At(Place),
}

/// A place that has to be charged, and what the cost rises by at least.
#[derive(Clone, Copy)]
pub(crate) struct Candidate {
    rise: u64,
    pub(crate) at: Place,
}

/// The best place so far, and the three best ones that have to be charged.
#[derive(Clone, Copy)]
pub(crate) struct Choice {
    rise: u64,
    pub(crate) time: u64,
    pub(crate) target: Target,
    candidates: [Option<Candidate>; 3],
}

impl Choice {
    /// A route of his own, where there is one.
    pub(crate) fn alone(time: Option<u64>) -> Choice {
        match time {
            Some(time) => Choice {
                rise: time.wrapping_add(LEVEL),
                time,
                target: Target::Alone,
                candidates: [None; 3],
            },
            None => Choice {
                rise: u64::MAX,
                time: 0,
                target: Target::Nowhere,
                candidates: [None; 3],
            },
        }
    }

    /// Looks at the places of a route that are beside the depot or customers who are close. Where a
    /// vehicle need not charge, the time is known. How many places these are.
    pub(crate) fn look(
        &mut self,
        ground: &Ground,
        toll: &Toll,
        chance: &mut Chance,
        number: usize,
        tour: &Tour,
        customer: usize,
    ) -> u64 {
        let sums = tour.sums;
        let mut places: u64 = 0;
        let mut after = ground.depot;
        let mut is_after_close = true;
        for place in 0..=tour.order.len() {
            let (before, is_before_close) = (after, is_after_close);
            after = tour.order.get(place).copied().unwrap_or(ground.depot);
            is_after_close = ground.are_close(customer, after);
            if !is_before_close && !is_after_close {
                continue;
            }
            places = places.wrapping_add(1);
            let old = ground.arc(before, after);
            let (there, on) = (ground.arc(before, customer), ground.arc(customer, after));
            let mut time = sums
                .time
                .wrapping_sub(old.time)
                .wrapping_add(there.time)
                .wrapping_add(on.time);
            let energy = sums
                .energy
                .wrapping_sub(old.energy)
                .wrapping_add(there.energy)
                .wrapping_add(on.energy);
            let is_charged = energy > ground.full;
            if is_charged {
                let detour = there.detour.min(on.detour).min(sums.detour_beside(place));
                let lacking = energy.wrapping_sub(ground.full);
                time = time
                    .wrapping_add(ground.worth.wrapping_mul(lacking))
                    .wrapping_add(detour);
            }
            let rise = rise(toll, tour, time);
            if !toll.allows(time) || rise >= self.rise || chance.passes_over() {
                continue;
            }
            let at = Place {
                tour: number,
                place,
            };
            if is_charged {
                self.offer(Candidate { rise, at });
            } else {
                self.rise = rise;
                self.time = time;
                self.target = Target::At(at);
            }
        }
        places
    }

    /// Keeps a candidate where it is one of the three best.
    fn offer(&mut self, candidate: Candidate) {
        let [first, second, third] = self.candidates;
        if is_better(candidate, first) {
            self.candidates = [Some(candidate), first, second];
        } else if is_better(candidate, second) {
            self.candidates = [first, Some(candidate), second];
        } else if is_better(candidate, third) {
            self.candidates = [first, second, Some(candidate)];
        }
    }

    /// Takes the best candidate, where it may be better than the best place.
    pub(crate) fn take(&mut self) -> Option<Candidate> {
        let [first, second, third] = self.candidates;
        self.candidates = [second, third, None];
        match first {
            Some(candidate) if candidate.rise < self.rise => Some(candidate),
            _ => None,
        }
    }

    /// A time that a route stays below on which a place is better than the best one.
    pub(crate) fn bar(&self, toll: &Toll, tour: &Tour) -> u64 {
        if self.rise == u64::MAX {
            return toll.end();
        }
        let cost = self.rise.wrapping_add(tour.cost).saturating_sub(LEVEL);
        toll.bar(cost).min(toll.end())
    }

    /// Takes a place where that is better than the best one, on a route that takes this time then.
    pub(crate) fn improve(&mut self, toll: &Toll, tour: &Tour, at: Place, time: u64) {
        let rise = rise(toll, tour, time);
        if rise < self.rise {
            self.rise = rise;
            self.time = time;
            self.target = Target::At(at);
        }
    }
}

/// By how much the cost of a route rises that takes this time then.
fn rise(toll: &Toll, tour: &Tour, time: u64) -> u64 {
    toll.cost(time).wrapping_add(LEVEL).wrapping_sub(tour.cost)
}

/// Whether a candidate is better than another, if there is another.
fn is_better(candidate: Candidate, other: Option<Candidate>) -> bool {
    match other {
        Some(other) => candidate.rise < other.rise,
        None => true,
    }
}
