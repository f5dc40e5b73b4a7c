//! Ruin: strings of customers near one another are taken out of routes (slack induction by string
//! removals: Christiaens, Vanden Berghe 2020).

use crate::search::RuinSearch;
use std::alloc::{AllocError, Global};

/// So many customers are taken out of a route at the most.
const LONGEST: usize = 10;

/// Four times as many customers are taken out on average.
const FOUR_TIMES_MEAN: usize = 60;

/// In so many of a hundred cases customers within a string stay.
const SPLIT: usize = 50;

/// In so many of a hundred cases one more of them stays.
const STAYS: usize = 99;

/// Which customers of a route are taken out: those from `begin` before `end`, but for those from
/// `stay_begin` before `stay_end`.
#[derive(Clone, Copy)]
struct Cut {
    begin: usize,
    end: usize,
    stay_begin: usize,
    stay_end: usize,
}

impl RuinSearch {
    /// Takes strings of customers out of routes. Whether the routes can be driven without them.
    pub(crate) fn ruin(&mut self, alloc: Global) -> Result<bool, AllocError> {
        self.gone.clear();
        self.fleet.add_unserved(&mut self.gone)?;
        let (customers, routes) = self.fleet.counts();
        let longest = (customers / routes.max(1)).clamp(1, LONGEST);
        let most = (FOUR_TIMES_MEAN / longest.saturating_add(1).max(1)).saturating_sub(1);
        let strings = self.chance.below(most.max(1)).saturating_add(1);
        let center = self.chance.below(self.costs.ground.customers);
        let mut taken: usize = 0;
        for place in 0..self.costs.ground.customers {
            let Some(customer) = self.near(center, place) else {
                break;
            };
            if taken >= strings {
                break;
            }
            if let Some(number) = self.fleet.tour_of(customer) {
                if !self.fleet.is_touched(number) {
                    taken = taken.saturating_add(1);
                    if !self.take_string(alloc, number, customer, longest)? {
                        return Ok(false);
                    }
                }
            }
        }
        Ok(true)
    }

    /// Takes a string with a customer out of his route. Whether the route can be driven without it.
    fn take_string(
        &mut self,
        alloc: Global,
        number: usize,
        customer: usize,
        longest: usize,
    ) -> Result<bool, AllocError> {
        let Some(tour) = self.fleet.tour(number) else {
            return Ok(true);
        };
        let length = tour.order.len();
        let at = place_of(&tour.order, customer);
        let cut = self.cut(length, at, longest);
        self.fleet.touch(alloc, number)?;
        self.part(number, cut)?;
        let time = if self.trial.is_empty() {
            Some(0)
        } else {
            self.costs.time_below(&self.trial, self.toll.end())?
        };
        let Some(time) = time else {
            return Ok(false);
        };
        self.fleet.keep_only(
            alloc,
            &self.costs.ground,
            &self.toll,
            number,
            &self.trial,
            time,
        )?;
        Ok(true)
    }

    /// A string of a route of so many customers, with the one at a place.
    fn cut(&mut self, length: usize, at: usize, longest: usize) -> Cut {
        let taken = self.chance.below(length.min(longest)).saturating_add(1);
        let mut staying: usize = 0;
        if taken >= 2 && taken < length && self.chance.is_within(SPLIT) {
            staying = 1;
            for _ in taken.saturating_add(1)..length {
                if !self.chance.is_within(STAYS) {
                    break;
                }
                staying = staying.saturating_add(1);
            }
        }
        let whole = taken.saturating_add(staying);
        let first = at.saturating_add(1).saturating_sub(whole);
        let last = at.min(length.saturating_sub(whole));
        let choices = last.saturating_sub(first).saturating_add(1);
        let begin = first.saturating_add(self.chance.below(choices));
        let mut stay_begin = begin;
        if staying > 0 {
            let before = self.chance.below(taken.saturating_sub(1));
            stay_begin = begin.saturating_add(before).saturating_add(1);
        }
        Cut {
            begin,
            end: begin.saturating_add(whole),
            stay_begin,
            stay_end: stay_begin.saturating_add(staying),
        }
    }

    /// Parts the customers of a route: those who are taken out are gone, the others are tried.
    fn part(&mut self, number: usize, cut: Cut) -> Result<(), AllocError> {
        self.trial.clear();
        let Some(tour) = self.fleet.tour(number) else {
            return Ok(());
        };
        let begin = self.gone.len();
        for (place, customer) in tour.order.iter().enumerate() {
            let stays = place >= cut.stay_begin && place < cut.stay_end;
            if place >= cut.begin && place < cut.end && !stays {
                self.gone.push(*customer)?;
            } else {
                self.trial.push(*customer)?;
            }
        }
        for index in begin..self.gone.len() {
            if let Some(customer) = self.gone.get(index).copied() {
                self.fleet.serve(customer, None);
            }
        }
        Ok(())
    }
}

/// The place of a customer in an order.
fn place_of(order: &[usize], customer: usize) -> usize {
    for (place, own) in order.iter().enumerate() {
        if *own == customer {
            return place;
        }
    }
    0
}
