//! Recreate: customers are put where the cost rises least.

use crate::choice::{Candidate, Choice, Target};
use crate::fleet::Place;
use crate::ground::NEVER;
use crate::near::there_and_back;
use crate::search::RuinSearch;
use std::alloc::{AllocError, Global};

/// The routes of so many customers near one are looked at.
const MOST_NEAR: usize = 20;

/// So many customers near one may be put on a route together with him, where there is no other.
const MOST_PARTNERS: usize = 40;

/// So many places are charged for a customer at the most.
const MOST_CHARGES: usize = 3;

/// Two customers on a route of their own, in order, and what it takes.
#[derive(Clone, Copy)]
struct Pair {
    first: usize,
    second: usize,
    time: u64,
}

/// In which order customers are put in.
#[derive(Clone, Copy)]
pub(crate) enum Sequence {
    Random,
    FarthestFirst,
    NearestFirst,
    DearestFirst,
}

impl RuinSearch {
    /// A sequence by chance.
    pub(crate) fn draw_sequence(&mut self) -> Sequence {
        match self.chance.below(4) {
            0 => Sequence::Random,
            1 => Sequence::FarthestFirst,
            2 => Sequence::NearestFirst,
            _ => Sequence::DearestFirst,
        }
    }

    /// Puts in all who are gone, in a sequence.
    pub(crate) fn recreate(&mut self, alloc: Global, sequence: Sequence) -> Result<(), AllocError> {
        self.sort_gone(alloc, sequence)?;
        for index in 0..self.gone.len() {
            if let Some(customer) = self.gone.get(index).copied() {
                self.insert(alloc, customer)?;
            }
        }
        Ok(())
    }

    /// Sorts those who are gone.
    fn sort_gone(&mut self, alloc: Global, sequence: Sequence) -> Result<(), AllocError> {
        let mut keys = Vec::with_capacity(alloc, self.gone.len())?;
        for index in 0..self.gone.len() {
            if let Some(customer) = self.gone.get(index).copied() {
                keys.push((self.key(sequence, customer), customer))?;
            }
        }
        keys.sort()?;
        self.gone.clear();
        for (_, customer) in &keys {
            self.gone.push(*customer)?;
        }
        Ok(())
    }

    /// By what a customer is sorted.
    fn key(&mut self, sequence: Sequence, customer: usize) -> u64 {
        let ground = &self.costs.ground;
        match sequence {
            Sequence::Random => u64::from(self.chance.word()),
            Sequence::FarthestFirst => {
                NEVER.saturating_sub(there_and_back(ground, ground.depot, customer))
            }
            Sequence::NearestFirst => there_and_back(ground, ground.depot, customer),
            Sequence::DearestFirst => {
                NEVER.saturating_sub(self.alone(customer).unwrap_or(NEVER))
            }
        }
    }

    /// Puts a customer where the cost rises least, if there is a place.
    fn insert(&mut self, alloc: Global, customer: usize) -> Result<(), AllocError> {
        if self.fleet.tour_of(customer).is_some() {
            return Ok(());
        }
        let choice = self.best_place(customer)?;
        let at = match choice.target {
            Target::Nowhere => return self.insert_pair(alloc, customer),
            Target::Alone => Place {
                tour: self.fleet.free_tour(alloc, &self.costs.ground)?,
                place: 0,
            },
            Target::At(at) => at,
        };
        self.fleet.put(
            alloc,
            &self.costs.ground,
            &self.toll,
            at,
            customer,
            choice.time,
        )
    }

    /// The best place for a customer, on a route of those near him or on one of his own.
    fn best_place(&mut self, customer: usize) -> Result<Choice, AllocError> {
        let mut choice = Choice::alone(self.alone(customer));
        self.looks = self.looks.wrapping_add(1);
        for place in 1..=MOST_NEAR {
            let Some(other) = self.near(customer, place) else {
                break;
            };
            if let Some(number) = self.fleet.tour_of(other) {
                if self.is_new_look(number)? {
                    self.look_at(number, customer, &mut choice);
                }
            }
        }
        for _ in 0..MOST_CHARGES {
            let Some(candidate) = choice.take() else {
                break;
            };
            self.charge(customer, candidate, &mut choice)?;
        }
        Ok(choice)
    }

    /// Whether a route wasn't looked at in this look.
    fn is_new_look(&mut self, number: usize) -> Result<bool, AllocError> {
        for _ in self.looked.len()..=number {
            self.looked.push(0)?;
        }
        match self.looked.get_mut(number) {
            Some(look) if *look != self.looks => {
                *look = self.looks;
                Ok(true)
            }
            _ => Ok(false),
        }
    }

    /// Looks at the places of a route.
    fn look_at(&mut self, number: usize, customer: usize, choice: &mut Choice) {
        let Some(tour) = self.fleet.tour(number) else {
            return;
        };
        let places = choice.look(
            &self.costs.ground,
            &self.toll,
            &mut self.chance,
            number,
            tour,
            customer,
        );
        self.places = self.places.wrapping_add(places);
    }

    /// Charges a route with a customer at a candidate's place.
    fn charge(
        &mut self,
        customer: usize,
        candidate: Candidate,
        choice: &mut Choice,
    ) -> Result<(), AllocError> {
        let at = candidate.at;
        let Some(tour) = self.fleet.tour(at.tour) else {
            return Ok(());
        };
        let place = at.place.min(tour.order.len());
        self.trial.clear();
        self.trial
            .extend_from_slice(tour.order.get(..place).unwrap_or(&[]))?;
        self.trial.push(customer)?;
        self.trial
            .extend_from_slice(tour.order.get(place..).unwrap_or(&[]))?;
        let bar = choice.bar(&self.toll, tour);
        if let Some(time) = self.costs.time_below(&self.trial, bar)? {
            choice.improve(&self.toll, tour, at, time);
        }
        Ok(())
    }

    /// Puts a customer for whom there is no place on a route together with another who isn't
    /// served, if there is one.
    fn insert_pair(&mut self, alloc: Global, customer: usize) -> Result<(), AllocError> {
        let mut best = None;
        for place in 1..=MOST_PARTNERS {
            let Some(other) = self.near(customer, place) else {
                break;
            };
            if self.fleet.tour_of(other).is_none() {
                best = self.faster_pair(best, customer, other)?;
                best = self.faster_pair(best, other, customer)?;
            }
        }
        match best {
            Some(pair) => self.put_pair(alloc, pair),
            None => Ok(()),
        }
    }

    /// Of a pair and two customers in order the pair that takes less time, if there is one.
    fn faster_pair(
        &mut self,
        best: Option<Pair>,
        first: usize,
        second: usize,
    ) -> Result<Option<Pair>, AllocError> {
        let bar = match best {
            Some(pair) => pair.time,
            None => self.toll.end(),
        };
        match self.costs.time_below(&[first, second], bar)? {
            Some(time) => Ok(Some(Pair {
                first,
                second,
                time,
            })),
            None => Ok(best),
        }
    }

    /// Puts a pair on a route of its own.
    fn put_pair(&mut self, alloc: Global, pair: Pair) -> Result<(), AllocError> {
        let tour = self.fleet.free_tour(alloc, &self.costs.ground)?;
        let (front, back) = (Place { tour, place: 0 }, Place { tour, place: 1 });
        let ground = &self.costs.ground;
        self.fleet
            .put(alloc, ground, &self.toll, front, pair.first, pair.time)?;
        self.fleet
            .put(alloc, ground, &self.toll, back, pair.second, pair.time)
    }
}
