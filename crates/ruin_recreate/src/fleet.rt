//! The routes of a search, who is served by which, and what was changed last.

use crate::ground::Ground;
use crate::toll::Toll;
use crate::tours::{Sums, Tour};
use std::alloc::{AllocError, Global};

/// What it costs that a customer is not served.
const UNSERVED: u64 = 1 << 52;

/// A route as it was.
#[derive(Drop)]
struct Old {
    number: usize,
    tour: Tour,
}

/// Routes, who is served by which, and what was changed since the last turn began.
#[derive(Drop)]
pub(crate) struct Fleet {
    pub(crate) tours: Vec<Tour>,
    /// The route that serves each customer, by number.
    tour_of: Vec<Option<usize>>,
    /// What the routes cost together.
    cost: u64,
    /// How many customers are served by none.
    unserved: u64,
    /// The routes as they were before they were changed.
    old: Vec<Old>,
    is_touched: Vec<bool>,
    cost_before: u64,
}

impl Fleet {
    /// Nobody is served.
    pub(crate) fn new(alloc: Global, customers: usize) -> Result<Fleet, AllocError> {
        Ok(Fleet {
            tours: Vec::new(alloc),
            tour_of: vec![in alloc; None; customers]?,
            cost: 0,
            unserved: customers as u64,
            old: Vec::new(alloc),
            is_touched: Vec::new(alloc),
            cost_before: 0,
        })
    }

    /// The route that serves a customer.
    pub(crate) fn tour_of(&self, customer: usize) -> Option<usize> {
        self.tour_of.get(customer).copied().flatten()
    }

    /// The route with a number.
    pub(crate) fn tour(&self, number: usize) -> Option<&Tour> {
        self.tours.get(number)
    }

    /// What the routes cost, with what it costs that customers aren't served.
    pub(crate) fn cost(&self) -> u64 {
        self.cost.wrapping_add(self.unserved.wrapping_mul(UNSERVED))
    }

    /// Whether everybody is served.
    pub(crate) fn is_whole(&self) -> bool {
        self.unserved == 0
    }

    /// Whether all routes are within the limit.
    pub(crate) fn is_within(&self, toll: &Toll) -> bool {
        for tour in &self.tours {
            if !toll.is_within(tour.time) {
                return false;
            }
        }
        true
    }

    /// How many customers are served, and how many routes serve them.
    pub(crate) fn counts(&self) -> (usize, usize) {
        let mut routes: usize = 0;
        let mut customers: usize = 0;
        for tour in &self.tours {
            customers = customers.wrapping_add(tour.order.len());
            if !tour.order.is_empty() {
                routes = routes.wrapping_add(1);
            }
        }
        (customers, routes)
    }

    /// The number of a route that serves nobody: it is made where there is none.
    pub(crate) fn free_tour(
        &mut self,
        alloc: Global,
        ground: &Ground,
    ) -> Result<usize, AllocError> {
        for (number, tour) in self.tours.iter().enumerate() {
            if tour.order.is_empty() {
                return Ok(number);
            }
        }
        self.tours.push(Tour::empty(alloc, ground))?;
        self.is_touched.push(false)?;
        Ok(self.tours.len().saturating_sub(1))
    }

    /// Adds a route that serves these customers, where nobody serves them yet.
    pub(crate) fn add_tour(
        &mut self,
        alloc: Global,
        ground: &Ground,
        toll: &Toll,
        order: &[usize],
        time: u64,
    ) -> Result<(), AllocError> {
        let tour = self.free_tour(alloc, ground)?;
        for (place, customer) in order.iter().enumerate() {
            if self.tour_of(*customer).is_none() {
                self.put(alloc, ground, toll, Place { tour, place }, *customer, time)?;
            }
        }
        Ok(())
    }

    /// Whether a route was changed in this turn.
    pub(crate) fn is_touched(&self, number: usize) -> bool {
        self.is_touched.get(number).copied().unwrap_or(false)
    }

    /// Begins a turn: what is changed from now on may be undone.
    pub(crate) fn begin_turn(&mut self) {
        for old in &self.old {
            if let Some(mark) = self.is_touched.get_mut(old.number) {
                *mark = false;
            }
        }
        self.old.clear();
        self.cost_before = self.cost;
    }

    /// The numbers of the routes that were changed in this turn.
    pub(crate) fn touched(&self, alloc: Global) -> Result<Vec<usize>, AllocError> {
        let mut numbers = Vec::with_capacity(alloc, self.old.len())?;
        for old in &self.old {
            numbers.push(old.number)?;
        }
        Ok(numbers)
    }

    /// Remembers a route as it is, where it wasn't changed in this turn yet.
    pub(crate) fn touch(&mut self, alloc: Global, number: usize) -> Result<(), AllocError> {
        if self.is_touched(number) {
            return Ok(());
        }
        let Some(tour) = self.tours.get(number) else {
            return Ok(());
        };
        let tour = tour.copy(alloc)?;
        self.old.push(Old { number, tour })?;
        if let Some(mark) = self.is_touched.get_mut(number) {
            *mark = true;
        }
        Ok(())
    }

    /// Puts a customer at a place of a route, which takes this time then.
    pub(crate) fn put(
        &mut self,
        alloc: Global,
        ground: &Ground,
        toll: &Toll,
        at: Place,
        customer: usize,
        time: u64,
    ) -> Result<(), AllocError> {
        self.touch(alloc, at.tour)?;
        let Some(tour) = self.tours.get_mut(at.tour) else {
            return Ok(());
        };
        if at.place > tour.order.len() {
            return Ok(());
        }
        tour.order.insert(at.place, customer)?;
        self.cost = self.cost.wrapping_sub(tour.cost);
        tour.time = time;
        tour.cost = toll.cost(time);
        tour.sums = Sums::of(ground, &tour.order);
        self.cost = self.cost.wrapping_add(tour.cost);
        self.serve(customer, Some(at.tour));
        Ok(())
    }

    /// Lets a route keep these customers alone, in this order; it takes this time then.
    pub(crate) fn keep_only(
        &mut self,
        alloc: Global,
        ground: &Ground,
        toll: &Toll,
        number: usize,
        kept: &[usize],
        time: u64,
    ) -> Result<(), AllocError> {
        self.touch(alloc, number)?;
        let Some(tour) = self.tours.get_mut(number) else {
            return Ok(());
        };
        tour.order.clear();
        tour.order.extend_from_slice(kept)?;
        self.cost = self.cost.wrapping_sub(tour.cost);
        tour.time = time;
        tour.cost = toll.cost(time);
        tour.sums = Sums::of(ground, &tour.order);
        self.cost = self.cost.wrapping_add(tour.cost);
        Ok(())
    }

    /// Lets a customer be served by a route or by none.
    pub(crate) fn serve(&mut self, customer: usize, by: Option<usize>) {
        if let Some(own) = self.tour_of.get_mut(customer) {
            if own.is_none() && by.is_some() {
                self.unserved = self.unserved.wrapping_sub(1);
            } else if own.is_some() && by.is_none() {
                self.unserved = self.unserved.wrapping_add(1);
            }
            *own = by;
        }
    }

    /// Undoes what was changed in this turn, in which these customers were put in anew.
    pub(crate) fn undo(&mut self, gone: &[usize]) {
        for customer in gone {
            self.serve(*customer, None);
        }
        for _ in 0..self.old.len() {
            let Some(Old { number, tour }) = self.old.pop() else {
                break;
            };
            for place in 0..tour.order.len() {
                self.serve(tour.order[place], Some(number));
            }
            if let Some(mark) = self.is_touched.get_mut(number) {
                *mark = false;
            }
            if let Some(own) = self.tours.get_mut(number) {
                *own = tour;
            }
        }
        self.cost = self.cost_before;
    }

    /// Makes all costs anew, for another toll.
    pub(crate) fn pay_anew(&mut self, toll: &Toll) {
        self.cost = 0;
        for tour in self.tours.iter_mut() {
            tour.cost = toll.cost(tour.time);
            self.cost = self.cost.wrapping_add(tour.cost);
        }
    }

    /// The customers whom no route serves.
    pub(crate) fn add_unserved(&self, into: &mut Vec<usize>) -> Result<(), AllocError> {
        if self.unserved == 0 {
            return Ok(());
        }
        for (customer, tour) in self.tour_of.iter().enumerate() {
            if tour.is_none() {
                into.push(customer)?;
            }
        }
        Ok(())
    }

    /// The orders of the routes that serve somebody.
    pub(crate) fn orders(&self, alloc: Global) -> Result<Vec<Vec<usize>>, AllocError> {
        let mut orders = Vec::with_capacity(alloc, self.tours.len())?;
        for tour in &self.tours {
            if !tour.order.is_empty() {
                let mut order = Vec::with_capacity(alloc, tour.order.len())?;
                order.extend_from_slice(&tour.order)?;
                orders.push(order)?;
            }
        }
        Ok(orders)
    }
}

/// A place on a route.
#[derive(Clone, Copy)]
pub(crate) struct Place {
    pub(crate) tour: usize,
    pub(crate) place: usize,
}
