//! The arcs on from a place, as the table takes them. No clause rests on this.

ghost use Rattle.std.specs.Prelude.{◌≤◌, ◌^◌, unsigned_abs};

use crate::cells::narrow;
use crate::ground::{Arc, Ground};
use crate::terms::{Last, NearTerms};
use std::alloc::{AllocError, Global};

/// An arc on.
#[derive(Clone, Copy)]
pub(crate) struct Leg {
    /// By so many layers the time left falls; the greatest number where the arc may not be taken.
    pub(crate) down: usize,
    /// What it takes, less what the customer at its end earns.
    pub(crate) exact: i64,
    /// The same in units, rounded down.
    pub(crate) cost: i32,
}

/// The arcs on from a place with a class of those served last.
#[derive(Drop)]
pub(crate) struct Legs {
    /// The customer at the place.
    pub(crate) own: Option<usize>,
    /// To the customers, by number.
    pub(crate) customers: Vec<Leg>,
    /// To the stations, in order.
    pub(crate) stations: Vec<Leg>,
    pub(crate) home: Leg,
}

/// The arcs on from all places but the depot.
#[derive(Drop)]
pub(crate) struct AllLegs {
    /// From the customers, by number.
    pub(crate) customers: Vec<Legs>,
    /// From the stations, by class and in order.
    pub(crate) stations: Vec<Vec<Legs>>,
}

/// An arc that may not be taken.
const NO_LEG: Leg = Leg {
    down: usize::MAX,
    exact: 0,
    cost: 0,
};

impl AllLegs {
    /// The arcs by layers of so much time; `None` where what they earn or take doesn't fit.
    pub(crate) fn new(
        alloc: Global,
        ground: &Ground,
        terms: &NearTerms,
        step: u64,
    ) -> Result<Option<AllLegs>, AllocError> {
        let maker = LegMaker {
            ground,
            terms,
            step,
        };
        let Some(customers) = maker.from_customers(alloc)? else {
            return Ok(None);
        };
        let mut stations = Vec::with_capacity(alloc, terms.classes())?;
        for class in 0..terms.classes() {
            match maker.from_stations(alloc, class)? {
                Some(legs) => stations.push(legs)?,
                None => return Ok(None),
            }
        }
        Ok(Some(AllLegs {
            customers,
            stations,
        }))
    }

    /// The most that a layer of an arc earns, and the most that an arc earns.
    pub(crate) fn most_earned(&self) -> (u64, u64) {
        let mut most = (0, 0);
        for legs in &self.customers {
            most = greater(most, legs.most_earned());
        }
        for class in &self.stations {
            for legs in class {
                most = greater(most, legs.most_earned());
            }
        }
        most
    }

    /// Takes what arcs cost in units.
    pub(crate) fn scale(&mut self, unit: u32) {
        for legs in self.customers.iter_mut() {
            legs.scale(unit);
        }
        for class in self.stations.iter_mut() {
            for legs in class.iter_mut() {
                legs.scale(unit);
            }
        }
    }
}

/// The greater of both numbers, one by one.
fn greater(one: (u64, u64), other: (u64, u64)) -> (u64, u64) {
    (one.0.max(other.0), one.1.max(other.1))
}

impl Legs {
    /// The most that a layer of an arc earns, and the most that an arc earns.
    fn most_earned(&self) -> (u64, u64) {
        let mut most = (0, 0);
        for leg in &self.customers {
            if leg.exact < 0 {
                let earned = leg.exact.unsigned_abs();
                let layers = (leg.down as u64).max(1);
                most = greater(most, (earned / layers, earned));
            }
        }
        most
    }

    /// Takes what arcs cost in units.
    fn scale(&mut self, unit: u32) {
        for leg in self.customers.iter_mut() {
            leg.cost = in_units(leg.exact, unit);
        }
        for leg in self.stations.iter_mut() {
            leg.cost = in_units(leg.exact, unit);
        }
        self.home.cost = in_units(self.home.exact, unit);
    }
}

/// A number in units, rounded down.
fn in_units(number: i64, unit: u32) -> i32 {
    let units = i128::from(number).div_euclid(i128::from(unit.max(1)));
    narrow(units)
}

/// What arcs are made of.
#[derive(Clone, Copy)]
struct LegMaker<'g, 't> {
    ground: &'g Ground,
    terms: &'t NearTerms,
    step: u64,
}

impl LegMaker<'_, '_> {
    /// The arcs from all customers.
    fn from_customers(&self, alloc: Global) -> Result<Option<Vec<Legs>>, AllocError> {
        let mut all = Vec::with_capacity(alloc, self.ground.customers())?;
        for customer in 0..self.ground.customers() {
            let class = self.terms.class_of(Last::Customer(customer));
            match self.legs_from(alloc, customer, class)? {
                Some(legs) => all.push(legs)?,
                None => return Ok(None),
            }
        }
        Ok(Some(all))
    }

    /// The arcs from all stations after a class.
    fn from_stations(&self, alloc: Global, class: usize) -> Result<Option<Vec<Legs>>, AllocError> {
        let mut all = Vec::new(alloc);
        for place in self.ground.customers()..self.ground.depot() {
            match self.legs_from(alloc, place, class)? {
                Some(legs) => all.push(legs)?,
                None => return Ok(None),
            }
        }
        Ok(Some(all))
    }

    /// The arcs from a place after a class.
    fn legs_from(
        &self,
        alloc: Global,
        place: usize,
        class: usize,
    ) -> Result<Option<Legs>, AllocError> {
        let customers = self.ground.customers();
        let mut to_customers = Vec::with_capacity(alloc, customers)?;
        let mut to_stations = Vec::new(alloc);
        for to in 0..self.ground.depot() {
            let Some(leg) = self.leg_to(place, class, to) else {
                return Ok(None);
            };
            if to < customers {
                to_customers.push(leg)?;
            } else {
                to_stations.push(leg)?;
            }
        }
        let Some(home) = self.leg_home(place, class) else {
            return Ok(None);
        };
        Ok(Some(Legs {
            own: if place < customers { Some(place) } else { None },
            customers: to_customers,
            stations: to_stations,
            home,
        }))
    }

    /// The arc to a place after a class; `None` where what it takes doesn't fit.
    fn leg_to(&self, from: usize, class: usize, to: usize) -> Option<Leg> {
        let Some(arc) = self.ground.arc(from, to) else {
            return Some(NO_LEG);
        };
        if !self.ground.is_customer(to) {
            return self.leg(arc, 0);
        }
        if !self.terms.may_follow(class, to) {
            return Some(NO_LEG);
        }
        self.leg(arc, self.terms.gain(class, to))
    }

    /// The arc home after a class; `None` where what it takes doesn't fit.
    fn leg_home(&self, place: usize, class: usize) -> Option<Leg> {
        match self.ground.way_home(place) {
            Some((_, arc)) if self.terms.may_end(class) => self.leg(arc, 0),
            _ => Some(NO_LEG),
        }
    }

    /// An arc at whose end so much is earned; `None` where what it takes doesn't fit.
    fn leg(&self, arc: Arc, earned: i128) -> Option<Leg>
        requires { unsigned_abs earned ≤ 2 ^ 64 }
    {
        let paid = i128::from(self.terms.weight()) * i128::from(arc.cost);
        let exact = i64::try_from(paid - earned).ok()?;
        Some(Leg {
            down: (arc.cost / self.step.max(1)) as usize,
            exact,
            cost: 0,
        })
    }
}
