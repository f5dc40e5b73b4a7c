//! The cells of a table: the least of ways home. No clause rests on this.

use crate::follow::is_in;
use crate::legs::{Leg, Legs};
use crate::terms::NearTerms;
use customer_sets::LargeSet;

/// What the ways home from a place in a layer take at the least beyond what they earn, in units.
#[derive(Clone, Copy)]
pub(crate) struct Cell {
    /// That of all ways that don't go back to the customer at the place.
    pub(crate) best: i32,
    /// That of ways without `known`.
    pub(crate) second: i32,
    /// The first customer of a best way.
    pub(crate) known: Whom,
    /// The first customers of the best way and of the second, where they came by further stations.
    first: Whom,
    next: Whom,
}

/// A customer in few bits, or nobody.
#[derive(Clone, Copy, Debug, PartialEq, Eq)]
pub(crate) struct Whom {
    number: u16,
}

/// There is no way.
pub(crate) const NO_WAY: i32 = i32::MAX;

/// The least of some ways, and the first customer of one that takes that.
#[derive(Clone, Copy)]
struct Least {
    bound: i32,
    first: Whom,
}

impl Whom {
    /// Nobody.
    const NOBODY: Whom = Whom { number: u16::MAX };

    /// The customer with a number, nobody where it doesn't fit.
    fn of(customer: Option<usize>) -> Whom {
        match customer {
            Some(customer) => Whom {
                number: u16::try_from(customer).unwrap_or(u16::MAX),
            },
            None => Whom::NOBODY,
        }
    }

    /// Whether it is a customer, and another one is the same.
    fn is_also(self, other: Whom) -> bool {
        self.number != u16::MAX && self.number == other.number
    }

    /// His number, if it is a customer.
    pub(crate) fn number(self) -> Option<usize> {
        if self.number == u16::MAX {
            None
        } else {
            Some(usize::from(self.number))
        }
    }
}

/// A number in 32 bits, the nearest of those where it doesn't fit.
pub(crate) fn narrow(number: i128) -> i32 {
    number.clamp(-2_147_483_648, 2_147_483_647) as i32
}

/// The sum of both in 32 bits, the nearest of those where it doesn't fit.
fn sum(one: i32, other: i32) -> i32 {
    (i64::from(one) + i64::from(other)).clamp(-2_147_483_648, 2_147_483_647) as i32
}

/// What is known of ways that begin at a customer, or at a station, in the layers below.
#[derive(Clone, Copy)]
pub(crate) struct Ahead<'c> {
    pub(crate) customers: &'c [Vec<Cell>],
    pub(crate) stations: &'c [Vec<Cell>],
}

/// The least of the ways by each arc from a place that don't go back to the customer there: to
/// customers, by number, and to stations, in order.
#[derive(Drop)]
pub(crate) struct Bounds<'w> {
    pub(crate) customers: &'w mut [i32],
    pub(crate) stations: &'w mut [i32],
}

impl Ahead<'_> {
    /// Reckons the ways by all arcs from a place in a layer, and its cell. `stranded` is what a
    /// vehicle takes that has none.
    pub(crate) fn cell(
        &self,
        terms: &NearTerms,
        legs: &Legs,
        layer: usize,
        stranded: i32,
        bounds: &mut Bounds<'_>,
    ) -> Cell {
        let start = Least {
            bound: if legs.home.down <= layer {
                stranded.min(legs.home.cost)
            } else {
                stranded
            },
            first: Whom::NOBODY,
        };
        let best = self.to_customers(terms, legs, layer, start, bounds.customers);
        let best = self.to_stations(legs, layer, best, bounds.stations);
        let mut second = start;
        if best.first == Whom::NOBODY {
            second.bound = best.bound;
        } else {
            second = self.customers_without(
                terms,
                legs,
                layer,
                best.first,
                second,
                bounds.customers,
            );
            second = self.stations_without(legs, layer, best.first, second, bounds.stations);
        }
        Cell {
            best: best.bound,
            second: second.bound,
            known: best.first,
            first: best.first,
            next: second.first,
        }
    }

    /// Reckons the ways by arcs to customers. The least of them and of what is known.
    fn to_customers(
        &self,
        terms: &NearTerms,
        legs: &Legs,
        layer: usize,
        start: Least,
        bounds: &mut [i32],
    ) -> Least {
        let own = Whom::of(legs.own);
        let mut least = start;
        let ways = legs.customers.iter().zip(self.customers);
        for (customer, ((leg, cells), bound)) in ways.zip(bounds.iter_mut()).enumerate() {
            *bound = NO_WAY;
            if let Some(cell) = behind(leg, cells, layer) {
                let keeps_own = own.is_also(cell.known) && remembers(terms, customer, own);
                let rest = if keeps_own { cell.second } else { cell.best };
                *bound = sum(leg.cost, rest);
                if *bound < least.bound {
                    least = Least {
                        bound: *bound,
                        first: Whom::of(Some(customer)),
                    };
                }
            }
        }
        least
    }

    /// Reckons the ways by arcs to stations, where whom one remembers stays. The least of them and
    /// of what is known.
    fn to_stations(&self, legs: &Legs, layer: usize, start: Least, bounds: &mut [i32]) -> Least {
        let own = Whom::of(legs.own);
        let mut least = start;
        let ways = legs.stations.iter().zip(self.stations);
        for ((leg, cells), bound) in ways.zip(bounds.iter_mut()) {
            *bound = NO_WAY;
            if let Some(cell) = behind(leg, cells, layer) {
                let keeps_own = own.is_also(cell.known);
                let (rest, first) = without(cell, keeps_own);
                *bound = sum(leg.cost, rest);
                if *bound < least.bound {
                    least = Least {
                        bound: *bound,
                        first,
                    };
                }
            }
        }
        least
    }

    /// The least of ways to customers that leave one out, and of what is known.
    fn customers_without(
        &self,
        terms: &NearTerms,
        legs: &Legs,
        layer: usize,
        known: Whom,
        start: Least,
        bounds: &[i32],
    ) -> Least {
        let mut least = start;
        for (customer, bound) in bounds.iter().enumerate() {
            if *bound >= least.bound || known.number() == Some(customer) {
                continue;
            }
            let mut bound = *bound;
            if let Some((leg, cell)) = arc_to(&legs.customers, self.customers, layer, customer) {
                if known.is_also(cell.known) && remembers(terms, customer, known) {
                    bound = sum(leg.cost, cell.second);
                }
            }
            if bound < least.bound {
                least = Least {
                    bound,
                    first: Whom::of(Some(customer)),
                };
            }
        }
        least
    }

    /// The least of ways to stations that leave a customer out, and of what is known.
    fn stations_without(
        &self,
        legs: &Legs,
        layer: usize,
        known: Whom,
        start: Least,
        bounds: &[i32],
    ) -> Least {
        let own = Whom::of(legs.own);
        let mut least = start;
        for (station, bound) in bounds.iter().enumerate() {
            if *bound >= least.bound {
                continue;
            }
            if let Some((leg, cell)) = arc_to(&legs.stations, self.stations, layer, station) {
                let keeps = known.is_also(cell.known) || own.is_also(cell.known);
                let (rest, first) = without(&cell, keeps);
                let bound = sum(leg.cost, rest);
                if bound < least.bound {
                    least = Least { bound, first };
                }
            }
        }
        least
    }
}

/// What is known of the ways that begin where an arc leads to, in the layer there. There is nothing
/// where it may not be taken, or that layer isn't made yet.
fn behind<'c>(leg: &Leg, cells: &'c [Cell], layer: usize) -> Option<&'c Cell> {
    cells.get(layer.checked_sub(leg.down)?)
}

/// The arc to a place, and what is known of the ways that begin there.
fn arc_to(legs: &[Leg], cells: &[Vec<Cell>], layer: usize, to: usize) -> Option<(Leg, Cell)> {
    let leg = legs.get(to)?;
    let cell = behind(leg, cells.get(to)?, layer)?;
    Some((*leg, *cell))
}

/// The least of the ways from a cell, without the customer that it knows or with him, and their
/// first customer.
fn without(cell: &Cell, is_without: bool) -> (i32, Whom) {
    if is_without {
        (cell.second, cell.next)
    } else {
        (cell.best, cell.first)
    }
}

/// Whether a vehicle that serves a customer goes on to remember another one.
fn remembers(terms: &NearTerms, customer: usize, other: Whom) -> bool {
    match other.number() {
        Some(other) => is_in(terms.near(customer), other),
        None => false,
    }
}

/// Lets the cells of stations in a layer reckon with ways by arcs to each other within the layer,
/// until none of them falls. Whom they know stays.
pub(crate) fn settle(cells: &mut [Cell], legs: &[Legs]) {
    for _ in 0..cells.len() {
        let mut falls = false;
        for (station, row) in legs.iter().enumerate() {
            falls = settle_one(cells, row, station) || falls;
        }
        if !falls {
            return;
        }
    }
}

/// The same for one of them. Whether it falls.
fn settle_one(cells: &mut [Cell], legs: &Legs, station: usize) -> bool {
    let Some(before) = cells.get(station).copied() else {
        return false;
    };
    let mut after = before;
    for (leg, cell) in legs.stations.iter().zip(cells.iter()) {
        if leg.down == 0 {
            after = lowered(after, *leg, *cell);
        }
    }
    if let Some(own) = cells.get_mut(station) {
        *own = after;
    }
    after.best < before.best || after.second < before.second
}

/// A cell that reckons with ways by an arc to a station with another one.
fn lowered(own: Cell, leg: Leg, cell: Cell) -> Cell {
    let mut after = own;
    let best = sum(leg.cost, cell.best);
    if best < own.best {
        after.best = best;
        after.first = cell.first;
    }
    let keeps = own.known.is_also(cell.known);
    let (rest, first) = without(&cell, keeps);
    let second = sum(leg.cost, rest);
    if second < own.second {
        after.second = second;
        after.next = first;
    }
    after
}

impl Cell {
    /// The least of ways without those in a memory, or less; and whom of them it leaves out.
    pub(crate) fn without(&self, memory: LargeSet) -> (i32, Option<usize>) {
        match self.known.number() {
            Some(known) if is_in(memory, known) => (self.second, Some(known)),
            _ => (self.best, None),
        }
    }
}
