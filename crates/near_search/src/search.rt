//! The search for near routes that earn more by prices than they take. No clause rests on this.

use crate::clock::SearchClock;
use crate::costs::{bar, later, owing, weighted, with_rest};
use crate::entries::{Comparison, reduced};
use crate::labels::{NearLabel, NearLabels, Origin};
use crate::query::{NearQuery, Passage, Standing};
use crate::route::{NearFound, NearRoute, SearchEnd};
use crate::state::NearState;
use dominance::LabelValue;
use near_completion::WayTable;
use piece_fn::PieceFn;
use std::alloc::{AllocError, Global};

/// The clock is asked after so many labels.
const LABELS_A_LOOK: usize = 64;

/// Which label is taken next.
#[derive(Clone, Copy, Debug, PartialEq, Eq)]
pub enum Order {
    /// The earliest.
    ByTime,
    /// That of the least bound by the table.
    ByBound,
}

/// What a search aims at.
#[derive(Clone, Copy)]
pub struct Aim {
    pub comparison: Comparison,
    pub order: Order,
    /// Routes are of use whose weighted time less what is earned is below it.
    pub slack: i64,
    /// So many routes are enough.
    pub most_routes: usize,
    /// So many labels are too many.
    pub most_labels: usize,
}

/// A route that was found: its reduced cost, its label, and what it takes.
#[derive(Clone, Copy)]
struct Found {
    reduced: i64,
    label: usize,
    time: u64,
}

/// A search.
#[derive(Drop)]
struct NearRouteSearch<'q, 'a> {
    query: &'q NearQuery<'a>,
    aim: Aim,
    labels: NearLabels,
    found: Vec<Found>,
    /// Whether a label was left out since its numbers didn't fit.
    is_cut: bool,
}

/// A label from which steps are made.
#[derive(Clone, Copy)]
struct From {
    number: usize,
    standing: Standing,
    lateness: i64,
}

/// Searches for near routes whose reduced cost is below a slack, those of least first. The only
/// `Err` is want of memory.
pub fn search_routes<C: SearchClock>(
    alloc: Global,
    query: &NearQuery<'_>,
    aim: &Aim,
    clock: &mut C,
) -> Result<NearFound, AllocError> {
    let mut search = NearRouteSearch {
        query,
        aim: *aim,
        labels: NearLabels::new(alloc, query, aim.comparison)?,
        found: Vec::new(alloc),
        is_cut: false,
    };
    search.put_start(alloc)?;
    let end = search.run(alloc, clock)?;
    search.finish(alloc, end)
}

impl NearRouteSearch<'_, '_> {
    /// Lets the start wait.
    fn put_start(&mut self, alloc: Global) -> Result<(), AllocError> {
        let state = self.query.start(alloc);
        match self.query.lateness(&state.value) {
            Some(lateness) => self.put(state, lateness, Origin::Start, i64::MIN),
            None => {
                self.is_cut = true;
                Ok(())
            }
        }
    }

    /// Makes the steps from the labels that wait until none waits, enough routes are found, or
    /// there are too many labels, or the time is up.
    fn run<C: SearchClock>(
        &mut self,
        alloc: Global,
        clock: &mut C,
    ) -> Result<SearchEnd, AllocError> {
        for turn in 0..self.aim.most_labels {
            if turn % LABELS_A_LOOK == 0 && clock.is_up() {
                return Ok(SearchEnd::Stopped);
            }
            let Some(number) = self.labels.take() else {
                return Ok(self.end_of_all());
            };
            self.settle(alloc, number)?;
            if self.found.len() >= self.aim.most_routes {
                return Ok(SearchEnd::Enough);
            }
            if self.labels.all().len() >= self.aim.most_labels {
                return Ok(SearchEnd::Full);
            }
        }
        Ok(SearchEnd::Full)
    }

    /// How a search ends when no label waits.
    fn end_of_all(&self) -> SearchEnd {
        if self.is_cut {
            SearchEnd::Full
        } else {
            SearchEnd::Whole
        }
    }

    /// Makes the steps from a label, and looks home.
    fn settle(&mut self, alloc: Global, number: usize) -> Result<(), AllocError> {
        let Some(label) = self.labels.all().get(number) else {
            return Ok(());
        };
        let from = From {
            number,
            standing: label.state.standing(),
            lateness: label.lateness,
        };
        self.go_on(alloc, &from)?;
        self.look_home(number)
    }

    /// Makes the steps from a label, but for those by which no way home earns.
    fn go_on(&mut self, alloc: Global, from: &From) -> Result<(), AllocError> {
        if let Some(table) = self.query.table() {
            let bounds = self.bounds(table, from);
            if !bounds.is_empty() {
                let bar = self.bar(table, from);
                for (to, bound) in bounds.iter().enumerate() {
                    if i128::from(*bound) <= bar {
                        self.go(alloc, from, to)?;
                    }
                }
                return Ok(());
            }
        }
        for to in 0..self.query.ground().depot() {
            self.go(alloc, from, to)?;
        }
        Ok(())
    }

    /// The bounds by the first step from a label; none where the table has none.
    fn bounds<'t>(&self, table: &'t WayTable, from: &From) -> &'t [i32] {
        match table.layer(from.lateness) {
            Some(layer) => table.row(from.standing.place, from.standing.class, layer),
            None => &[],
        }
    }

    /// What bounds of a label's ways home are at the most, in units, that may be of use.
    fn bar(&self, table: &WayTable, from: &From) -> i128 {
        let weight = self.query.terms().weight();
        let owing = owing(weighted(weight, from.lateness), from.standing.earned);
        bar(self.aim.slack, owing, table.unit())
    }

    /// Notes the route of a label, where it takes little enough.
    fn look_home(&mut self, number: usize) -> Result<(), AllocError> {
        let Some(label) = self.labels.all().get(number) else {
            return Ok(());
        };
        let Some(time) = self.query.home_time(&label.state) else {
            return Ok(());
        };
        let Ok(late) = i64::try_from(time) else {
            self.is_cut = true;
            return Ok(());
        };
        let Some(reduced) = reduced(self.query.terms(), late, label.state.earned) else {
            self.is_cut = true;
            return Ok(());
        };
        if reduced < self.aim.slack {
            self.found.push(Found {
                reduced,
                label: number,
                time,
            })?;
        }
        Ok(())
    }

    /// Lets the labels wait that a step from a label to a place leads to.
    fn go(&mut self, alloc: Global, from: &From, to: usize) -> Result<(), AllocError> {
        let Some(arc) = self.query.ground().arc(from.standing.place, to) else {
            return Ok(());
        };
        let behind = match self.query.passage(&from.standing, to) {
            Passage::Open(behind) => behind,
            Passage::Closed => return Ok(()),
            Passage::TooWide => {
                self.is_cut = true;
                return Ok(());
            }
        };
        if let Some(late) = later(from.lateness, arc.cost) {
            if self.is_beyond(&behind, late) {
                return Ok(());
            }
        }
        if self.query.ground().is_customer(to) {
            self.serve(from, behind)
        } else {
            self.stay(alloc, from, behind)
        }
    }

    /// Lets the label wait that is had by serving a customer.
    fn serve(&mut self, from: &From, behind: Standing) -> Result<(), AllocError> {
        let Some(label) = self.labels.all().get(from.number) else {
            return Ok(());
        };
        let ground = self.query.ground();
        let least = ground.need(behind.place).max(ground.reserve());
        let place = from.standing.place;
        match self
            .query
            .arrival(&label.state.value, place, behind.place, least)?
        {
            Some(value) => self.add(from.number, behind.with_value(value)),
            None => Ok(()),
        }
    }

    /// Lets the labels wait that are had by a stay at a station.
    fn stay(&mut self, alloc: Global, from: &From, behind: Standing) -> Result<(), AllocError> {
        let Some(label) = self.labels.all().get(from.number) else {
            return Ok(());
        };
        let place = from.standing.place;
        let values = self
            .query
            .stay(alloc, &label.state.value, place, behind.place)?;
        self.add_all(from.number, &behind, values)
    }

    /// Lets labels with these values wait. Those that charge come first, since they mostly cover
    /// the one that passes through.
    fn add_all(
        &mut self,
        number: usize,
        behind: &Standing,
        mut values: Vec<PieceFn>,
    ) -> Result<(), AllocError> {
        for _ in 0..values.len() {
            let Some(value) = values.pop() else {
                break;
            };
            self.add_able(number, behind, value)?;
        }
        Ok(())
    }

    /// Lets a label wait with those levels of a value with which a vehicle can go on.
    fn add_able(
        &mut self,
        number: usize,
        behind: &Standing,
        value: PieceFn,
    ) -> Result<(), AllocError> {
        match self.query.able(value, behind.place)? {
            Some(value) => self.add(number, behind.with_value(value)),
            None => Ok(()),
        }
    }

    /// Lets a label wait, where it is of use.
    fn add(&mut self, parent: usize, state: NearState) -> Result<(), AllocError> {
        let Some(lateness) = self.query.lateness(&state.value) else {
            self.is_cut = true;
            return Ok(());
        };
        let standing = state.standing();
        let bound = self.bound(&standing, lateness);
        if self.is_past(bound) || self.labels.cover(self.query.terms(), &state, lateness)? {
            return Ok(());
        }
        let key = match self.aim.order {
            Order::ByTime => None,
            Order::ByBound => bound.cost(),
        };
        let (_, early) = state.value.least();
        let key = key.unwrap_or(i64::try_from(early).unwrap_or(i64::MAX));
        self.put(state, lateness, Origin::Behind(parent), key)
    }

    /// Puts a label, which waits by a key.
    fn put(
        &mut self,
        state: NearState,
        lateness: i64,
        origin: Origin,
        key: i64,
    ) -> Result<(), AllocError> {
        let label = NearLabel {
            state,
            lateness,
            origin,
            is_dead: false,
        };
        let number = self.labels.insert(self.query.terms(), label, Some(key))?;
        if number.is_none() {
            self.is_cut = true;
        }
        Ok(())
    }

    /// Whether no way home from a vehicle earns.
    fn is_beyond(&self, standing: &Standing, lateness: i64) -> bool {
        self.is_past(self.bound(standing, lateness))
    }

    /// Whether a bound is of no use.
    fn is_past(&self, bound: Bound) -> bool {
        match bound {
            Bound::Unknown => false,
            Bound::Late => true,
            Bound::Cost(cost) => cost >= i128::from(self.aim.slack),
        }
    }

    /// What the ways home from a vehicle take at the least beyond what is earned.
    fn bound(&self, standing: &Standing, lateness: i64) -> Bound {
        let Some(table) = self.query.table() else {
            return Bound::Unknown;
        };
        let Some(layer) = table.layer(lateness) else {
            return Bound::Late;
        };
        match table.rest(standing.place, standing.class, layer, standing.memory) {
            Some(rest) => {
                let weight = self.query.terms().weight();
                let owing = owing(weighted(weight, lateness), standing.earned);
                Bound::Cost(with_rest(owing, rest.least))
            }
            None => Bound::Unknown,
        }
    }

    /// What was found.
    fn finish(mut self, alloc: Global, end: SearchEnd) -> Result<NearFound, AllocError> {
        self.found
            .sort_by_key(|route| (route.reduced, route.label))?;
        let mut routes = Vec::with_capacity(alloc, self.found.len())?;
        for found in &self.found {
            let places = self.places_of(alloc, found.label)?;
            let ground = self.query.ground();
            routes.push(NearRoute::new(ground, places, found.time, found.reduced))?;
        }
        Ok(NearFound {
            routes,
            end,
            labels: self.labels.all().len(),
        })
    }

    /// The places that a label has passed, in order.
    fn places_of(&self, alloc: Global, number: usize) -> Result<Vec<usize>, AllocError> {
        let mut places = Vec::new(alloc);
        let mut at = number;
        for _ in 0..self.labels.all().len() {
            let Some(label) = self.labels.all().get(at) else {
                break;
            };
            let Origin::Behind(parent) = label.origin else {
                break;
            };
            places.push(label.state.place)?;
            at = parent;
        }
        places.reverse();
        Ok(places)
    }
}

/// What the ways home from a vehicle take at the least beyond what is earned.
#[derive(Clone, Copy)]
enum Bound {
    /// There is no table.
    Unknown,
    /// No way home is in time.
    Late,
    Cost(i128),
}

impl Bound {
    /// The cost, where it fits.
    fn cost(self) -> Option<i64> {
        match self {
            Bound::Cost(cost) => i64::try_from(cost).ok(),
            _ => None,
        }
    }
}
