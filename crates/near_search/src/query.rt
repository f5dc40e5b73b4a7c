//! What near routes are searched by, and the steps of vehicles. No clause rests on this.

use crate::shelf::{GROUPS, Spread};
use crate::state::{NearState, bit, is_in};
use crate::values::{arrived, cut_to, left, time_from};
use customer_sets::LargeSet;
use instance_reader::Instance;
use near_completion::{Ground, Last, NearTerms, WayTable};
use piece_fn::PieceFn;
use std::alloc::{AllocError, Global};

/// What near routes are searched by.
#[derive(Drop)]
pub struct NearQuery<'a> {
    inst: &'a Instance,
    ground: &'a Ground,
    terms: &'a NearTerms,
    table: Option<&'a WayTable>,
    /// The members of the near sets, by customer.
    members: Vec<Vec<usize>>,
}

/// A vehicle on a near route, without its value.
#[derive(Clone, Copy)]
pub(crate) struct Standing {
    pub(crate) place: usize,
    pub(crate) class: usize,
    pub(crate) memory: LargeSet,
    pub(crate) folded: u64,
    pub(crate) earned: i64,
}

/// What comes of a step.
#[derive(Clone, Copy)]
pub(crate) enum Passage {
    /// It may not be made.
    Closed,
    /// Its numbers don't fit.
    TooWide,
    Open(Standing),
}

impl NearState {
    /// The state without its value.
    pub(crate) fn standing(&self) -> Standing {
        Standing {
            place: self.place,
            class: self.class,
            memory: self.memory,
            folded: self.folded,
            earned: self.earned,
        }
    }
}

impl Standing {
    /// The state with a value.
    pub(crate) fn with_value(&self, value: PieceFn) -> NearState {
        NearState {
            place: self.place,
            class: self.class,
            memory: self.memory,
            folded: self.folded,
            earned: self.earned,
            value,
        }
    }
}

impl<'a> NearQuery<'a> {
    /// A search over these places by these terms, and by a table made of them, if there is one.
    pub fn new(
        alloc: Global,
        inst: &'a Instance,
        ground: &'a Ground,
        terms: &'a NearTerms,
        table: Option<&'a WayTable>,
    ) -> Result<NearQuery<'a>, AllocError> {
        let mut members = Vec::with_capacity(alloc, terms.customers())?;
        for customer in 0..terms.customers() {
            members.push(members_of(alloc, terms.near(customer), terms.customers())?)?;
        }
        Ok(NearQuery {
            inst,
            ground,
            terms,
            table,
            members,
        })
    }

    /// The places.
    pub fn ground(&self) -> &'a Ground {
        self.ground
    }

    /// The terms.
    pub fn terms(&self) -> &'a NearTerms {
        self.terms
    }

    /// The table, if there is one.
    pub fn table(&self) -> Option<&'a WayTable> {
        self.table
    }

    /// At the depot with a full battery, before any customer.
    pub fn start(&self, alloc: Global) -> NearState {
        NearState {
            place: self.ground.depot(),
            class: self.terms.class_of(Last::Nobody),
            memory: LargeSet::empty(),
            folded: 0,
            earned: 0,
            value: PieceFn::point(alloc, self.ground.full(), 0),
        }
    }

    /// The least of the times of a value less what the level is worth; `None` where it doesn't fit.
    pub fn lateness(&self, value: &PieceFn) -> Option<i64> {
        let rate = self.ground.rate();
        let mut least = i64::MAX;
        for (level, time) in value.points() {
            let late = i64::try_from(rate.lateness(*level, *time)).ok()?;
            least = least.min(late);
        }
        Some(least)
    }

    /// How times are parted into groups.
    pub(crate) fn spread(&self) -> Spread {
        let full = self.ground.rate().worth(self.ground.full());
        let below = u64::try_from(full).unwrap_or(u64::MAX);
        let span = u128::from(self.ground.limit()) + u128::from(below);
        let width = span / (GROUPS as u128) + 1;
        Spread {
            below,
            width: u64::try_from(width).unwrap_or(u64::MAX),
        }
    }

    /// The states that a step from a state to a place leads to, each with the least level there or
    /// more; none where it may not be made, or its numbers don't fit.
    pub fn steps(
        &self,
        alloc: Global,
        state: &NearState,
        to: usize,
    ) -> Result<Vec<NearState>, AllocError> {
        let mut states = Vec::new(alloc);
        let Passage::Open(behind) = self.passage(&state.standing(), to) else {
            return Ok(states);
        };
        if self.ground.is_customer(to) {
            let reserve = self.ground.reserve();
            if let Some(value) = self.arrival(&state.value, state.place, to, reserve)? {
                states.push(behind.with_value(value))?;
            }
            return Ok(states);
        }
        let values = self.stay(alloc, &state.value, state.place, to)?;
        push_all(&mut states, &behind, values)?;
        Ok(states)
    }

    /// What comes of a step to a place, but for the value.
    pub(crate) fn passage(&self, from: &Standing, to: usize) -> Passage {
        if to >= self.ground.depot() || self.ground.arc(from.place, to).is_none() {
            return Passage::Closed;
        }
        if !self.ground.is_customer(to) {
            return Passage::Open(Standing { place: to, ..*from });
        }
        if is_in(from.memory, to) || !self.terms.may_follow(from.class, to) {
            return Passage::Closed;
        }
        let earned = i128::from(from.earned) + self.terms.gain(from.class, to);
        let Ok(earned) = i64::try_from(earned) else {
            return Passage::TooWide;
        };
        let memory = self.terms.after(from.memory, to);
        Passage::Open(Standing {
            place: to,
            class: self.terms.class_of(Last::Customer(to)),
            memory,
            folded: self.folded_behind(from.memory, to),
            earned,
        })
    }

    /// The memory of a vehicle that served a customer, in a word, by whom it remembered before.
    fn folded_behind(&self, memory: LargeSet, customer: usize) -> u64 {
        let mut word = bit(customer);
        if let Some(members) = self.members.get(customer) {
            for member in members {
                if is_in(memory, *member) {
                    word |= bit(*member);
                }
            }
        }
        word
    }

    /// What is left of a value on arriving at a place, at a level or above.
    pub(crate) fn arrival(
        &self,
        value: &PieceFn,
        from: usize,
        to: usize,
        least: u64,
    ) -> Result<Option<PieceFn>, AllocError> {
        let (left, reached) = (self.ground.node(from), self.ground.node(to));
        arrived(self.inst, value, left, reached, least)
    }

    /// The values on leaving a station, by the value on leaving the place before.
    pub(crate) fn stay(
        &self,
        alloc: Global,
        value: &PieceFn,
        from: usize,
        to: usize,
    ) -> Result<Vec<PieceFn>, AllocError> {
        match self.arrival(value, from, to, self.ground.reserve())? {
            Some(value) => left(alloc, self.inst, value, self.ground.node(to)),
            None => Ok(Vec::new(alloc)),
        }
    }

    /// What is left of a value at a place with the level with which a vehicle can go on, or more.
    pub(crate) fn able(&self, value: PieceFn, place: usize) -> Result<Option<PieceFn>, AllocError> {
        cut_to(value, self.ground.need(place))
    }

    /// The least scaled time of going home from a state; `None` where home may not come next, or
    /// not in time. Nobody goes home who served nobody.
    pub fn home_time(&self, state: &NearState) -> Option<u64> {
        if state.memory.is_empty() || !self.terms.may_end(state.class) {
            return None;
        }
        let (level, arc) = self.ground.way_home(state.place)?;
        let time = time_from(&state.value, level)?.checked_add(arc.time)?;
        if time > self.ground.limit() {
            return None;
        }
        Some(time)
    }
}

/// Appends the states with these values.
fn push_all(
    states: &mut Vec<NearState>,
    behind: &Standing,
    mut values: Vec<PieceFn>,
) -> Result<(), AllocError> {
    for _ in 0..values.len() {
        let Some(value) = values.pop() else {
            break;
        };
        states.push(behind.with_value(value))?;
    }
    Ok(())
}

/// The members of a set, below a number.
fn members_of(alloc: Global, set: LargeSet, customers: usize) -> Result<Vec<usize>, AllocError> {
    let mut members = Vec::new(alloc);
    for customer in 0..customers {
        if is_in(set, customer) {
            members.push(customer)?;
        }
    }
    Ok(members)
}
