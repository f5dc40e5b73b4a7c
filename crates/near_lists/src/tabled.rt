//! Labels that stand for all vehicles at a place, or in a layer there, from which no way home
//! earns. No clause rests on this.

use crate::sizes::{owing, weighted, with_rest};
use crate::steady::SteadyCosts;
use crate::values::line_from;
use customer_sets::LargeSet;
use near_completion::{HomeCost, Last, WayTable};
use near_search::{NearQuery, NearState, fold};
use std::alloc::{AllocError, Global};

/// How many numbers a set takes.
const MOST: usize = 448;

/// A vehicle from which no way home may earn, by a table.
#[derive(Clone, Copy)]
struct Hopeless<'s> {
    query: &'s NearQuery<'s>,
    table: &'s WayTable,
    state: &'s NearState,
    lateness: i64,
    layer: usize,
    never_loses: bool,
}

/// What a label has that stands for all of its layer.
#[derive(Clone, Copy)]
struct Common {
    class: usize,
    memory: LargeSet,
    earned: i64,
    early: u64,
}

/// The label that stands for all vehicles at a place from which no way home earns whenever it ends,
/// where a vehicle is one of them; else that for those of a layer: at a station after anybody, if
/// it may be.
pub(crate) fn tabled(
    alloc: Global,
    query: &NearQuery<'_>,
    steady: Option<&SteadyCosts>,
    never_loses: bool,
    state: &NearState,
) -> Result<Option<NearState>, AllocError> {
    let always = steady.and_then(|costs| steady_common(query, costs, never_loses, state));
    let common = match always {
        Some(common) => Some(common),
        None => layer_common(query, never_loses, state),
    };
    let Some(common) = common else {
        return Ok(None);
    };
    let Some(value) = line_from(alloc, query.ground(), common.early)? else {
        return Ok(None);
    };
    Ok(Some(NearState {
        place: state.place,
        class: common.class,
        memory: common.memory,
        folded: fold(common.memory, query.terms().customers()),
        earned: common.earned,
        value,
    }))
}

/// What the label has that stands for all vehicles at a place, if no way home earns whenever it
/// ends.
fn steady_common(
    query: &NearQuery<'_>,
    steady: &SteadyCosts,
    never_loses: bool,
    state: &NearState,
) -> Option<Common> {
    let (terms, rest) = (query.terms(), steady.rest(state.place)?);
    let lateness = query.lateness(&state.value)?;
    let owed = owing(weighted(terms.weight(), lateness), state.earned);
    let early = earliest(terms.weight(), never_loses, 0, rest)?;
    let paid = weighted(terms.weight(), i64::try_from(early).ok()?);
    if with_rest(owed, rest) < 0 || weighted(terms.weight(), lateness) < paid {
        return None;
    }
    let earned = i64::try_from(with_rest(paid, rest)).ok()?;
    let class = if query.ground().is_customer(state.place) {
        state.class
    } else {
        terms.class_of(Last::Anybody)
    };
    Some(Common {
        class,
        memory: own_memory(query, state.place),
        earned,
        early,
    })
}

/// What the label has that stands for the vehicle's layer, if no way home earns.
fn layer_common(query: &NearQuery<'_>, never_loses: bool, state: &NearState) -> Option<Common> {
    hopeless_of(query, never_loses, state)?.common()
}

/// A lateness from which no way home earns that takes so much beyond what it earns, `least` or
/// later: where nobody has earned less than nothing, that from which none earns even so.
fn earliest(weight: u32, never_loses: bool, least: u64, rest: i64) -> Option<u64> {
    if !never_loses || rest >= 0 {
        return Some(least);
    }
    if weight == 0 {
        return None;
    }
    Some(least.max(rest.unsigned_abs().div_ceil(u64::from(weight))))
}

/// Nobody, or the customer at a place.
fn own_memory(query: &NearQuery<'_>, place: usize) -> LargeSet {
    if query.ground().is_customer(place) {
        with(LargeSet::empty(), place)
    } else {
        LargeSet::empty()
    }
}

/// What is asked of a vehicle; `None` where there is no whole table, or it is past its horizon.
fn hopeless_of<'s>(
    query: &'s NearQuery<'s>,
    never_loses: bool,
    state: &'s NearState,
) -> Option<Hopeless<'s>> {
    let table = query.table()?;
    if !table.is_whole() {
        return None;
    }
    let lateness = query.lateness(&state.value)?;
    let layer = table.layer(lateness)?;
    Some(Hopeless {
        query,
        table,
        state,
        lateness,
        layer,
        never_loses,
    })
}

impl Hopeless<'_> {
    /// What the label has that stands for the vehicle's layer, if no way home earns.
    fn common(&self) -> Option<Common> {
        if !self.query.ground().is_customer(self.state.place) {
            let anybody = self.query.terms().class_of(Last::Anybody);
            if let Some(common) = self.common_after(anybody) {
                return Some(common);
            }
        }
        self.common_after(self.state.class)
    }

    /// The same, after a class.
    fn common_after(&self, class: usize) -> Option<Common> {
        let rest = self.rest(class, self.state.memory)?;
        let weight = self.query.terms().weight();
        let owed = owing(weighted(weight, self.lateness), self.state.earned);
        if with_rest(owed, rest.least) < 0 {
            return None;
        }
        let early = self.early(rest.least)?;
        let paid = weighted(weight, i64::try_from(early).ok()?);
        let earned = i64::try_from(with_rest(paid, rest.least)).ok()?;
        Some(Common {
            class,
            memory: self.memory(class, rest)?,
            earned,
            early,
        })
    }

    /// What is known of the ways home after a class that leave out those in a memory.
    fn rest(&self, class: usize, memory: LargeSet) -> Option<HomeCost> {
        self.table.rest(self.state.place, class, self.layer, memory)
    }

    /// The least lateness of the layer, or later.
    fn early(&self, rest: i64) -> Option<u64> {
        let least = self.table.latest(self.layer)?;
        let weight = self.query.terms().weight();
        earliest(weight, self.never_loses, least, rest)
    }

    /// Whom the label remembers: nobody whom the least of ways doesn't pass by.
    fn memory(&self, class: usize, rest: HomeCost) -> Option<LargeSet> {
        let memory = own_memory(self.query, self.state.place);
        let of_all = self.rest(class, LargeSet::empty())?;
        match rest.known {
            Some(known) if of_all.least != rest.least => Some(with(memory, known)),
            _ => Some(memory),
        }
    }
}

/// A set with a customer, if sets take his number.
fn with(set: LargeSet, customer: usize) -> LargeSet {
    if customer < MOST {
        set.with(customer)
    } else {
        set
    }
}
