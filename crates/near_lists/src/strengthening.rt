//! Labels made stronger: a label that remembers fewer customers, that forgot whom it served last, or
//! that has earned more, covers more; so a list stays closed while each step from the label stays
//! covered. No clause rests on this.

use crate::far::far_members;
use crate::lister::Lister;
use crate::values::copy_of;
use dominance::LabelValue;
use near_completion::Last;
use near_search::{NearState, Origin, SearchClock, fold};
use std::alloc::{AllocError, Global};

/// How many numbers a set takes.
const MOST: usize = 448;

/// The clock is asked after so many labels.
const LABELS_A_LOOK: usize = 64;

/// Makes labels stronger, the latest ones first, until the time is up.
pub(crate) fn strengthen<C: SearchClock>(
    alloc: Global,
    lister: &mut Lister<'_, '_>,
    clock: &mut C,
) -> Result<(), AllocError> {
    let order = by_time(alloc, lister)?;
    for (turn, (_, number)) in order.iter().rev().enumerate() {
        if turn % LABELS_A_LOOK == 0 && clock.is_up() {
            break;
        }
        if let Some(state) = lister.copy_to_change(alloc, *number)? {
            lister.strengthen_one(alloc, state)?;
        }
    }
    Ok(())
}

/// The labels that cover what no other covers, the earliest first.
fn by_time(alloc: Global, lister: &Lister<'_, '_>) -> Result<Vec<(u64, usize)>, AllocError> {
    let mut order = Vec::new(alloc);
    for (number, label) in lister.labels.all().iter().enumerate() {
        if !label.is_dead {
            let (_, early) = label.state.value.least();
            order.push((early, number))?;
        }
    }
    order.sort()?;
    Ok(order)
}

impl Lister<'_, '_> {
    /// A copy of a label; `None` where it is covered by now, or is the start.
    fn copy_to_change(
        &self,
        alloc: Global,
        number: usize,
    ) -> Result<Option<NearState>, AllocError> {
        let Some(label) = self.labels.all().get(number) else {
            return Ok(None);
        };
        if label.is_dead || label.origin == Origin::Start {
            return Ok(None);
        }
        Ok(Some(NearState {
            place: label.state.place,
            class: label.state.class,
            memory: label.state.memory,
            folded: label.state.folded,
            earned: label.state.earned,
            value: copy_of(alloc, &label.state.value)?,
        }))
    }

    /// Makes a label stronger: it forgets whom it served last, then customers, those furthest away
    /// first, and then it earns as much as it may.
    fn strengthen_one(&mut self, alloc: Global, mut state: NearState) -> Result<(), AllocError> {
        let mut is_stronger = self.forget_last(alloc, &mut state)?;
        for customer in far_members(alloc, self.query.ground(), &state)? {
            is_stronger = self.forget(alloc, &mut state, customer)? || is_stronger;
        }
        let rise = self.rise(alloc, &state)?;
        if rise > 0 {
            if let Some(earned) = state.earned.checked_add(rise) {
                state.earned = earned;
                is_stronger = true;
            }
        }
        if is_stronger {
            self.put(state, Origin::Stronger, false)?;
        }
        Ok(())
    }

    /// Lets a label at a station forget whom it served last, where it may. Whether it does.
    fn forget_last(&mut self, alloc: Global, state: &mut NearState) -> Result<bool, AllocError> {
        let (own, anybody) = (state.class, self.query.terms().class_of(Last::Anybody));
        if own == anybody || self.query.ground().is_customer(state.place) {
            return Ok(false);
        }
        state.class = anybody;
        if self.room(alloc, state)?.is_some() {
            return Ok(true);
        }
        state.class = own;
        Ok(false)
    }

    /// Lets a label forget a customer, where it may. Whether it does.
    fn forget(
        &mut self,
        alloc: Global,
        state: &mut NearState,
        customer: usize,
    ) -> Result<bool, AllocError> {
        if customer >= MOST {
            return Ok(false);
        }
        let (memory, folded) = (state.memory, state.folded);
        state.memory = memory.without(customer);
        state.folded = fold(state.memory, self.query.terms().customers());
        if self.may_forget(alloc, state, customer)? {
            return Ok(true);
        }
        state.memory = memory;
        state.folded = folded;
        Ok(false)
    }

    /// Whether labels cover all that the steps of a vehicle lead to by which it differs from one
    /// that remembers a customer too.
    fn may_forget(
        &mut self,
        alloc: Global,
        state: &NearState,
        customer: usize,
    ) -> Result<bool, AllocError> {
        for to in 0..self.query.ground().depot() {
            if self.differs(customer, to) && self.room_at(alloc, state, to, 0)?.is_none() {
                return Ok(false);
            }
        }
        Ok(true)
    }

    /// Whether what a step to a place leads to depends on whether a customer is remembered.
    fn differs(&self, customer: usize, to: usize) -> bool {
        if !self.query.ground().is_customer(to) || to == customer {
            return true;
        }
        customer < MOST && self.query.terms().near(to).has(customer)
    }
}
