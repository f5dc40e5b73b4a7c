//! Labels are added until they are closed. No clause rests on this.

use crate::home::home_room;
use crate::lister::Lister;
use crate::tabled::tabled;
use near_search::{NearState, Origin, SearchClock};
use std::alloc::{AllocError, Global};

/// The clock is asked after so many labels.
const LABELS_A_LOOK: usize = 64;

/// Adds labels until all that steps from them lead to is covered. Whether they are closed then: not
/// so where a way home earns, labels are too many, numbers don't fit or the time is up.
pub(crate) fn close<C: SearchClock>(
    alloc: Global,
    lister: &mut Lister<'_, '_>,
    clock: &mut C,
) -> Result<bool, AllocError> {
    for turn in 0..lister.most_labels {
        if turn % LABELS_A_LOOK == 0 && clock.is_up() {
            return Ok(false);
        }
        let Some(number) = lister.labels.take() else {
            return Ok(!lister.is_cut);
        };
        if !lister.settle(alloc, number)? {
            return Ok(false);
        }
        if lister.labels.all().len() >= lister.most_labels {
            return Ok(false);
        }
    }
    Ok(false)
}

impl Lister<'_, '_> {
    /// Covers what the steps from a label lead to. Whether no way home from it earns.
    fn settle(&mut self, alloc: Global, number: usize) -> Result<bool, AllocError> {
        for to in 0..self.query.ground().depot() {
            let states = self.steps(alloc, number, to)?;
            self.add_all(alloc, number, states)?;
        }
        match self.labels.all().get(number) {
            Some(label) => Ok(home_room(self.query, &label.state).is_some()),
            None => Ok(true),
        }
    }

    /// Covers states one stop behind a label. Those that charge come first, since they mostly cover
    /// the one that passes through.
    fn add_all(
        &mut self,
        alloc: Global,
        number: usize,
        mut states: Vec<NearState>,
    ) -> Result<(), AllocError> {
        for _ in 0..states.len() {
            let Some(state) = states.pop() else {
                break;
            };
            self.add(alloc, number, state)?;
        }
        Ok(())
    }

    /// The label that stands for a vehicle and others from which no way home earns.
    fn tabled(&self, alloc: Global, state: &NearState) -> Result<Option<NearState>, AllocError> {
        tabled(
            alloc,
            self.query,
            self.steady.as_ref(),
            self.never_loses,
            state,
        )
    }

    /// Lets labels cover a state: those there are, or one that stands for all at its place or of
    /// its layer from which no way home earns, or its own.
    fn add(&mut self, alloc: Global, number: usize, state: NearState) -> Result<(), AllocError> {
        if self.covers(&state)? {
            return Ok(());
        }
        if let Some(hopeless) = self.tabled(alloc, &state)? {
            self.put(hopeless, Origin::Table, true)?;
            if self.covers(&state)? {
                return Ok(());
            }
        }
        self.put(state, Origin::Behind(number), true)
    }
}
