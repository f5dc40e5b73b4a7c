//! What a label has that covers a state. No clause rests on this.

use crate::sizes::{owing, weighted};
use crate::values::{last_point, reach};
use dominance::LabelValue;
use near_completion::NearTerms;
use near_search::{Entry, NearLabel, NearLabels, NearState};

/// What a label has at the most that covers a state somewhere.
#[derive(Clone, Copy)]
pub(crate) struct Wanted<'s> {
    terms: &'s NearTerms,
    pub(crate) state: &'s NearState,
    /// The least level of the state, and its highest.
    pub(crate) first: u64,
    pub(crate) top: u64,
    time: i64,
    pub(crate) cost: i128,
    /// The last group of labels that may be early enough.
    pub(crate) group: usize,
}

impl<'s> Wanted<'s> {
    /// What is asked of labels that cover a state; `None` where its numbers don't fit.
    pub(crate) fn of(
        labels: &NearLabels,
        terms: &'s NearTerms,
        state: &'s NearState,
    ) -> Option<Wanted<'s>> {
        let (first, _) = state.value.least();
        let (top, latest) = last_point(&state.value);
        let time = i64::try_from(latest).ok()?;
        Some(Wanted {
            terms,
            state,
            first,
            top,
            time,
            cost: owing(weighted(terms.weight(), time), state.earned),
            group: labels.group_of(time),
        })
    }

    /// Whether a label may cover the state from a level on, as far as is read of it first.
    pub(crate) fn admits(&self, entry: &Entry, level: u64) -> bool {
        entry.time <= self.time
            && entry.top >= level
            && entry.folded & !self.state.folded == 0
            && i128::from(entry.cost) <= self.cost
    }

    /// The label of an entry, where it may stand for the state by whom it served last and whom it
    /// remembers.
    pub(crate) fn fitting<'l>(&self, all: &'l [NearLabel], entry: &Entry) -> Option<&'l NearLabel> {
        let label = all.get(entry.number)?;
        let own = &label.state;
        let stands = own.class == self.state.class
            || self.terms.stands_for(own.class, self.state.class);
        if label.is_dead || !stands || !own.memory.is_subset(self.state.memory) {
            return None;
        }
        Some(label)
    }

    /// How far a label covers the state from a level on; `None` where it doesn't there.
    pub(crate) fn reach(&self, all: &[NearLabel], entry: &Entry, level: u64) -> Option<u64> {
        if !self.admits(entry, level) {
            return None;
        }
        let label = self.fitting(all, entry)?;
        let extra = self.owed(label.state.earned)?;
        reach(&label.state.value, &self.state.value, extra, level)
    }

    /// By how much earlier a label has to be that earned so much; `None` where no time makes up for
    /// what it earned less.
    fn owed(&self, earned: i64) -> Option<u64> {
        if self.state.earned <= earned {
            return Some(0);
        }
        let gap = i128::from(self.state.earned) - i128::from(earned);
        let gap = u64::try_from(gap).ok()?;
        let weight = u64::from(self.terms.weight());
        if weight == 0 {
            return None;
        }
        Some(gap.div_ceil(weight))
    }

    /// The weight of time.
    pub(crate) fn weight(&self) -> u32 {
        self.terms.weight()
    }
}
