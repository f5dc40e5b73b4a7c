//! Which labels cover a state. No clause rests on this.

use crate::entries::{Comparison, Entry, owed, reduced};
use crate::labels::NearLabel;
use crate::state::NearState;
use crate::values::{last_point, reach};
use customer_sets::LargeSet;
use dominance::LabelValue;
use near_completion::NearTerms;

/// By what labels are compared.
#[derive(Clone, Copy)]
pub(crate) struct Measure<'t> {
    pub(crate) terms: &'t NearTerms,
    pub(crate) comparison: Comparison,
}

/// What a label has at the most that covers a state somewhere.
#[derive(Clone, Copy)]
pub(crate) struct Asked {
    pub(crate) time: i64,
    pub(crate) cost: i64,
    /// The highest level of the state.
    pub(crate) top: u64,
    /// The bits that no label's word has.
    missing: u64,
    class: usize,
}

impl Asked {
    /// Whether a label may cover the state from a level on, as far as is read of it first.
    pub(crate) fn admits(&self, entry: &Entry, level: u64) -> bool {
        entry.time <= self.time && entry.top >= level && entry.folded & self.missing == 0
    }
}

impl Measure<'_> {
    /// What a label has at the most that covers a state; `None` where the numbers don't fit.
    pub(crate) fn asked(&self, state: &NearState, lateness: i64) -> Option<Asked> {
        let (top, latest) = last_point(&state.value);
        let time = match self.comparison {
            Comparison::TimesAlone => lateness,
            _ => i64::try_from(latest).ok()?,
        };
        Some(Asked {
            time,
            cost: reduced(self.terms, time, state.earned)?,
            top,
            missing: match self.comparison {
                Comparison::Exact => !state.folded,
                _ => 0,
            },
            class: state.class,
        })
    }

    /// How far a label covers a state from a level on; `None` where it doesn't there.
    pub(crate) fn reach(
        &self,
        label: &NearLabel,
        asked: &Asked,
        state: &NearState,
        level: u64,
    ) -> Option<u64> {
        if label.is_dead || !self.fits(&label.state, state) {
            return None;
        }
        if self.comparison == Comparison::TimesAlone {
            return Some(asked.top);
        }
        let extra = owed(self.terms, label.state.earned, state.earned)?;
        reach(&label.state.value, &state.value, extra, level)
    }

    /// Whether a label that is no later makes another one needless, both at one place.
    pub(crate) fn kills(
        &self,
        own: &Entry,
        state: &NearState,
        other: &Entry,
        label: &NearLabel,
    ) -> bool {
        if other.time < own.time || !self.fits(state, &label.state) {
            return false;
        }
        if self.comparison == Comparison::TimesAlone {
            return true;
        }
        match owed(self.terms, state.earned, label.state.earned) {
            Some(extra) => other.top <= own.top && state.value.covers(&label.state.value, extra),
            None => false,
        }
    }

    /// Whether a state may stand for another, by whom they served last and whom they remember.
    fn fits(&self, state: &NearState, other: &NearState) -> bool {
        let stands = state.class == other.class || self.terms.stands_for(state.class, other.class);
        stands && self.remembers_no_more(state, other)
    }

    /// Whether a state remembers nobody of those who count whom another doesn't remember.
    fn remembers_no_more(&self, state: &NearState, other: &NearState) -> bool {
        match self.comparison {
            Comparison::TimesAlone | Comparison::LevelsAlone => true,
            Comparison::FirstSets => {
                if state.place >= self.terms.customers() {
                    return true;
                }
                let first: LargeSet = self.terms.first_near(state.place);
                state.memory.common(first).is_subset(other.memory)
            }
            Comparison::Exact => state.memory.is_subset(other.memory),
        }
    }
}
