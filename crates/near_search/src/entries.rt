//! What is read of a label first. No clause rests on this.

use crate::state::NearState;
use crate::values::last_point;
use dominance::LabelValue;
use near_completion::NearTerms;

/// How labels are compared: by which of them others become needless.
#[derive(Clone, Copy, Debug, PartialEq, Eq)]
pub enum Comparison {
    /// By lateness, and that less what is earned, alone.
    TimesAlone,
    /// By the times at all levels alone, whoever is remembered.
    LevelsAlone,
    /// At a customer's place the customers of the set count with which his near set began.
    FirstSets,
    /// A label makes another one needless only where it remembers no one else.
    Exact,
}

/// What is read of a label first.
#[derive(Clone, Copy)]
pub struct Entry {
    /// Its least time; its lateness where times are compared alone.
    pub time: i64,
    /// The weighted time, less what is earned.
    pub cost: i64,
    /// Its highest level.
    pub top: u64,
    /// Its memory in a word.
    pub folded: u64,
    pub class: usize,
    pub number: usize,
}

impl Entry {
    /// That of a label with a number; `None` where its numbers don't fit.
    pub(crate) fn of(
        terms: &NearTerms,
        comparison: Comparison,
        state: &NearState,
        lateness: i64,
        number: usize,
    ) -> Option<Entry> {
        let (_, early) = state.value.least();
        let time = match comparison {
            Comparison::TimesAlone => lateness,
            _ => i64::try_from(early).ok()?,
        };
        let (top, _) = last_point(&state.value);
        Some(Entry {
            time,
            cost: reduced(terms, time, state.earned)?,
            top,
            folded: state.folded,
            class: state.class,
            number,
        })
    }
}

/// A weighted time less what is earned; `None` where that doesn't fit.
pub(crate) fn reduced(terms: &NearTerms, time: i64, earned: i64) -> Option<i64> {
    let paid = i128::from(terms.weight()) * i128::from(time);
    i64::try_from(paid - i128::from(earned)).ok()
}

/// By how much earlier a label has to be that earned less, for each unit of time; `None` where no
/// time makes up for it.
pub(crate) fn owed(terms: &NearTerms, own: i64, theirs: i64) -> Option<u64> {
    if theirs <= own {
        return Some(0);
    }
    let gap = i128::from(theirs) - i128::from(own);
    let gap = u64::try_from(gap).ok()?;
    let weight = u64::from(terms.weight());
    if weight == 0 {
        return None;
    }
    if weight == 1 {
        return Some(gap);
    }
    Some(gap.div_ceil(weight))
}
