//! A list in the making. No clause rests on this.

use crate::hits::Hits;
use crate::plan::ListPlan;
use crate::sizes::is_small;
use crate::steady::SteadyCosts;
use dominance::LabelValue;
use near_search::{Comparison, NearLabel, NearLabels, NearQuery, NearState, Origin};
use std::alloc::{AllocError, Global};

/// A list in the making.
#[derive(Drop)]
pub(crate) struct Lister<'q, 'a> {
    pub(crate) query: &'q NearQuery<'a>,
    pub(crate) labels: NearLabels,
    /// Those that left room lately.
    pub(crate) hits: Hits,
    /// What ways home take whenever they end, where that is known.
    pub(crate) steady: Option<SteadyCosts>,
    /// So many labels are too many.
    pub(crate) most_labels: usize,
    /// Whether no vehicle has earned less than nothing.
    pub(crate) never_loses: bool,
    /// Whether a label was left out since its numbers didn't fit.
    pub(crate) is_cut: bool,
}

impl<'q, 'a> Lister<'q, 'a> {
    /// A list with the start alone, which waits.
    pub(crate) fn new(
        alloc: Global,
        query: &'q NearQuery<'a>,
        plan: &ListPlan,
        never_loses: bool,
    ) -> Result<Lister<'q, 'a>, AllocError> {
        let mut lister = Lister {
            query,
            labels: NearLabels::new(alloc, query, Comparison::Exact)?,
            hits: Hits::new(alloc, query.ground().depot())?,
            steady: SteadyCosts::new(alloc, query.ground(), query.terms())?,
            most_labels: plan.most_labels,
            never_loses,
            is_cut: false,
        };
        lister.put(query.start(alloc), Origin::Start, true)?;
        Ok(lister)
    }
}

impl Lister<'_, '_> {
    /// The states that the steps from a label to a place lead to.
    pub(crate) fn steps(
        &self,
        alloc: Global,
        number: usize,
        to: usize,
    ) -> Result<Vec<NearState>, AllocError> {
        match self.labels.all().get(number) {
            Some(label) => self.query.steps(alloc, &label.state, to),
            None => Ok(Vec::new(alloc)),
        }
    }

    /// Whether labels cover a state.
    pub(crate) fn covers(&mut self, state: &NearState) -> Result<bool, AllocError> {
        match self.query.lateness(&state.value) {
            Some(lateness) => self.labels.cover(self.query.terms(), state, lateness),
            None => Ok(false),
        }
    }

    /// Puts a label into the list, which may wait until steps are made from it.
    pub(crate) fn put(
        &mut self,
        state: NearState,
        origin: Origin,
        waits: bool,
    ) -> Result<(), AllocError> {
        let (_, early) = state.value.least();
        let (Some(lateness), Ok(early)) = (self.query.lateness(&state.value), i64::try_from(early))
        else {
            self.is_cut = true;
            return Ok(());
        };
        if !is_small(state.earned) {
            self.is_cut = true;
            return Ok(());
        }
        let label = NearLabel {
            state,
            lateness,
            origin,
            is_dead: false,
        };
        let key = if waits { Some(early) } else { None };
        let number = self.labels.insert(self.query.terms(), label, key)?;
        if number.is_none() {
            self.is_cut = true;
        }
        Ok(())
    }
}
