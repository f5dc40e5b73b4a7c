//! The labels of a search, and which of them wait. No clause rests on this.

use crate::asked::Measure;
use crate::entries::{Comparison, Entry};
use crate::query::NearQuery;
use crate::shelf::{GROUPS, Shelf, Spread};
use crate::state::NearState;
use dominance::LabelValue;
use near_completion::NearTerms;
use std::alloc::{AllocError, Global};
use std::cmp::Reverse;
use std::collections::BinaryHeap;

/// Where a label comes from.
#[derive(Clone, Copy, Debug, PartialEq, Eq)]
pub enum Origin {
    /// It is the start.
    Start,
    /// It is one stop behind the label with a number.
    Behind(usize),
    /// It stands for all vehicles from which no way home earns.
    Table,
    /// It is a label made stronger.
    Stronger,
}

/// A label.
#[derive(Drop)]
pub struct NearLabel {
    pub state: NearState,
    /// The least of its times less what the level is worth.
    pub lateness: i64,
    pub origin: Origin,
    /// Whether another label covers it.
    pub is_dead: bool,
}

/// The labels of a search, and which of them wait.
#[derive(Drop)]
pub struct NearLabels {
    comparison: Comparison,
    spread: Spread,
    all: Vec<NearLabel>,
    /// Those that aren't covered, by place.
    shelves: Vec<Shelf>,
    /// Those that wait, by what comes first.
    queue: BinaryHeap<Reverse<(i64, usize)>>,
}

impl NearLabels {
    /// No labels, compared with some comparison.
    pub fn new(
        alloc: Global,
        query: &NearQuery<'_>,
        comparison: Comparison,
    ) -> Result<NearLabels, AllocError> {
        let places = query.ground().depot();
        let mut shelves = Vec::new(alloc);
        for _ in 0..places {
            shelves.push(Shelf::new(alloc)?)?;
        }
        shelves.push(Shelf::new(alloc)?)?;
        Ok(NearLabels {
            comparison,
            spread: query.spread(),
            all: Vec::new(alloc),
            shelves,
            queue: BinaryHeap::new(alloc),
        })
    }

    /// The labels, by number.
    pub fn all(&self) -> &[NearLabel] {
        self.all.as_slice()
    }

    /// Takes the next label that waits and isn't covered.
    pub fn take(&mut self) -> Option<usize> {
        for _ in 0..self.queue.len() {
            let Reverse((_, number)) = self.queue.pop()?;
            if let Some(label) = self.all.get(number) {
                if !label.is_dead {
                    return Some(number);
                }
            }
        }
        None
    }

    /// The first level of a state that no label covers; `None` where all are covered. Where
    /// its numbers don't fit, none of its levels counts as covered.
    pub fn first_gap(
        &mut self,
        terms: &NearTerms,
        state: &NearState,
        lateness: i64,
    ) -> Result<Option<u64>, AllocError> {
        let (least, _) = state.value.least();
        let measure = self.measure(terms);
        let Some(asked) = measure.asked(state, lateness) else {
            return Ok(Some(least));
        };
        let group = self.spread.group_of(asked.time);
        match self.shelves.get_mut(state.place) {
            Some(shelf) => {
                shelf.first_gap(self.all.as_slice(), &measure, &asked, state, group, least)
            }
            None => Ok(Some(least)),
        }
    }

    /// Whether labels cover a state.
    pub fn cover(
        &mut self,
        terms: &NearTerms,
        state: &NearState,
        lateness: i64,
    ) -> Result<bool, AllocError> {
        let gap = self.first_gap(terms, state, lateness)?;
        Ok(gap.is_none())
    }

    /// Puts a label behind the others, and takes those out that it covers. It waits by a key, if it
    /// has one. Its number; `None` where its numbers don't fit.
    pub fn insert(
        &mut self,
        terms: &NearTerms,
        label: NearLabel,
        key: Option<i64>,
    ) -> Result<Option<usize>, AllocError> {
        let number = self.all.len();
        let measure = self.measure(terms);
        let Some(entry) = Entry::of(terms, self.comparison, &label.state, label.lateness, number)
        else {
            return Ok(None);
        };
        let group = self.spread.group_of(entry.time);
        if let Some(shelf) = self.shelves.get_mut(label.state.place) {
            let all = self.all.as_mut_slice();
            shelf.take_out(all, &measure, &entry, &label.state, group);
            shelf.put(entry, group)?;
        }
        if let Some(key) = key {
            self.queue.push(Reverse((key, number)))?;
        }
        self.all.push(label)?;
        Ok(Some(number))
    }

    /// By what labels are compared.
    fn measure<'t>(&self, terms: &'t NearTerms) -> Measure<'t> {
        Measure {
            terms,
            comparison: self.comparison,
        }
    }

    /// The labels at a place that aren't covered, in groups by time, each by rising cost.
    pub fn groups(&self, place: usize) -> &[Vec<Entry>] {
        match self.shelves.get(place) {
            Some(shelf) => shelf.groups(),
            None => &[],
        }
    }

    /// The group of a time.
    pub fn group_of(&self, time: i64) -> usize {
        self.spread.group_of(time)
    }
}
