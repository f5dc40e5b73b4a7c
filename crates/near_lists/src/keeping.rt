//! The labels that a list needs. No clause rests on this.

use crate::lister::Lister;
use crate::wanted::Wanted;
use near_search::{Entry, NearState};
use std::alloc::{AllocError, Global};

/// So often at the most labels are looked for that cover a state.
const MOST_PARTS: usize = 1000;

/// The labels that are kept.
#[derive(Drop)]
struct Kept {
    numbers: Vec<usize>,
    is_kept: Vec<bool>,
    /// Those at a place, by place.
    shelves: Vec<Vec<Entry>>,
}

/// The numbers of the labels that the start needs, so that they are closed, with those kept first
/// that cover furthest; `None` where a state isn't covered.
pub(crate) fn keep(
    alloc: Global,
    lister: &Lister<'_, '_>,
) -> Result<Option<Vec<usize>>, AllocError> {
    let mut kept = Kept::new(alloc, lister)?;
    for turn in 0..lister.labels.all().len() {
        let Some(number) = kept.numbers.get(turn).copied() else {
            break;
        };
        if !kept.keep_behind(alloc, lister, number)? {
            return Ok(None);
        }
    }
    Ok(Some(kept.into_numbers()))
}

impl Kept {
    /// The start is kept, which has the number 0.
    fn new(alloc: Global, lister: &Lister<'_, '_>) -> Result<Kept, AllocError> {
        let mut kept = Kept {
            numbers: Vec::new(alloc),
            is_kept: vec![in alloc; false; lister.labels.all().len()]?,
            shelves: Vec::new(alloc),
        };
        for _ in 0..lister.query.ground().depot() {
            kept.shelves.push(Vec::new(alloc))?;
        }
        kept.numbers.push(0)?;
        Ok(kept)
    }

    /// The numbers of those that are kept.
    fn into_numbers(self) -> Vec<usize> {
        let Kept {
            numbers,
            is_kept: _,
            shelves: _,
        } = self;
        numbers
    }

    /// Keeps a label at a place.
    fn add(&mut self, place: usize, entry: Entry) -> Result<(), AllocError> {
        if let Some(is_kept) = self.is_kept.get_mut(entry.number) {
            if *is_kept {
                return Ok(());
            }
            *is_kept = true;
        }
        self.numbers.push(entry.number)?;
        if let Some(shelf) = self.shelves.get_mut(place) {
            shelf.push(entry)?;
        }
        Ok(())
    }

    /// Keeps labels that cover what the steps from a label lead to. Whether there are some.
    fn keep_behind(
        &mut self,
        alloc: Global,
        lister: &Lister<'_, '_>,
        number: usize,
    ) -> Result<bool, AllocError> {
        for to in 0..lister.query.ground().depot() {
            let states = lister.steps(alloc, number, to)?;
            if !self.keep_all(lister, &states)? {
                return Ok(false);
            }
        }
        Ok(true)
    }

    /// Keeps labels that cover states. Whether there are some.
    fn keep_all(
        &mut self,
        lister: &Lister<'_, '_>,
        states: &[NearState],
    ) -> Result<bool, AllocError> {
        for state in states {
            if !self.keep_for(lister, state)? {
                return Ok(false);
            }
        }
        Ok(true)
    }

    /// Keeps labels that cover a state. Whether there are some.
    fn keep_for(&mut self, lister: &Lister<'_, '_>, state: &NearState) -> Result<bool, AllocError> {
        let Some(wanted) = Wanted::of(&lister.labels, lister.query.terms(), state) else {
            return Ok(false);
        };
        let mut level = wanted.first;
        for _ in 0..MOST_PARTS {
            let Some(to) = self.keep_from(lister, &wanted, level)? else {
                return Ok(false);
            };
            if to >= wanted.top {
                return Ok(true);
            }
            level = to.saturating_add(1);
        }
        Ok(false)
    }

    /// Keeps a label that covers a state from a level on, one that is kept already if there is one.
    /// How far; `None` where none does.
    fn keep_from(
        &mut self,
        lister: &Lister<'_, '_>,
        wanted: &Wanted<'_>,
        level: u64,
    ) -> Result<Option<u64>, AllocError> {
        if let Some(to) = self.reach(lister, wanted, level) {
            return Ok(Some(to));
        }
        match furthest(lister, wanted, level) {
            Some(best) => {
                self.add(wanted.state.place, best.entry)?;
                Ok(Some(best.to))
            }
            None => Ok(None),
        }
    }

    /// How far a kept label covers a state from a level on. It moves forward.
    fn reach(&mut self, lister: &Lister<'_, '_>, wanted: &Wanted<'_>, level: u64) -> Option<u64> {
        let shelf = self.shelves.get_mut(wanted.state.place)?;
        for place in 0..shelf.len() {
            if let Some(to) = wanted.reach(lister.labels.all(), &shelf[place], level) {
                shelf.swap(place, place / 2);
                return Some(to);
            }
        }
        None
    }
}

/// A label that covers a state so far.
#[derive(Clone, Copy)]
struct Best {
    to: u64,
    entry: Entry,
}

/// The label that covers a state furthest from a level on, of two the earlier one.
fn furthest(lister: &Lister<'_, '_>, wanted: &Wanted<'_>, level: u64) -> Option<Best> {
    let mut best = None;
    let groups = lister.labels.groups(wanted.state.place);
    for group in groups.iter().take(wanted.group.saturating_add(1)) {
        best = furthest_in(lister, wanted, level, group, best);
    }
    best
}

/// The same among the labels of a group and one that is known.
fn furthest_in(
    lister: &Lister<'_, '_>,
    wanted: &Wanted<'_>,
    level: u64,
    group: &[Entry],
    known: Option<Best>,
) -> Option<Best> {
    let mut best = known;
    for entry in group {
        if i128::from(entry.cost) > wanted.cost {
            break;
        }
        if let Some(to) = wanted.reach(lister.labels.all(), entry, level) {
            best = better(best, Best { to, entry: *entry });
        }
    }
    best
}

/// The one that covers further, of two the earlier one.
fn better(known: Option<Best>, other: Best) -> Option<Best> {
    match known {
        Some(best)
            if best.to > other.to || best.to == other.to && best.entry.time <= other.entry.time => {
            Some(best)
        }
        _ => Some(other),
    }
}
