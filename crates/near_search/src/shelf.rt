//! The labels of a place, in groups by time. No clause rests on this.

use crate::asked::{Asked, Measure};
use crate::entries::Entry;
use crate::labels::NearLabel;
use crate::state::NearState;
use std::alloc::{AllocError, Global};

/// How many groups there are.
pub(crate) const GROUPS: usize = 32;

/// The last of them.
const LAST: u64 = 31;

/// So many labels that covered something lately are tried first.
const HITS: usize = 16;

/// The later half of them.
const LATER: usize = 8;

/// So often at the most it is asked how far a value is covered.
const MOST_PARTS: usize = 1000;

/// How times are parted into groups.
#[derive(Clone, Copy)]
pub(crate) struct Spread {
    /// By so much times may be below 0.
    pub(crate) below: u64,
    /// The time of a group.
    pub(crate) width: u64,
}

impl Spread {
    /// The group of a time.
    pub(crate) fn group_of(self, time: i64) -> usize {
        let past = i128::from(time) + i128::from(self.below);
        if past < 0 {
            return 0;
        }
        match u64::try_from(past) {
            Ok(past) => (past / self.width.max(1)).min(LAST) as usize,
            Err(_) => LAST as usize,
        }
    }
}

/// The labels of a place that aren't covered.
#[derive(Drop)]
pub(crate) struct Shelf {
    /// By time; each by rising cost.
    groups: Vec<Vec<Entry>>,
    /// Those that covered something lately.
    hits: Vec<Entry>,
    /// How many hits took the place of others.
    turn: usize,
}

impl Shelf {
    /// No labels.
    pub(crate) fn new(alloc: Global) -> Result<Shelf, AllocError> {
        let mut groups = Vec::with_capacity(alloc, GROUPS)?;
        for _ in 0..GROUPS {
            groups.push(Vec::new(alloc))?;
        }
        Ok(Shelf {
            groups,
            hits: Vec::with_capacity(alloc, HITS)?,
            turn: 0,
        })
    }

    /// The groups.
    pub(crate) fn groups(&self) -> &[Vec<Entry>] {
        self.groups.as_slice()
    }

    /// The first level of a state, from one on, that no label covers; `None` where all are covered.
    pub(crate) fn first_gap(
        &mut self,
        all: &[NearLabel],
        measure: &Measure<'_>,
        asked: &Asked,
        state: &NearState,
        last_group: usize,
        from: u64,
    ) -> Result<Option<u64>, AllocError> {
        let question = Question {
            all,
            measure,
            asked,
            state,
        };
        let mut level = from;
        for _ in 0..MOST_PARTS {
            let to = match self.reach_of_hits(&question, level) {
                Some(to) => Some(to),
                None => self.reach_of_groups(&question, last_group, level)?,
            };
            match to {
                Some(to) if to < asked.top => level = to + 1,
                Some(_) => return Ok(None),
                None => return Ok(Some(level)),
            }
        }
        Ok(Some(level))
    }

    /// How far one of the labels that covered something lately covers a state from a level on. It
    /// moves forward.
    fn reach_of_hits(&mut self, question: &Question<'_>, level: u64) -> Option<u64> {
        for place in 0..self.hits.len() {
            if let Some(to) = question.reach(&self.hits[place], level) {
                self.hits.swap(place, place / 2);
                return Some(to);
            }
        }
        None
    }

    /// How far a label of these groups covers a state from a level on. It is a hit then.
    fn reach_of_groups(
        &mut self,
        question: &Question<'_>,
        last_group: usize,
        level: u64,
    ) -> Result<Option<u64>, AllocError> {
        for group in self
            .groups
            .iter()
            .take(last_group.min(GROUPS - 1) + 1)
            .rev()
        {
            if let Some((entry, to)) = question.reach_in(group, level) {
                self.note(entry)?;
                return Ok(Some(to));
            }
        }
        Ok(None)
    }

    /// Lets a label be a hit, in the place of one of the later ones where there are enough.
    fn note(&mut self, entry: Entry) -> Result<(), AllocError> {
        if self.hits.len() < HITS {
            self.hits.push(entry)?;
            return Ok(());
        }
        self.turn = (self.turn % LATER + 1) % LATER;
        if let Some(hit) = self.hits.get_mut(LATER + self.turn % LATER) {
            *hit = entry;
        }
        Ok(())
    }

    /// Takes those out that a state covers, from its group on, and marks them as dead.
    pub(crate) fn take_out(
        &mut self,
        all: &mut [NearLabel],
        measure: &Measure<'_>,
        own: &Entry,
        state: &NearState,
        group: usize,
    ) {
        for entries in self.groups.iter_mut().skip(group) {
            take_out_of(entries, all, measure, own, state);
        }
    }

    /// Puts a label among those of its group.
    pub(crate) fn put(&mut self, entry: Entry, group: usize) -> Result<(), AllocError> {
        if let Some(entries) = self.groups.get_mut(group) {
            let place = entries.partition_point(|other| other.cost < entry.cost);
            let place = place.min(entries.len());
            entries.insert(place, entry)?;
        }
        Ok(())
    }
}

/// What is asked of a label: whether and how far it covers a state.
#[derive(Clone, Copy)]
struct Question<'q> {
    all: &'q [NearLabel],
    measure: &'q Measure<'q>,
    asked: &'q Asked,
    state: &'q NearState,
}

impl Question<'_> {
    /// How far a label covers the state from a level on.
    fn reach(&self, entry: &Entry, level: u64) -> Option<u64> {
        if entry.cost > self.asked.cost || !self.asked.admits(entry, level) {
            return None;
        }
        let label = self.all.get(entry.number)?;
        self.measure.reach(label, self.asked, self.state, level)
    }

    /// The first label of a group that covers the state at a level, and how far.
    fn reach_in(&self, group: &[Entry], level: u64) -> Option<(Entry, u64)> {
        for entry in group {
            if entry.cost > self.asked.cost {
                return None;
            }
            if let Some(to) = self.reach(entry, level) {
                return Some((*entry, to));
            }
        }
        None
    }
}

/// Takes those out of a group that a state covers, and marks them as dead.
fn take_out_of(
    entries: &mut Vec<Entry>,
    all: &mut [NearLabel],
    measure: &Measure<'_>,
    own: &Entry,
    state: &NearState,
) {
    let mut place = entries.partition_point(|other| other.cost < own.cost);
    for _ in place..entries.len() {
        if place >= entries.len() {
            return;
        }
        let other = entries[place];
        if dies(all, measure, own, state, &other) {
            entries.remove(place);
        } else {
            place += 1;
        }
    }
}

/// Whether a state covers a label, which is dead then.
fn dies(
    all: &mut [NearLabel],
    measure: &Measure<'_>,
    own: &Entry,
    state: &NearState,
    other: &Entry,
) -> bool {
    let Some(label) = all.get_mut(other.number) else {
        return false;
    };
    if measure.kills(own, state, other, label) {
        label.is_dead = true;
        return true;
    }
    false
}
