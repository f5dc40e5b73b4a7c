//! Who may come next, and how often sets are entered, where a way down a tree ends. No clause rests
//! on this.

use crate::fork::{Fork, Turn};
use customer_sets::LargeSet;
use near_completion::Follow;
use near_prices::EntryRange;
use std::alloc::{AllocError, Global};

/// What holds at the end of a way down.
#[derive(Drop)]
pub(crate) struct Site {
    /// Who may come next after whom. No set is counted.
    pub(crate) follow: Follow,
    /// The counted sets, in the order of their first mention.
    pub(crate) entries: Vec<EntryRange>,
}

/// What holds at the end of these turns, among so many customers.
pub(crate) fn site_of(alloc: Global, customers: usize, turns: &[Turn]) -> Result<Site, AllocError> {
    let mut site = Site {
        follow: Follow::new(alloc, customers)?,
        entries: Vec::new(alloc),
    };
    for turn in turns {
        site.take(turn)?;
    }
    Ok(site)
}

impl Site {
    /// Goes on by a turn.
    fn take(&mut self, turn: &Turn) -> Result<(), AllocError> {
        match &turn.fork {
            Fork::Pair { before, after } => {
                self.split(*before, *after, turn.is_second);
                Ok(())
            }
            Fork::Entries { most, set } => self.narrow(*most, *set, turn.is_second),
        }
    }

    /// Lets a customer come next after another one for sure, or not at all.
    fn split(&mut self, before: usize, after: usize, is_second: bool) {
        if is_second {
            self.follow.require(before, after);
        } else {
            self.follow.forbid(Some(before), Some(after));
        }
    }

    /// Narrows the range of a set.
    fn narrow(&mut self, most: u32, set: LargeSet, is_second: bool) -> Result<(), AllocError> {
        let mut range = range_of(&self.entries, set);
        if is_second {
            range.least = most.saturating_add(1);
        } else {
            range.most = most;
        }
        for own in self.entries.iter_mut() {
            if own.set == set {
                *own = range;
                return Ok(());
            }
        }
        self.entries.push(range)?;
        Ok(())
    }
}

/// The range of a set: from 1 to its size, where it isn't counted yet.
pub(crate) fn range_of(entries: &[EntryRange], set: LargeSet) -> EntryRange {
    for entry in entries {
        if entry.set == set {
            return *entry;
        }
    }
    EntryRange {
        set,
        least: 1,
        most: u32::try_from(set.len()).unwrap_or(u32::MAX),
    }
}

/// A copy of ranges.
pub(crate) fn copied(alloc: Global, entries: &[EntryRange]) -> Result<Vec<EntryRange>, AllocError> {
    let mut own = Vec::with_capacity(alloc, entries.len())?;
    own.extend_from_slice(entries)?;
    Ok(own)
}
