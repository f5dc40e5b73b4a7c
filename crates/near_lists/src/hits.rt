//! Labels that left room lately. No clause rests on this.

use near_search::Entry;
use std::alloc::{AllocError, Global};

/// So many labels of a place are tried first.
const HITS: usize = 16;

/// The later half of them.
const LATER: usize = 8;

/// The labels of each place that left enough room lately.
#[derive(Drop)]
pub(crate) struct Hits {
    places: Vec<Vec<Entry>>,
    /// How many of them took the place of others.
    turn: usize,
}

impl Hits {
    /// None, of so many places.
    pub(crate) fn new(alloc: Global, places: usize) -> Result<Hits, AllocError> {
        let mut all = Vec::new(alloc);
        for _ in 0..places {
            all.push(Vec::new(alloc))?;
        }
        Ok(Hits {
            places: all,
            turn: 0,
        })
    }

    /// Those of a place.
    pub(crate) fn at(&self, place: usize) -> &[Entry] {
        match self.places.get(place) {
            Some(hits) => hits.as_slice(),
            None => &[],
        }
    }

    /// Moves one of a place forward.
    pub(crate) fn move_forward(&mut self, place: usize, hit: usize) {
        if let Some(hits) = self.places.get_mut(place) {
            if hit < hits.len() {
                hits.swap(hit, hit / 2);
            }
        }
    }

    /// Adds one of a place, in the place of one of the later ones where there are enough.
    pub(crate) fn add(&mut self, place: usize, entry: Entry) -> Result<(), AllocError> {
        let Some(hits) = self.places.get_mut(place) else {
            return Ok(());
        };
        if hits.len() < HITS {
            hits.push(entry)?;
            return Ok(());
        }
        self.turn = (self.turn % LATER + 1) % LATER;
        if let Some(hit) = hits.get_mut(LATER + self.turn % LATER) {
            *hit = entry;
        }
        Ok(())
    }
}
