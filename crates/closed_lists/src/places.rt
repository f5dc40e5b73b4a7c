//! Which entries are looked at first for one that covers a state: those of the state's own set, and
//! then those whose sets are within it and that no other makes needless. What is answered never
//! rests on this choice, so nothing is said of it.

use crate::links::Kept;
use customer_sets::CustSet;
use dominance::Covers;
use label_index::Entry;
use piece_fn::Label;
use std::alloc::{AllocError, Global};

/// In how many slots, one behind another, an entry may stand.
pub(crate) const TRIES: usize = 64;

/// How many entries a word has a bit for.
pub(crate) const BLOCK: usize = 64;

/// Where entries stand, by key and set, without those that are seen to be needless: an earlier one
/// of the same key and set covers what they cover.
#[derive(Drop)]
pub(crate) struct Places {
    /// How many customers there are.
    customers: usize,
    /// Entries in slots by their keys and sets.
    slots: Vec<Slot>,
    /// By key: the place of the first entry with it or a greater one.
    firsts: Vec<usize>,
    /// A word for each block of 64 entries: which of them aren't needless.
    kept: Vec<u64>,
    /// For each block of 64 entries a word a customer: whose labels have served him.
    servers: Vec<u64>,
}

/// A slot for an entry.
#[derive(Clone, Copy)]
pub(crate) struct Slot {
    /// One more than the entry's place; 0 where the slot is free.
    behind: u32,
    /// A part of the entry's mark.
    tag: u32,
}

impl Slot {
    /// The place of its entry, if entries with a mark may be such.
    pub(crate) fn place(self, mark: u64) -> Option<usize> {
        if self.tag != tag_of(mark) {
            return None;
        }
        (self.behind as usize).checked_sub(1)
    }
}

/// What becomes of an entry.
enum Room {
    /// It has its place in this slot, by its mark.
    Slot { slot: usize, mark: u64 },
    /// No slot is free.
    Full,
    /// It is needless.
    Needless,
}

impl Places {
    /// The places of the entries, whose keys rise, and whose times rise for each key.
    pub(crate) fn new(
        alloc: Global,
        customers: usize,
        entries: &[Entry<Kept>],
        labels: &[Label],
    ) -> Result<Places, AllocError> {
        let count = entries.len().saturating_mul(2).saturating_add(1);
        let blocks = entries.len().div_ceil(BLOCK);
        let mut places = Places {
            customers,
            slots: vec![in alloc; Slot { behind: 0, tag: 0 }; count]?,
            firsts: Vec::new(alloc),
            kept: vec![in alloc; 0; blocks]?,
            servers: vec![in alloc; 0; blocks.saturating_mul(customers)]?,
        };
        for (at, entry) in entries.iter().enumerate() {
            places.begin(entry.key, at)?;
            if places.keep(entries, labels, at) {
                places.stand(entry.rest.set, at);
            }
        }
        Ok(places)
    }

    /// Says that the entries with a key begin at a place or before it.
    fn begin(&mut self, key: u128, at: usize) -> Result<(), AllocError> {
        let Ok(key) = usize::try_from(key) else {
            return Ok(());
        };
        if self.firsts.len() <= key {
            self.firsts.resize(key.saturating_add(1), at)?;
        }
        Ok(())
    }

    /// Says that the entry at a place isn't needless, and has this set.
    fn stand(&mut self, set: CustSet, at: usize) {
        let block = at / BLOCK;
        let bit = 1u64.wrapping_shl((at % BLOCK) as u32);
        if let Some(word) = self.kept.get_mut(block) {
            *word |= bit;
        }
        let begin = block.wrapping_mul(self.customers);
        for c in 0..self.customers.min(128) {
            if set.has(c) {
                if let Some(word) = self.servers.get_mut(begin.wrapping_add(c)) {
                    *word |= bit;
                }
            }
        }
    }

    /// The sum of the marks of a set's customers.
    pub(crate) fn marks(&self, set: CustSet) -> u64 {
        let mut marks = 0;
        for c in 0..self.customers.min(128) {
            if set.has(c) {
                marks ^= mark_of(c);
            }
        }
        marks
    }

    /// A slot that isn't free, of those where entries with the mark may stand.
    pub(crate) fn at(&self, mark: u64, tried: usize) -> Option<Slot> {
        let slot = *self.slots.get(slot_of(self.slots.len(), mark, tried)?)?;
        if slot.behind == 0 { None } else { Some(slot) }
    }

    /// The place of the first entry with a key, if there is one.
    pub(crate) fn first(&self, key: u128) -> Option<usize> {
        self.firsts.get(usize::try_from(key).ok()?).copied()
    }

    /// The entries of a block that aren't needless and whose sets are within one, as bits.
    pub(crate) fn within(&self, block: usize, set: CustSet) -> u64 {
        let begin = block.wrapping_mul(self.customers);
        let end = begin.wrapping_add(self.customers);
        let words = self.servers.get(begin..end).unwrap_or(&[]);
        let mut beyond = 0;
        for (c, word) in words.iter().enumerate() {
            if c < 128 && !set.has(c) {
                beyond |= *word;
            }
        }
        self.kept.get(block).copied().unwrap_or(0) & !beyond
    }

    /// Puts an entry into its slot, and answers whether it isn't needless.
    fn keep(&mut self, entries: &[Entry<Kept>], labels: &[Label], at: usize) -> bool {
        match self.room_for(entries, labels, at) {
            Room::Slot { slot, mark } => {
                if let Some(free) = self.slots.get_mut(slot) {
                    *free = Slot {
                        behind: u32::try_from(at.saturating_add(1)).unwrap_or(0),
                        tag: tag_of(mark),
                    };
                }
                true
            }
            Room::Full => true,
            Room::Needless => false,
        }
    }

    /// The first free slot for an entry, unless it is needless.
    fn room_for(&self, entries: &[Entry<Kept>], labels: &[Label], at: usize) -> Room {
        let Some(entry) = entries.get(at) else {
            return Room::Full;
        };
        let mark = mark(entry.key, self.marks(entry.rest.set));
        for tried in 0..TRIES {
            let Some(slot) = slot_of(self.slots.len(), mark, tried) else {
                return Room::Full;
            };
            let Some(other) = self.at(mark, tried) else {
                return Room::Slot { slot, mark };
            };
            if let Some(place) = other.place(mark) {
                if makes_needless(entries, labels, place, entry) {
                    return Room::Needless;
                }
            }
        }
        Room::Full
    }
}

/// A number for a customer, by which sets are told apart.
pub(crate) fn mark_of(customer: usize) -> u64 {
    let mark = (customer as u64 ^ 0x9E37_79B9).wrapping_mul(0x9E37_79B9_7F4A_7C15);
    (mark ^ mark >> 32).wrapping_mul(0xD6E8_FEB8_6659_FD93)
}

/// A number for a key and the marks of a set.
pub(crate) fn mark(key: u128, marks: u64) -> u64 {
    ((key % (1 << 64)) as u64 ^ marks).wrapping_mul(0x9E37_79B9_7F4A_7C15)
}

/// A part of a mark.
fn tag_of(mark: u64) -> u32 {
    (mark % (1 << 32)) as u32
}

/// A slot for a mark, as many behind its first one; `None` where there is none.
fn slot_of(slots: usize, mark: u64, tried: usize) -> Option<usize> {
    let first = (u128::from(mark) * (slots as u128) >> 64) as usize;
    let slot = first.wrapping_add(tried);
    if slot < slots {
        return Some(slot);
    }
    slot.checked_rem(slots)
}

/// Whether the entry at a place has the key and the set of another, and covers what it covers.
fn makes_needless(
    entries: &[Entry<Kept>],
    labels: &[Label],
    at: usize,
    other: &Entry<Kept>,
) -> bool {
    let Some(entry) = entries.get(at) else {
        return false;
    };
    if entry.key != other.key || entry.rest.set != other.rest.set {
        return false;
    }
    match (labels.get(entry.number), labels.get(other.number)) {
        (Some(own), Some(theirs)) => own.value.covers_whole(&theirs.value),
        _ => false,
    }
}
