//! Entries of labels, in order.

ghost use Rattle.std.specs.Prelude.{◌≡◌, ◌<◌, ◌≤◌, ℕ, List, All, IfOk, length, slice_index_or};
ghost use Rattle.std.specs.List.Sorted.{IsNonDecreasingBy, IsPermutation};
ghost use Rattle.label_index.specs.Entries.{AreEntries, AreInOrder, HasEntries, IsEntry, TellsTime};
ghost use Rattle.label_index.specs.declared.entry.Entry.{Entry};

use crate::entry::Entry;
use dominance::LabelValue;
use piece_fn::PieceFn;
use std::alloc::{AllocError, Global};

/// How labels `L` are found: by which keys, and what of the kind `T` is kept of each.
pub trait Indexing<L, T> {
    // the key of a label
    ghost key_of: { Self → L → ℕ };
    // the points of its value
    ghost value_of: { L → List (ℕ × ℕ) };
    // what may be kept of it
    ghost keeps: { Self → L → T → Type 0 };
    // where it can be told
    ghost can_keep: { Self → Type 0 };

    /// The key of a label.
    fn key(&self, label: &L) -> u128
        ensures { result ≡ key_of self.now label.now };

    /// The value of a label.
    fn value<'b>(&self, label: &'b L) -> &'b PieceFn
        ensures { result.now ≡ value_of label.now };

    /// What else is kept of a label.
    fn rest(&self, label: &L) -> T
        requires { can_keep self.now }
        ensures { keeps self.now label.now result };
}

/// The entries of the labels: keys rise, and for each key times rise.
pub fn entries<L, T: Drop, I: Indexing<L, T>>(
    alloc: Global,
    indexing: &I,
    labels: &[L],
) -> Result<Vec<Entry<T>>, AllocError>
    requires { I.can_keep indexing.now }
    ensures { IfOk result (λ es. AreEntries (I.key_of indexing.now) I.value_of
        (I.keeps indexing.now) labels.now es.items) }
{
    let entries = in_turn(alloc, indexing, labels)?;
    in_order(entries)
}

/// The entries of the labels, in the order of the labels.
fn in_turn<L, T: Drop, I: Indexing<L, T>>(
    alloc: Global,
    indexing: &I,
    labels: &[L],
) -> Result<Vec<Entry<T>>, AllocError>
    requires { I.can_keep indexing.now }
    ensures each { IfOk result (λ es. All (IsEntry (I.key_of indexing.now) I.value_of
        (I.keeps indexing.now) labels.now) es.items) }
    ensures every { IfOk result (λ es. HasEntries (length labels.now) es.items) }
{
    let mut entries = Vec::with_capacity(alloc, labels.len())?;
    for (number, label) in labels.iter().enumerate() {
        let (_, time) = indexing.value(label).least();
        entries.push(Entry {
            key: indexing.key(label),
            time,
            number,
            rest: indexing.rest(label),
        })?;
    }
    Ok(entries)
}

/// The same entries, put in order: keys rise, and for each key times rise.
pub fn in_order<T: Drop>(entries: Vec<Entry<T>>) -> Result<Vec<Entry<T>>, AllocError>
    ensures same { IfOk result (λ es. IsPermutation entries.items es.items) }
    ensures order { IfOk result (λ es. AreInOrder es.items) }
{
    let mut entries = entries;
    entries.sort_by_key(|entry| entry.time)?;
    entries.sort_by_key(|entry| entry.key)?;
    Ok(entries)
}

/// How many entries come before those with a key.
pub fn first<T: Drop>(entries: &[Entry<T>], key: u128) -> usize
    requires { IsNonDecreasingBy (λ (e : Entry T). e.key) entries.now }
    ensures within { result ≤ length entries.now }
    ensures before { (i : ℕ) (d : Entry T) → i < result →
        (slice_index_or entries.now i d).key < key }
    ensures behind { (i : ℕ) (d : Entry T) → result ≤ i → i < length entries.now →
        key ≤ (slice_index_or entries.now i d).key }
{
    entries.partition_point(|entry| entry.key < key)
}

/// Whether there is an entry at a place, with a key and a time that is no later than one.
pub fn is_in_time<T: Drop>(entries: &[Entry<T>], at: usize, key: u128, time: u64) -> bool
    ensures { TellsTime entries.now at key time result }
{
    at < entries.len() && entries[at].key == key && entries[at].time <= time
}
