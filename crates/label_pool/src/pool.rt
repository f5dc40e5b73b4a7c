//! The pool.
ghost use Rattle.std.specs.Prelude.{◌≡◌, ◌↔◌, ℕ, Bool, true, false, ◌+◌, ◌<◌, ◌≤◌, ◌^◌, [], ◌++◌, length, map, set, slice_get, Some, None, IsTrue, IsNone, IfSome, IfOk, OnErr};
ghost use Rattle.index_links.specs.Lists.{list_at, lists_without};
ghost use Rattle.label_pool.specs.Labels.{IsCovered, IsFirstLive, IsLive, IsNext, NoneWaits, beside, labels_with};
ghost use Rattle.label_pool.specs.Tied.{AreListed, IsRising, IsTied};

use crate::label::Label;
use dominance::Covers;
use index_links::{IndexHeap, Rings};
use std::alloc::{AllocError, Global};
use std::marker::Model;

/// Labels by number, in buckets.
///
/// Clauses see the labels by number, each with its bucket, value, key and parent and whether it is
/// live and settled, and how many buckets there are.
#[derive(Drop)]
pub struct Pool<V: Covers + Drop> {
    labels: Vec<Label<V>>,
    live: Rings,
    queue: IndexHeap,
}

impl<V: Covers + Drop> Model for Pool<V> {
    ghost use Rattle.std.specs.Prelude.{length};
    ghost use Rattle.label_pool.specs.Labels.{Labels};
    ghost use Rattle.label_pool.specs.Tied.{IsTied};

    ghost Value = { Labels V };

    ghost view = { λ p. record { labels = p.labels.items; buckets = length p.live.lists } };

    ghost invariant = { λ p. IsTied p.labels.items p.live p.queue };
}

impl<V: Covers + Drop> Pool<V> {
    /// A pool without labels. Bucket numbers are below `buckets`.
    pub fn new(alloc: Global, buckets: usize) -> Result<Pool<V>, AllocError>
        ensures { IfOk result (λ pool. pool ≡ record { labels = []; buckets = buckets }) }
    {
        let mut live = Rings::new(alloc);
        live.grow(buckets, 0)?;
        Ok(Pool {
            labels: Vec::new(alloc),
            live,
            queue: IndexHeap::new(alloc),
        })
    }

    /// How many labels there are: their numbers are those below. It takes no memory.
    pub fn len(&self) -> usize
        ensures { result ≡ length self.now.labels }
    {
        self.labels.len()
    }

    /// The first live label of the bucket, by number. `None` comes exactly where there is none. It
    /// takes no memory.
    pub fn first_live(&self, bucket: usize) -> Option<usize>
        requires { bucket < self.now.buckets }
        ensures { IsFirstLive self.now.labels bucket 0 result }
    {
        self.live.first(bucket)
    }

    /// The live label behind `i` in its bucket, by number. `None` comes exactly where there is
    /// none. It takes no memory.
    pub fn next_live(&self, i: usize) -> Option<usize>
        requires { (bucket : ℕ) × IsLive self.now.labels bucket i }
        ensures { (bucket : ℕ) → IsLive self.now.labels bucket i →
            IsFirstLive self.now.labels bucket (i + 1) result }
    {
        self.live.next(i)
    }

    /// The value of label `i`. It takes no memory.
    pub fn value(&self, i: usize) -> &V
        requires { i < length self.now.labels }
        ensures { (label : Label V) → slice_get self.now.labels i ≡ Some label →
            result.now ≡ label.value }
    {
        &self.labels[i].value
    }

    /// Whether no other label has made label `i` needless. It takes no memory.
    pub fn is_live(&self, i: usize) -> bool
        requires { i < length self.now.labels }
        ensures { (label : Label V) → slice_get self.now.labels i ≡ Some label →
            result ≡ label.live }
    {
        self.labels[i].live
    }

    /// The label that `i` was come to from, which has a lower number. It takes no memory.
    pub fn parent(&self, i: usize) -> Option<usize>
        requires { i < length self.now.labels }
        ensures parent { (label : Label V) → slice_get self.now.labels i ≡ Some label →
            result ≡ label.parent }
        ensures lower { IfSome result (λ p. p < i) }
    {
        self.labels[i].parent
    }

    /// The key of the label that `take_next` would give out. `None` comes exactly where it would
    /// give out none. It takes no memory.
    pub fn next_key(&self) -> Option<u64>
        ensures none { IsNone result ↔ NoneWaits self.now.labels }
        ensures key { IfSome result (λ key. (i : ℕ) × (label : Label V)
            × IsNext self.now.labels i label × (key ≡ label.key)) }
    {
        self.queue.least_key()
    }

    /// Takes the label that waits and is least by key and then by number, and marks it as settled.
    /// `None` comes exactly where no label waits. It takes no memory.
    pub fn take_next(&mut self) -> Option<usize>
        ensures none { IsNone result ↔ NoneWaits self.old.labels }
        ensures next { IfSome result (λ i. (label : Label V) × IsNext self.old.labels i label
            × (self.new ≡ record self.old {
              labels =
                  set self.old.labels i (record label { settled = true });
            })) }
        ensures unchanged { IsNone result → self.new ≡ self.old }
        ensures small { length self.new.labels < 2 ^ 63 }
    {
        let Some(i) = self.queue.take_least() else {
            return None;
        };
        self.labels[i].settled = true;
        Some(i)
    }

    /// Adds a label to the bucket, as live and unsettled, and answers its number, which is the next
    /// one. `None` comes exactly where a live label of the bucket covers the value, and then
    /// nothing changes.
    ///
    /// Labels of the bucket that the new one covers are live no longer. All else stays as it is,
    /// and after an `Err` everything.
    pub fn add(
        &mut self,
        bucket: usize,
        value: V,
        key: u64,
        parent: Option<usize>,
    ) -> Result<Option<usize>, AllocError>
        requires bucket { bucket < self.old.buckets }
        requires parent { IfSome parent (λ p. p < length self.old.labels) }
        ensures none { IfOk result (λ added. IsNone added
            ↔ IsCovered V.dominates self.old.labels bucket value) }
        ensures unchanged { IfOk result (λ added. IsNone added → self.new ≡ self.old) }
        ensures some { IfOk result (λ added. IfSome added (λ i. i ≡ length self.old.labels)) }
        ensures added { IfOk result (λ added. IfSome added (λ i.
            self.new ≡ record self.old {
              labels = labels_with V.dominates self.old.labels
                  (record {
                    bucket = bucket;
                    value = value;
                    key = key;
                    parent = parent;
                    live = true;
                    settled = false;
                  });
            })) }
        ensures own { IfOk result (λ added. IsCovered V.dominates self.new.labels bucket value) }
        ensures keeps { IfOk result (λ added. (b : ℕ) (x : V) →
            IsCovered V.dominates self.old.labels b x → IsCovered V.dominates self.new.labels b x) }
        ensures err { OnErr result (self.new ≡ self.old) }
    {
        if is_covered(self.labels.as_slice(), &self.live, bucket, &value) {
            return Ok(None);
        }
        let number = self.labels.len();
        self.labels.reserve(1)?;
        self.live.grow(0, number + 1)?;
        self.queue.grow(number + 1)?;
        retire_covered(
            &mut self.labels,
            &mut self.live,
            &mut self.queue,
            bucket,
            &value,
        );
        self.labels.push(Label {
            bucket,
            value,
            key,
            parent,
            live: true,
            settled: false,
        })?;
        self.live.link_last(bucket, number);
        self.queue.put(number, key);
        Ok(Some(number))
    }
}

/// Whether a live label of the bucket covers the value.
fn is_covered<V: Covers + Drop>(labels: &[Label<V>], live: &Rings, bucket: usize, value: &V) -> bool
    requires bucket { bucket < length live.now.lists }
    requires rising { IsRising (list_at live.now.lists bucket) }
    requires listed { AreListed labels.now live.now }
    ensures { IsTrue result ↔ IsCovered V.dominates labels.now bucket value.now }
{
    let mut at = live.first(bucket);
    while let Some(i) = at {
        if labels[i].value.covers_whole(value) {
            return true;
        }
        at = live.next(i);
    }
    false
}

/// Labels of the bucket that the value covers are live no longer.
fn retire_covered<V: Covers + Drop>(
    labels: &mut Vec<Label<V>>,
    live: &mut Rings,
    queue: &mut IndexHeap,
    bucket: usize,
    value: &V,
)
    requires bucket { bucket < length live.old.lists }
    requires tied { IsTied labels.old.items live.old queue.old }
    ensures labels { labels.new.items
        ≡ map (beside V.dominates bucket value.now) labels.old.items }
    ensures tied { IsTied labels.new.items live.new queue.new }
    ensures lists { length live.new.lists ≡ length live.old.lists }
    ensures items { live.new.items ≡ live.old.items }
    ensures queue { length queue.new ≡ length queue.old }
    ensures capacity { labels.new.cap ≡ labels.old.cap }
{
    let mut at = live.first(bucket);
    while let Some(i) = at {
        at = live.next(i);
        if value.covers_whole(&labels[i].value) {
            retire(labels, live, queue, i);
        }
    }
}

/// The live label `i` is live no longer.
fn retire<V: Covers + Drop>(
    labels: &mut Vec<Label<V>>,
    live: &mut Rings,
    queue: &mut IndexHeap,
    i: usize,
)
    requires tied { IsTied labels.old.items live.old queue.old }
    requires live { (bucket : ℕ) × IsLive labels.old.items bucket i }
    ensures labels { (label : Label V) → slice_get labels.old.items i ≡ Some label →
        labels.new.items ≡ set labels.old.items i (record label { live = false }) }
    ensures live { live.new ≡ record live.old { lists = lists_without live.old.lists i } }
    ensures tied { IsTied labels.new.items live.new queue.new }
    ensures queue { length queue.new ≡ length queue.old }
    ensures capacity { labels.new.cap ≡ labels.old.cap }
{
    labels[i].live = false;
    live.unlink(i);
    if queue.holds(i) {
        queue.remove(i);
    }
}
