//! A pairing heap by index.
ghost use Rattle.std.specs.Prelude.{◌≡◌, ◌≢◌, ◌⊎◌, ℕ, ◌-◌, ◌<◌, ◌≤◌, ◌↔◌, [], ◌++◌, length, replicate, set, is_some, IsTrue, IsFalse, IsSome, IsNone, IfSome, OnOk, OnErr, Some, None};
ghost use Rattle.index_links.specs.Lists.{list_at, AreDisjoint, IsIn};
ghost use Rattle.index_links.specs.Queue.{key_at, HasPair, IsEmpty, IsLeast};
ghost use Rattle.index_links.specs.Forest.{IsAbove, IsCut, IsForest, SameLinked};

use crate::rings::Rings;
use std::alloc::{AllocError, Global};
use std::marker::Model;

/// A queue of item numbers with keys, each item at most once: a pairing heap in its multipass form
/// (Fredman, Sedgewick, Sleator and Tarjan, "The pairing heap: a new form of self-adjusting heap",
/// Algorithmica 1, 1986).
///
/// Clauses see the key of each item number, where the item is held. Only `grow` takes memory.
#[derive(Drop)]
pub struct IndexHeap {
    keys: Vec<Option<u64>>,
    children: Rings,
    root: Option<usize>,
}

impl Model for IndexHeap {
    ghost use Rattle.std.specs.Prelude.{ℕ, List, Option};

    ghost Value = { List (Option ℕ) };

    ghost use Rattle.index_links.specs.HeapView.{keys_of, IsSoundHeap};

    ghost view = { keys_of };

    ghost invariant = { IsSoundHeap };
}

impl IndexHeap {
    /// Holds nothing, and has no item number. It takes no memory.
    pub fn new(alloc: Global) -> IndexHeap
        ensures { result ≡ [] }
    {
        IndexHeap {
            keys: Vec::new(alloc),
            children: Rings::new(alloc),
            root: None,
        }
    }

    /// Makes room for item numbers below `items`. It never shrinks, and after an `Err` nothing has
    /// changed.
    pub fn grow(&mut self, items: usize) -> Result<(), AllocError>
        ensures ok { OnOk result (self.new ≡ self.old ++ replicate (items - length self.old) None) }
        ensures err { OnErr result (self.new ≡ self.old) }
    {
        let items = items.max(self.keys.len());
        self.keys.reserve(items - self.keys.len())?;
        self.children.grow(items, items)?;
        self.keys.resize(items, None)?;
        Ok(())
    }

    /// Puts the item into the queue, with the key.
    pub fn put(&mut self, i: usize, key: u64)
        requires item { i < length self.old }
        requires free { IsNone (key_at self.old i) }
        ensures { self.new ≡ set self.old i (Some key) }
    {
        self.keys[i] = Some(key);
        if let Some(root) = self.root {
            let (winner, loser) = winner_and_loser(self.keys.as_slice(), i, root);
            self.children.link_last(winner, loser);
            self.root = Some(winner);
        } else {
            self.root = Some(i);
        }
    }

    /// Takes out the item that is least by key and then by number. `None` comes exactly where
    /// nothing is held.
    pub fn take_least(&mut self) -> Option<usize>
        ensures empty { IsNone result ↔ IsEmpty self.old }
        ensures least { IfSome result (λ i. (key : ℕ) × IsLeast self.old key i) }
        ensures taken { IfSome result (λ i. self.new ≡ set self.old i None) }
        ensures unchanged { IsNone result → self.new ≡ self.old }
    {
        let Some(root) = self.root else {
            return None;
        };
        let next = cut(self.keys.as_slice(), &mut self.children, root);
        self.keys[root] = None;
        self.root = next;
        Some(root)
    }

    /// The key of the item that is least by key and then by number. `None` comes exactly where
    /// nothing is held.
    pub fn least_key(&self) -> Option<u64>
        ensures empty { IsNone result ↔ IsEmpty self.now }
        ensures least { IfSome result (λ key. (i : ℕ) × IsLeast self.now key i) }
    {
        let Some(root) = self.root else {
            return None;
        };
        self.keys[root]
    }

    /// Takes out the item.
    pub fn remove(&mut self, i: usize)
        requires { IsSome (key_at self.old i) }
        ensures { self.new ≡ set self.old i None }
    {
        let child = cut(self.keys.as_slice(), &mut self.children, i);
        self.keys[i] = None;
        if let Some(root) = self.root {
            if root == i {
                self.root = child;
            } else {
                self.children.unlink(i);
                if let Some(c) = child {
                    self.children.link_last(root, c);
                }
            }
        }
    }

    /// Whether the item is held.
    pub fn holds(&self, i: usize) -> bool
        requires { i < length self.now }
        ensures { result ≡ is_some (key_at self.now i) }
    {
        self.keys[i].is_some()
    }
}

/// Whether the pair of `i` comes before that of `j`.
fn comes_before(keys: &[Option<u64>], i: usize, j: usize) -> bool
    requires i { (key : ℕ) × HasPair keys.now key i }
    requires j { (key : ℕ) × HasPair keys.now key j }
    ensures before { IsTrue result → IsAbove keys.now i j }
    ensures after { IsFalse result → i ≢ j → IsAbove keys.now j i }
{
    match (keys[i], keys[j]) {
        (Some(a), Some(b)) => a < b || (a == b && i < j),
        _ => false,
    }
}

/// The two items, the one that comes before first.
fn winner_and_loser(keys: &[Option<u64>], a: usize, b: usize) -> (usize, usize)
    requires a { (key : ℕ) × HasPair keys.now key a }
    requires b { (key : ℕ) × HasPair keys.now key b }
    requires apart { a ≢ b }
    ensures order { IsAbove keys.now result.0 result.1 }
    ensures both { ((result.0 ≡ a) × (result.1 ≡ b)) ⊎ ((result.0 ≡ b) × (result.1 ≡ a)) }
{
    if comes_before(keys, a, b) {
        (a, b)
    } else {
        (b, a)
    }
}

/// Two children of the parent that stand side by side: the one at `at` and the one behind it, or
/// the first two where `at` is the last. `None` where there is one child at most.
fn neighbours(children: &Rings, parent: usize, at: usize) -> Option<(usize, usize)>
    requires parent { parent < length children.now.lists }
    requires at { IsIn at (list_at children.now.lists parent) }
    ensures one { IsNone result → length (list_at children.now.lists parent) ≤ 1 }
    ensures disjoint { AreDisjoint children.now }
    ensures two { IfSome result (λ pair.
        (IsIn pair.0 (list_at children.now.lists parent)) ×
        (IsIn pair.1 (list_at children.now.lists parent)) × (pair.0 ≢ pair.1)) }
{
    if let Some(next) = children.next(at) {
        return Some((at, next));
    }
    let Some(first) = children.first(parent) else {
        return None;
    };
    let Some(second) = children.next(first) else {
        return None;
    };
    Some((first, second))
}

/// Makes one tree of the trees at two children of the parent, and answers its root.
fn meld(keys: &[Option<u64>], children: &mut Rings, parent: usize, a: usize, b: usize) -> usize
    requires forest { IsForest keys.now children.old }
    requires disjoint { AreDisjoint children.old }
    requires a { IsIn a (list_at children.old.lists parent) }
    requires b { IsIn b (list_at children.old.lists parent) }
    requires apart { a ≢ b }
    ensures forest { IsForest keys.now children.new }
    ensures same { SameLinked children.old.lists children.new.lists }
    ensures shorter { length (list_at children.new.lists parent)
        < length (list_at children.old.lists parent) }
    ensures winner { IsIn result (list_at children.new.lists parent) }
{
    let (winner, loser) = winner_and_loser(keys, a, b);
    children.unlink(loser);
    children.link_last(winner, loser);
    winner
}

/// Makes one tree of the trees under the parent, pair by pair in passes over them, takes it off and
/// answers its root.
fn cut(keys: &[Option<u64>], children: &mut Rings, parent: usize) -> Option<usize>
    requires parent { parent < length keys.now }
    requires forest { IsForest keys.now children.old }
    ensures forest { IsForest keys.now children.new }
    ensures cut { IsCut keys.now children.old.lists children.new.lists parent result }
{
    let Some(first) = children.first(parent) else {
        return None;
    };
    let mut at = first;
    while let Some((a, b)) = neighbours(children, parent, at) {
        let winner = meld(keys, children, parent, a, b);
        at = children.next(winner).unwrap_or(winner);
    }
    children.unlink(at);
    Some(at)
}
