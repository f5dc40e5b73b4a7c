//! Doubly linked lists by index.
ghost use Rattle.std.specs.Prelude.{◌≡◌, ℕ, ◌<◌, ◌↔◌, List, [], ◌∷◌, ◌++◌, length, max, slice_get, IsTrue, IfSome, OnOk, OnErr};
ghost use Rattle.index_links.specs.Lists.{list_at, AreDisjoint, IsLinked, lists_padded, lists_with_before, lists_with_last, lists_without};
ghost use Rattle.index_links.specs.Links.{ends_with_first, ends_with_last, slots_with_next, slots_with_prev};

use std::alloc::{AllocError, Global};
use std::marker::Model;

/// What an item knows: the list that it stands in, and its neighbours there.
#[derive(Clone, Copy, Drop)]
struct Slot {
    list: Option<usize>,
    prev: Option<usize>,
    next: Option<usize>,
}

const UNLINKED: Slot = Slot {
    list: None,
    prev: None,
    next: None,
};

/// The first and the last item of a list.
#[derive(Clone, Copy, Drop)]
struct Ends {
    first: Option<usize>,
    last: Option<usize>,
}

const NO_ENDS: Ends = Ends {
    first: None,
    last: None,
};

/// The links alone: the ends by list number, and the slots by item number.
#[derive(Drop)]
struct Links {
    ends: Vec<Ends>,
    slots: Vec<Slot>,
}

impl Links {
    /// Sets what stands behind the item `prev` of the list, or the list's first item where `prev`
    /// is `None`.
    fn set_next(&mut self, list: usize, prev: Option<usize>, to: Option<usize>)
        requires list { list < length self.old.ends.items }
        requires prev { IfSome prev (λ p. p < length self.old.slots.items) }
        ensures ends { self.new.ends.items ≡ ends_with_first self.old.ends.items list prev to }
        ensures slots { self.new.slots.items ≡ slots_with_next self.old.slots.items prev to }
        ensures lists { length self.new.ends.items ≡ length self.old.ends.items }
        ensures items { length self.new.slots.items ≡ length self.old.slots.items }
    {
        match prev {
            Some(p) => self.slots[p].next = to,
            None => self.ends[list].first = to,
        }
    }

    /// Sets what stands before the item `next` of the list, or the list's last item where `next` is
    /// `None`.
    fn set_prev(&mut self, list: usize, next: Option<usize>, to: Option<usize>)
        requires list { list < length self.old.ends.items }
        requires next { IfSome next (λ n. n < length self.old.slots.items) }
        ensures ends { self.new.ends.items ≡ ends_with_last self.old.ends.items list next to }
        ensures slots { self.new.slots.items ≡ slots_with_prev self.old.slots.items next to }
        ensures lists { length self.new.ends.items ≡ length self.old.ends.items }
        ensures items { length self.new.slots.items ≡ length self.old.slots.items }
    {
        match next {
            Some(n) => self.slots[n].prev = to,
            None => self.ends[list].last = to,
        }
    }
}

/// Doubly linked lists of item numbers, each item in at most one list.
///
/// Clauses see the lists by list number, and how many item numbers there are. Each list is in the
/// order of its links. Only `grow` takes memory.
#[derive(Drop)]
pub struct Rings {
    links: Links,
}

impl Model for Rings {
    ghost use Rattle.index_links.specs.Lists.{Lists};

    ghost Value = { Lists };

    ghost use Rattle.index_links.specs.RingsView.{lists_of, IsSound};

    ghost view = { lists_of };

    ghost invariant = { IsSound };
}

impl Rings {
    /// No list and no item number. It takes no memory.
    pub fn new(alloc: Global) -> Rings
        ensures { result ≡ record { lists = []; items = 0 } }
    {
        Rings {
            links: Links {
                ends: Vec::new(alloc),
                slots: Vec::new(alloc),
            },
        }
    }

    /// Makes room for list numbers below `lists` and item numbers below `items`. New lists are
    /// empty, and new items stand in no list. It never shrinks, and after an `Err` nothing has
    /// changed.
    pub fn grow(&mut self, lists: usize, items: usize) -> Result<(), AllocError>
        ensures ok { OnOk result (self.new
            ≡ record {
              lists = lists_padded self.old.lists lists;
              items = max items self.old.items;
            }) }
        ensures err { OnErr result (self.new ≡ self.old) }
    {
        let lists = lists.max(self.links.ends.len());
        let items = items.max(self.links.slots.len());
        self.links.ends.reserve(lists - self.links.ends.len())?;
        self.links.slots.resize(items, UNLINKED)?;
        self.links.ends.resize(lists, NO_ENDS)?;
        Ok(())
    }

    /// Puts the item `i` at the end of the list.
    pub fn link_last(&mut self, list: usize, i: usize)
        requires list { list < length self.old.lists }
        requires item { i < self.old.items }
        requires free { IsLinked self.old.lists i → ⊥ }
        ensures { self.new ≡ record self.old { lists = lists_with_last self.old.lists list i } }
    {
        let last = self.links.ends[list].last;
        self.links.set_next(list, last, Some(i));
        self.links.set_prev(list, None, Some(i));
        self.links.slots[i] = Slot {
            list: Some(list),
            prev: last,
            next: None,
        };
    }

    /// Puts the item `i` directly before the item `next`, into its list.
    pub fn link_before(&mut self, next: usize, i: usize)
        requires next { IsLinked self.old.lists next }
        requires item { i < self.old.items }
        requires free { IsLinked self.old.lists i → ⊥ }
        ensures { self.new ≡ record self.old { lists = lists_with_before self.old.lists next i } }
    {
        let behind = self.links.slots[next];
        if let Some(list) = behind.list {
            self.links.set_next(list, behind.prev, Some(i));
            self.links.set_prev(list, Some(next), Some(i));
            self.links.slots[i] = Slot {
                list: Some(list),
                prev: behind.prev,
                next: Some(next),
            };
        }
    }

    /// Takes the item `i` out of its list. The others keep their order.
    pub fn unlink(&mut self, i: usize)
        requires { IsLinked self.old.lists i }
        ensures { self.new ≡ record self.old { lists = lists_without self.old.lists i } }
    {
        let slot = self.links.slots[i];
        if let Some(list) = slot.list {
            self.links.set_next(list, slot.prev, slot.next);
            self.links.set_prev(list, slot.next, slot.prev);
            self.links.slots[i] = UNLINKED;
        }
    }

    /// The first item of the list. `None` comes exactly where the list is empty.
    pub fn first(&self, list: usize) -> Option<usize>
        requires { list < length self.now.lists }
        ensures first { result ≡ slice_get (list_at self.now.lists list) 0 }
        ensures linked { IfSome result (IsLinked self.now.lists) }
        ensures disjoint { AreDisjoint self.now }
    {
        self.links.ends[list].first
    }

    /// The item behind `i` in its list. `None` comes exactly where `i` is the last item.
    pub fn next(&self, i: usize) -> Option<usize>
        requires { IsLinked self.now.lists i }
        ensures next { (k : ℕ) (before after : List ℕ) →
            list_at self.now.lists k ≡ before ++ i ∷ after → result ≡ slice_get after 0 }
        ensures linked { IfSome result (IsLinked self.now.lists) }
        ensures disjoint { AreDisjoint self.now }
    {
        self.links.slots[i].next
    }
}
