//! Whether the states of a target are covered by the labels of a question.

ghost use Rattle.std.specs.Prelude.{◌≡◌, ◌^◌, ◌<◌, ◌≤◌, IfNone, IfSome, length, slice_index_or, unsigned_abs};
ghost use Rattle.dominance.specs.LevelTimes.{IsLevel, time_at};
ghost use Rattle.ev_model.specs.Network.{node_count};
ghost use Rattle.label_steps.specs.Covering.{IsCoveredTo};
ghost use Rattle.piece_fn.specs.PieceFn.{level_times};
ghost use Rattle.piece_fn.specs.declared.label.Label.{Label};
ghost use Rattle.closed_lists.specs.Asking.{covers};
ghost use Rattle.closed_lists.specs.Links.{IsEntry};
ghost use Rattle.closed_lists.specs.Looking.{Misses};
ghost use Rattle.closed_lists.specs.Targets.{state_of};

use crate::links::{Kept, key_of};
use crate::paid::{is_too_dear, margin};
use crate::places::{BLOCK, TRIES, mark};
use crate::question::Question;
use customer_sets::CustSet;
use label_index::{Entry, first, is_in_time};
use label_steps::Covering;
use piece_fn::{Label, PieceFn};
use std::marker::Model;

/// What the states of a value have in common.
#[derive(Clone, Copy)]
pub(crate) struct Target {
    /// The node of the last customer, or 0 where none was served yet.
    pub(crate) last: usize,
    /// The node where the vehicle is.
    pub(crate) node: usize,
    /// The customers served.
    pub(crate) set: CustSet,
    /// The sum that is paid.
    pub(crate) paid: i128,
}

/// The states of a target, asked of the labels of a question. Contracts see both.
#[derive(Drop)]
pub(crate) struct Asked<'a> {
    question: &'a Question<'a>,
    target: &'a Target,
    /// The key of labels at the target's node after its customer.
    key: u128,
    /// The mark of such labels with the target's set.
    mark: u64,
}

impl<'a> Model for Asked<'a> {
    ghost use Rattle.closed_lists.specs.Asking.{Asking};
    ghost use Rattle.closed_lists.specs.AskedInside.{asking, IsAsked};

    ghost Value = { Asking };

    ghost view = { asking };

    ghost invariant = { IsAsked };
}

impl Question<'_> {
    /// The states of a target, asked of the labels; with the marks of its set.
    pub(crate) fn asked<'b>(&'b self, target: &'b Target, marks: u64) -> Asked<'b>
        requires last { target.now.last < node_count self.now.network }
        requires node { target.now.node < node_count self.now.network }
        requires paid { unsigned_abs target.now.paid ≤ 2 ^ 92 }
        ensures { result ≡ record { question = self.now; target = target.now } }
    {
        let key = key_of(self.inst.nodes(), target.last, target.node);
        Asked {
            question: self,
            target,
            key,
            mark: mark(key, marks),
        }
    }
}

impl Covering for Asked<'_> {
    ghost use Rattle.closed_lists.specs.Asking.{covers};

    ghost covers = { covers };

    /// Labels of the same set are looked at first, and all only where none that is needed covers
    /// the state.
    fn reach(&self, value: &PieceFn, level: u64) -> Option<u64> {
        let Some(time) = value.at(level) else {
            return None;
        };
        if let Some(to) = self.reach_same(value, level, time) {
            return Some(to);
        }
        match self.reach_kept(value, level, time) {
            Some(to) => Some(to),
            None => self.reach_any(value, level, time),
        }
    }
}

impl Asked<'_> {
    /// How far a label with the target's set covers the value, from a level on; `None` says
    /// nothing.
    fn reach_same(&self, value: &PieceFn, level: u64, time: u64) -> Option<u64>
        requires level { IsLevel (level_times value.now) level }
        requires time { time ≡ time_at (level_times value.now) level }
        ensures some { IfSome result
            (IsCoveredTo (covers self.now) (level_times value.now) level) }
    {
        for tried in 0..TRIES {
            let slot = self.question.places().at(self.mark, tried)?;
            if let Some(at) = slot.place(self.mark) {
                if let Some(to) = self.reach_at(at, value, level, time) {
                    return Some(to);
                }
            }
        }
        None
    }

    /// The same by the label of the entry at a place; `None` says nothing.
    fn reach_at(&self, at: usize, value: &PieceFn, level: u64, time: u64) -> Option<u64>
        requires level { IsLevel (level_times value.now) level }
        requires time { time ≡ time_at (level_times value.now) level }
        ensures some { IfSome result
            (IsCoveredTo (covers self.now) (level_times value.now) level) }
    {
        let entries = self.question.entries();
        if !is_in_time(entries, at, self.key, time) {
            return None;
        }
        self.reach_of(&entries[at], value, level, time)
    }

    /// The same by a label that no other makes needless; `None` says nothing.
    fn reach_kept(&self, value: &PieceFn, level: u64, time: u64) -> Option<u64>
        requires level { IsLevel (level_times value.now) level }
        requires time { time ≡ time_at (level_times value.now) level }
        ensures some { IfSome result
            (IsCoveredTo (covers self.now) (level_times value.now) level) }
    {
        let places = self.question.places();
        let entries = self.question.entries();
        let begin = places.first(self.key)?;
        for block in begin / BLOCK..entries.len().div_ceil(BLOCK) {
            let at = begin.max(block.wrapping_mul(BLOCK));
            if !is_in_time(entries, at, self.key, time) {
                return None;
            }
            let later = u64::MAX.wrapping_shl((at % BLOCK) as u32);
            let labels = places.within(block, self.target.set) & later;
            if let Some(to) = self.reach_in(block, labels, value, level, time) {
                return Some(to);
            }
        }
        None
    }

    /// The same by a label of a block whose bit is set; `None` says nothing.
    fn reach_in(
        &self,
        block: usize,
        labels: u64,
        value: &PieceFn,
        level: u64,
        time: u64,
    ) -> Option<u64>
        requires level { IsLevel (level_times value.now) level }
        requires time { time ≡ time_at (level_times value.now) level }
        ensures some { IfSome result
            (IsCoveredTo (covers self.now) (level_times value.now) level) }
    {
        let mut left = labels;
        for _ in 0..labels.count_ones() {
            let bit = left.trailing_zeros() as usize;
            left &= left.wrapping_sub(1);
            let at = block.wrapping_mul(BLOCK).wrapping_add(bit);
            if let Some(to) = self.reach_at(at, value, level, time) {
                return Some(to);
            }
        }
        None
    }

    /// The same by any label; `None` where the state at the level is not covered.
    fn reach_any(&self, value: &PieceFn, level: u64, time: u64) -> Option<u64>
        requires level { IsLevel (level_times value.now) level }
        requires time { time ≡ time_at (level_times value.now) level }
        ensures some { IfSome result
            (IsCoveredTo (covers self.now) (level_times value.now) level) }
        ensures none { IfNone result
            (covers self.now level (time_at (level_times value.now) level) → ⊥) }
    {
        let entries = self.question.entries();
        let begin = first(entries, self.key);
        let mut at = begin;
        while is_in_time(entries, at, self.key, time) {
            match self.reach_of(&entries[at], value, level, time) {
                Some(to) => return Some(to),
                None => at += 1,
            }
        }
        None
    }

    /// The same by the label of an entry, which is at the same node after the same customer and has
    /// a time that is no later than the state's.
    fn reach_of(&self, entry: &Entry<Kept>, value: &PieceFn, level: u64, time: u64) -> Option<u64>
        requires entry { IsEntry (node_count self.now.question.network) self.now.question.prices
            self.now.question.labels entry.now }
        requires last { (d : Label) →
            (slice_index_or self.now.question.labels entry.now.number d).last
            ≡ self.now.target.last }
        requires node { (d : Label) →
            (slice_index_or self.now.question.labels entry.now.number d).node
            ≡ self.now.target.node }
        requires level { IsLevel (level_times value.now) level }
        requires time { time ≡ time_at (level_times value.now) level }
        requires early { entry.now.time ≤ time }
        requires own { unsigned_abs entry.now.rest.paid ≤ 2 ^ 91 }
        ensures some { IfSome result
            (IsCoveredTo (covers self.now) (level_times value.now) level) }
        ensures none { IfNone result
            (Misses self.now.question (state_of self.now.target value.now level) entry.now) }
    {
        if !entry.rest.set.is_subset(self.target.set) {
            return None;
        }
        let weight = self.question.weight();
        if is_too_dear(weight, time - entry.time, entry.rest.paid, self.target.paid) {
            return None;
        }
        match margin(weight, entry.rest.paid, self.target.paid) {
            Some(extra) => self.label_of(entry).value.reach(value, extra, level),
            None => None,
        }
    }

    /// The label of an entry.
    fn label_of(&self, entry: &Entry<Kept>) -> &Label
        requires { entry.now.number < length self.now.question.labels }
        ensures { (d : Label) →
            result.now ≡ slice_index_or self.now.question.labels entry.now.number d }
    {
        self.question.label(entry.number)
    }
}
