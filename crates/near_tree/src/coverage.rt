//! Whether the states of a target are covered by labels.

ghost use Rattle.std.specs.Prelude.{◌≡◌, ◌+◌, ◌<◌, ◌^◌, ◌≤◌, IfNone, IfSome, unsigned_abs};
ghost use Rattle.certificate_parts.specs.Ranges.{customer_count};
ghost use Rattle.dominance.specs.LevelTimes.{IsLevel, time_at};
ghost use Rattle.label_steps.specs.Covering.{IsCoveredTo};
ghost use Rattle.piece_fn.specs.PieceFn.{level_times};
ghost use Rattle.near_tree.specs.Judging.{IsJudge};
ghost use Rattle.near_tree.specs.Ranges.{SectionLabelFits};
ghost use Rattle.near_tree.specs.Sites.{leaf_of};
ghost use Rattle.near_tree.specs.Targets.{covers_by};

use crate::SectionLabel;
use crate::judge::Judge;
use crate::looking::Known;
use crate::paid::margin;
use crate::site::last_place;
use customer_sets::LargeSet;
use dominance::LabelValue;
use label_index::{first, is_in_time};
use label_steps::Covering;
use near_proof::{OneByOne, Sought};
use piece_fn::PieceFn;
use std::marker::Model;

/// What the states of a value have in common.
#[derive(Clone, Copy)]
pub(crate) struct Target {
    /// The node where the vehicle is.
    pub(crate) node: usize,
    /// The place of its last.
    pub(crate) last: usize,
    /// The customers that are remembered.
    pub(crate) memory: LargeSet,
    /// What was earned.
    pub(crate) earned: i128,
}

/// The states of a target, asked of the labels of a leaf. Contracts see these.
#[derive(Drop)]
pub(crate) struct Asked<'a> {
    judge: Judge<'a>,
    target: Target,
}

impl<'a> Model for Asked<'a> {
    ghost use Rattle.near_tree.specs.Targets.{Asking};
    ghost use Rattle.near_tree.specs.AskedInside.{asking, IsAsked};

    ghost Value = { Asking };

    ghost view = { asking };

    ghost invariant = { IsAsked };
}

impl<'a> Judge<'a> {
    /// The states of a target, asked of the labels.
    pub(crate) fn asked(&self, target: Target) -> Asked<'a>
        requires judge { IsJudge self.now }
        requires last { target.last < customer_count self.now.site.inst.now + 2 }
        requires earned { unsigned_abs target.earned ≤ 2 ^ 98 }
        ensures { result ≡ record {
          network = self.now.site.inst.now;
          path = self.now.site.path.now;
          section = self.now.site.section.now;
          target = target;
        } }
    {
        Asked {
            judge: *self,
            target,
        }
    }

    /// How far the label covers the states of the value, from a level on; `None` exactly where it
    /// does not cover the state at that level, whose time is given.
    fn reach_by(
        &self,
        label: &SectionLabel,
        target: &Target,
        value: &PieceFn,
        level: u64,
        time: u64,
    ) -> Option<u64>
        requires judge { IsJudge self.now }
        requires label { SectionLabelFits self.now.site.inst.now label.now }
        requires last { target.now.last < customer_count self.now.site.inst.now + 2 }
        requires earned { unsigned_abs target.now.earned ≤ 2 ^ 98 }
        requires level { IsLevel (level_times value.now) level }
        requires time { time ≡ time_at (level_times value.now) level }
        ensures some { IfSome result (IsCoveredTo (covers_by self.now.site.inst.now
            (leaf_of self.now.site) label.now target.now) (level_times value.now) level) }
        ensures none { IfNone result (covers_by self.now.site.inst.now (leaf_of self.now.site)
            label.now target.now level (time_at (level_times value.now) level) → ⊥) }
    {
        if label.node != target.node {
            return None;
        }
        if !label.memory.is_subset(target.memory) {
            return None;
        }
        let last = last_place(label.last, self.site.customers());
        if !self.stands[last].has(target.last) {
            return None;
        }
        match margin(self.site.section.weight, label.earned, target.earned) {
            Some(extra) => label.value.reach(value, extra, level),
            None => None,
        }
    }
}

impl Covering for Asked<'_> {
    ghost use Rattle.near_tree.specs.Targets.{covers};

    ghost covers = { covers };

    /// Labels at the target's node are looked at, those of least time first.
    fn reach(&self, value: &PieceFn, level: u64) -> Option<u64> {
        let Some(time) = value.at(level) else {
            return None;
        };
        let (entries, labels) = (
            self.judge.entries,
            self.judge.site.section.labels.as_slice(),
        );
        let key = self.target.node as u128;
        let begin = first(entries, key);
        let mut at = begin;
        while is_in_time(entries, at, key, time) {
            let label = &labels[entries[at].number];
            match self.judge.reach_by(label, &self.target, value, level, time) {
                Some(to) => return Some(to),
                None => at += 1,
            }
        }
        None
    }
}

impl OneByOne<Known> for Asked<'_> {
    fn node(&self) -> usize {
        self.target.node
    }

    fn sought(&self, level: u64, time: u64) -> Sought<Known> {
        let target = &self.target;
        let known = Known::of_state(target.memory, target.last);
        let weight = self.judge.site.section.weight;
        Sought::new(weight, level, time, target.earned, known)
    }

    fn reach_of(&self, number: usize, value: &PieceFn, level: u64, time: u64) -> Option<u64> {
        let labels = self.judge.site.section.labels.as_slice();
        if number >= labels.len() {
            return None;
        }
        let label = &labels[number];
        self.judge.reach_by(label, &self.target, value, level, time)
    }
}
