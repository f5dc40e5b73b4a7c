//! Whether the states of a target are covered by labels.

ghost use Rattle.std.specs.Prelude.{◌≡◌, ◌≤◌, IfNone, IfSome};
ghost use Rattle.dominance.specs.LevelTimes.{IsLevel, time_at};
ghost use Rattle.label_steps.specs.Covering.{IsCoveredTo};
ghost use Rattle.piece_fn.specs.PieceFn.{level_times};
ghost use Rattle.near_proof.specs.Links.{AreEntries};
ghost use Rattle.near_proof.specs.Targets.{covers, covers_by};

use crate::NearLabel;
use crate::asking::OneByOne;
use crate::looks::{Brief, Compared, Looks, Sought};
use crate::margins::margin;
use customer_sets::CustSet;
use dominance::LabelValue;
use label_index::{Entry, first, is_in_time};
use label_steps::Covering;
use piece_fn::PieceFn;
use std::alloc::{AllocError, Global};
use std::marker::Model;

/// What the states of a value have in common.
#[derive(Clone, Copy)]
pub(crate) struct Target {
    /// The node where the vehicle is.
    pub(crate) node: usize,
    /// The customers that are remembered.
    pub(crate) memory: CustSet,
    /// How many services there were.
    pub(crate) count: usize,
    /// What was earned by them.
    pub(crate) earned: u128,
}

/// The states of a target, asked of labels under a weight of time. Contracts see these.
#[derive(Drop)]
pub(crate) struct Asked<'a> {
    weight: u64,
    labels: &'a [NearLabel],
    entries: &'a [Entry<()>],
    target: Target,
}

impl<'a> Model for Asked<'a> {
    ghost use Rattle.near_proof.specs.Targets.{Asking};
    ghost use Rattle.near_proof.specs.AskedInside.{asking, IsAsked};

    ghost Value = { Asking };

    ghost view = { asking };

    ghost invariant = { IsAsked };
}

impl<'a> Asked<'a> {
    /// The states of a target, asked of the labels that have the entries.
    pub(crate) fn new(
        weight: u64,
        labels: &'a [NearLabel],
        entries: &'a [Entry<()>],
        target: Target,
    ) -> Asked<'a>
        requires weight { weight ≤ 1 }
        requires entries { AreEntries labels.now entries.now }
        ensures { result ≡ record { weight = weight; labels = labels.now; target = target } }
    {
        Asked {
            weight,
            labels,
            entries,
            target,
        }
    }
}

impl Covering for Asked<'_> {
    ghost use Rattle.near_proof.specs.Targets.{covers};

    ghost covers = { covers };

    /// Labels at the target's node are looked at, those of least time first.
    fn reach(&self, value: &PieceFn, level: u64) -> Option<u64> {
        let Some(time) = value.at(level) else {
            return None;
        };
        let (entries, labels) = (self.entries, self.labels);
        let key = self.target.node as u128;
        let begin = first(entries, key);
        let mut at = begin;
        while is_in_time(entries, at, key, time) {
            let label = &labels[entries[at].number];
            match reach_by(label, self.weight, &self.target, value, level, time) {
                Some(to) => return Some(to),
                None => at += 1,
            }
        }
        None
    }
}

impl OneByOne<Served> for Asked<'_> {
    fn node(&self) -> usize {
        self.target.node
    }

    fn sought(&self, level: u64, time: u64) -> Sought<Served> {
        let target = &self.target;
        let served = Served {
            memory: target.memory,
            count: target.count,
        };
        Sought::new(self.weight, level, time, signed(target.earned), served)
    }

    fn reach_of(&self, number: usize, value: &PieceFn, level: u64, time: u64) -> Option<u64> {
        if number >= self.labels.len() {
            return None;
        }
        let label = &self.labels[number];
        reach_by(label, self.weight, &self.target, value, level, time)
    }
}

/// Whom a vehicle remembers, and how many services there were.
#[derive(Clone, Copy)]
pub(crate) struct Served {
    memory: CustSet,
    count: usize,
}

impl Compared for Served {
    fn may_cover(&self, other: &Served) -> bool {
        self.count <= other.count && self.memory.is_subset(other.memory)
    }
}

/// The labels at each of so many nodes, as they are looked at.
pub(crate) fn looks_of(
    alloc: Global,
    weight: u64,
    nodes: usize,
    labels: &[NearLabel],
) -> Result<Looks<Served>, AllocError> {
    let mut briefs = Vec::with_capacity(alloc, labels.len())?;
    for (number, label) in labels.iter().enumerate() {
        let served = Served {
            memory: label.memory,
            count: label.count,
        };
        let earned = signed(label.earned);
        briefs.push(Brief::new(weight, number, label.node, &label.value, earned, served))?;
    }
    Looks::new(alloc, nodes, briefs)
}

/// What was earned, as far as it fits.
fn signed(earned: u128) -> i128 {
    i128::try_from(earned).unwrap_or(i128::MAX)
}

/// How far the label covers the states of the value, from a level on; `None` exactly where it does
/// not cover the state at that level, whose time is given.
fn reach_by(
    label: &NearLabel,
    weight: u64,
    target: &Target,
    value: &PieceFn,
    level: u64,
    time: u64,
) -> Option<u64>
    requires weight { weight ≤ 1 }
    requires level { IsLevel (level_times value.now) level }
    requires time { time ≡ time_at (level_times value.now) level }
    ensures some { IfSome result
        (IsCoveredTo (covers_by weight label.now target.now) (level_times value.now) level) }
    ensures none { IfNone result
        (covers_by weight label.now target.now level (time_at (level_times value.now) level) → ⊥) }
{
    if label.node != target.node || target.count < label.count {
        return None;
    }
    if !label.memory.is_subset(target.memory) {
        return None;
    }
    match margin(weight, label.earned, target.earned) {
        Some(extra) => label.value.reach(value, extra, level),
        None => None,
    }
}
