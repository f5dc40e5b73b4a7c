//! The start, and the steps home.

ghost use Rattle.std.specs.Prelude.{◌≡◌, ◌↔◌, ◌*◌, ◌<◌, ◌≤◌, ℕ, IfOk, IsTrue, false, true};
ghost use Rattle.near_proof.specs.Covered.{IsNearCovered};
ghost use Rattle.ev_model.specs.Network.{node_count};
ghost use Rattle.fleet_model.specs.Labels.{IsLevel};
ghost use Rattle.near_proof.specs.States.{label_of, near_start};
ghost use Rattle.near_proof.specs.Judging.{IsJudge, TellsHome};

use crate::NearLabel;
use crate::coverage::Target;
use crate::judge::Judge;
use customer_sets::CustSet;
use dominance::LabelValue;
use instance_reader::Instance;
use label_steps::{arrival, covers_all};
use piece_fn::PieceFn;
use std::alloc::{AllocError, Global};

impl Judge<'_> {
    /// Whether the start is covered.
    pub(crate) fn covers_start(&self, alloc: Global) -> bool
        requires { IsJudge self.now }
        ensures covered { result ≡ true → IsNearCovered self.now.terms.weight
            self.now.labels.now (near_start self.now.inst.now) }
        ensures missed { result ≡ false → IsNearCovered self.now.terms.weight
            self.now.labels.now (near_start self.now.inst.now) → ⊥ }
    {
        let target = Target {
            node: 0,
            memory: CustSet::empty(),
            count: 0,
            earned: 0,
        };
        let full = PieceFn::point(alloc, self.inst.max_q(), 0);
        covers_all(&self.asked(target), &full)
    }
}

/// Whether a step home takes, times the weight, less than the label has earned, whatever its count.
pub fn earns_at_home(inst: &Instance, weight: u64, label: &NearLabel) -> Result<bool, AllocError>
    requires node { label.now.node < node_count inst.now }
    requires levels { (level : ℕ) → IsLevel (label_of label.now) level →
        level ≤ inst.now.capacity }
    ensures { IfOk result (TellsHome inst.now weight label.now) }
{
    if label.node == 0 {
        return Ok(false);
    }
    let least = inst.min_q().max(inst.home_q());
    match arrival(inst, &label.value, label.node, 0, least)? {
        Some(value) => Ok(earns(weight, value.least().1, label.earned)),
        None => Ok(false),
    }
}

/// Whether a time, times the weight, is less than what is earned.
fn earns(weight: u64, time: u64, earned: u128) -> bool
    ensures { IsTrue result ↔ (weight * time < earned) }
{
    u128::from(weight) * u128::from(time) < earned
}
