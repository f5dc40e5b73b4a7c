//! The start, and the steps home.

ghost use Rattle.std.specs.Prelude.{◌≡◌, IfOk, false, true};
ghost use Rattle.near_tree.specs.Judging.{IsJudge, TellsHome};
ghost use Rattle.near_tree.specs.Preorder.{leaf_label};
ghost use Rattle.near_tree.specs.Ranges.{SectionLabelFits};
ghost use Rattle.near_tree.specs.Rules.{MissesState};
ghost use Rattle.near_tree.specs.Sites.{leaf_of};
ghost use Rattle.near_tree.specs.Steps.{leaf_start};
ghost use Rattle.near_tree.specs.Targets.{IsStateCovered};

use crate::SectionLabel;
use crate::coverage::Target;
use crate::judge::Judge;
use crate::paid::earns;
use crate::site::last_place;
use customer_sets::LargeSet;
use dominance::LabelValue;
use label_steps::{arrival, covers_all};
use piece_fn::PieceFn;
use std::alloc::{AllocError, Global};

impl Judge<'_> {
    /// Whether the start is covered.
    pub(crate) fn covers_start(&self, alloc: Global) -> bool
        requires { IsJudge self.now }
        ensures covered { result ≡ true → IsStateCovered self.now.site.inst.now
            (leaf_of self.now.site) (leaf_start self.now.site.inst.now) }
        ensures missed { result ≡ false → MissesState self.now.site.inst.now
            (leaf_of self.now.site) (leaf_start self.now.site.inst.now) }
    {
        let target = Target {
            node: 0,
            last: 0,
            memory: LargeSet::empty(),
            earned: 0,
        };
        let full = PieceFn::point(alloc, self.site.inst.max_q(), 0);
        covers_all(&self.asked(target), &full)
    }

    /// Whether a step home takes, times the weight, less than the label has earned.
    pub(crate) fn earns_at_home(&self, label: &SectionLabel) -> Result<bool, AllocError>
        requires judge { IsJudge self.now }
        requires label { SectionLabelFits self.now.site.inst.now label.now }
        ensures { IfOk result (TellsHome self.now.site.inst.now (leaf_of self.now.site)
            (leaf_label label.now)) }
    {
        if label.node == 0 {
            return Ok(false);
        }
        let last = last_place(label.last, self.site.customers());
        if !self.may[last].has(0) {
            return Ok(false);
        }
        let inst = self.site.inst;
        let least = inst.min_q().max(inst.home_q());
        match arrival(inst, &label.value, label.node, 0, least)? {
            Some(value) => Ok(earns(self.site.section.weight, value.least().1, label.earned)),
            None => Ok(false),
        }
    }
}
