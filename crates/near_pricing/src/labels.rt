//! The labels of near routes: who is remembered, what was earned, and by how many services.

use crate::asked::Question;
use crate::gain::gain_at_home;
use crate::steps::{Target, target_at};
use crate::table::{is_left_out, signed};
use completion_bounds::Completion;
use customer_sets::CustSet;
use instance_reader::Instance;
use label_search::{Care, ListFault, Resources, fastest_along};
use near_proof::{NearLabel, NearLabelFault, earns_at_home, first_fault};
use piece_fn::PieceFn;
use route_plan::RoutePlan;
use std::alloc::{AllocError, Global};

impl Resources for Question<'_> {
    type Label = NearLabel;

    type Target = Target;

    /// What a table of ways home says of the label's value.
    type Leaving = u64;

    type Route = RoutePlan;

    ghost use Rattle.near_pricing.specs.Labels.{near_space};

    ghost space = { near_space };

    fn instance(&self) -> &Instance {
        self.inst
    }

    fn weight(&self) -> u64 {
        self.terms.weight
    }

    fn start(&self, alloc: Global) -> NearLabel {
        NearLabel {
            node: 0,
            memory: CustSet::empty(),
            count: 0,
            earned: 0,
            value: PieceFn::point(alloc, self.inst.max_q(), 0),
        }
    }

    fn copy(&self, alloc: Global, label: &NearLabel) -> Result<NearLabel, AllocError> {
        Ok(NearLabel {
            node: label.node,
            memory: label.memory,
            count: label.count,
            earned: label.earned,
            value: PieceFn::from_points(alloc, label.value.points())?,
        })
    }

    fn node(&self, label: &NearLabel) -> usize {
        label.node
    }

    fn value<'b>(&self, label: &'b NearLabel) -> &'b PieceFn {
        &label.value
    }

    fn memory(&self, label: &NearLabel) -> CustSet {
        label.memory
    }

    fn customers(&self) -> usize {
        self.terms.prices.len()
    }

    fn groups(&self) -> usize {
        self.inst.nodes()
    }

    fn group(&self, label: &NearLabel) -> usize {
        label.node
    }

    /// Each level counts: the labels are to be closed with those that stand for what the table
    /// leaves out.
    fn least_level(&self, _table: &Completion, _label: &NearLabel) -> u64 {
        0
    }

    fn latest_first(&self) -> bool {
        true
    }

    /// Certainly, where it was served no more often.
    fn covers(&self, care: Care, own: &NearLabel, other: &NearLabel) -> bool {
        care != Care::Certain || own.count <= other.count
    }

    fn leaving(&self, _label: &NearLabel, budget: u64) -> u64 {
        budget
    }

    fn may_lead(&self, table: &Completion, from: &NearLabel, leaving: &u64, node: usize) -> bool {
        !is_left_out(self, table, from, node, *leaving)
    }

    fn target(&self, from: &NearLabel, _earned: i128, node: usize) -> Option<Target> {
        target_at(self, from, node)
    }

    fn target_memory(&self, target: &Target) -> CustSet {
        target.memory
    }

    fn target_earned(&self, target: &Target) -> i128 {
        let earned = signed(target.earned);
        if earned.unsigned_abs() > 1 << 91 {
            0
        } else {
            earned
        }
    }

    fn label(&self, target: &Target, node: usize, value: PieceFn) -> NearLabel {
        NearLabel {
            node,
            memory: target.memory,
            count: target.count,
            earned: target.earned,
            value,
        }
    }

    fn gain(&self, label: &NearLabel, _earned: i128) -> Result<Option<u128>, AllocError> {
        let weight = self.terms.weight;
        if !earns_at_home(self.inst, weight, label)? {
            return Ok(None);
        }
        Ok(Some(gain_at_home(self.inst, weight, label)?))
    }

    fn keeps(&self, gain: u128, best: u128) -> bool {
        gain > best
    }

    fn route(&self, alloc: Global, order: Vec<usize>) -> Result<RoutePlan, AllocError> {
        let Some(plan) = fastest_along(alloc, self.inst, &order)? else {
            unreachable!();
        };
        Ok(plan)
    }

    fn first_fault(
        &self,
        alloc: Global,
        labels: &[NearLabel],
    ) -> Result<Option<ListFault>, AllocError> {
        match first_fault(alloc, self.inst, self.terms, labels)? {
            None => Ok(None),
            Some(NearLabelFault::Start) => Ok(Some(ListFault::Start)),
            Some(NearLabelFault::Step { label, node }) => Ok(Some(ListFault::Step { label, node })),
            Some(NearLabelFault::End { label }) => Ok(Some(ListFault::End { label })),
        }
    }

    fn goes_on(&self) -> bool {
        true
    }
}
