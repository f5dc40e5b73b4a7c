//! The steps from a label.

ghost use Rattle.std.specs.Prelude.{◌≡◌, ◌≢◌, ◌+◌, ◌<◌, ◌^◌, ◌≤◌, IfOk, IsSome, Some, unsigned_abs};
ghost use Rattle.certificate_parts.specs.Ranges.{customer_count};
ghost use Rattle.ev_model.specs.Network.{curve_at, node_count};
ghost use Rattle.instance_reader.specs.Instance.{IsCustomerNumber};
ghost use Rattle.near_tree.specs.Judging.{IsJudge, IsServed, TellsFirst, TellsStep};
ghost use Rattle.near_tree.specs.Preorder.{leaf_label};
ghost use Rattle.near_tree.specs.Ranges.{SectionLabelFits};
ghost use Rattle.near_tree.specs.Sites.{leaf_of};
ghost use Rattle.near_tree.specs.Targets.{TellsEach, covers};

use crate::SectionLabel;
use crate::coverage::{Asked, Target};
use crate::judge::Judge;
use crate::looking::Known;
use crate::paid::sum_of;
use crate::site::last_place;
use label_steps::{arrival, departures};
use near_proof::{Looks, covers_value};
use piece_fn::PieceFn;
use std::alloc::{AllocError, Global};

impl Judge<'_> {
    /// What is common to the states after serving a customer.
    fn after_service(&self, label: &SectionLabel, node: usize, customer: usize) -> Target
        requires judge { IsJudge self.now }
        requires label { SectionLabelFits self.now.site.inst.now label.now }
        requires listed { customer < customer_count self.now.site.inst.now }
        ensures served { IsServed (leaf_of self.now.site) label.now node customer result }
        ensures last { result.last < customer_count self.now.site.inst.now + 2 }
        ensures small { unsigned_abs result.earned ≤ 2 ^ 98 }
    {
        let section = self.site.section;
        let last = last_place(label.last, self.site.customers());
        let near = section.sets.as_slice()[customer];
        let price = section.prices.as_slice()[customer];
        let gained = self.site.earned_next(last, customer + 1);
        Target {
            node,
            last: customer + 1,
            memory: label.memory.common(near).with(customer),
            earned: sum_of(price, gained, label.earned),
        }
    }

    /// Whether each step to a customer leads to a covered state.
    fn customer_is_covered(
        &self,
        looks: &mut Looks<Known>,
        label: &SectionLabel,
        node: usize,
        customer: usize,
    ) -> Result<bool, AllocError>
        requires judge { IsJudge self.now }
        requires label { SectionLabelFits self.now.site.inst.now label.now }
        requires moves { node ≢ label.now.node }
        requires known { node < node_count self.now.site.inst.now }
        requires customer { IsCustomerNumber self.now.site.inst.now node (Some customer) }
        requires listed { customer < customer_count self.now.site.inst.now }
        ensures { IfOk result (TellsStep self.now.site.inst.now (leaf_of self.now.site)
            (leaf_label label.now) node) }
    {
        if label.memory.has(customer) {
            return Ok(true);
        }
        let last = last_place(label.last, self.site.customers());
        if !self.may[last].has(customer + 1) {
            return Ok(true);
        }
        let inst = self.site.inst;
        let least = inst.min_q();
        let Some(value) = arrival(inst, &label.value, label.node, node, least)? else {
            return Ok(true);
        };
        let target = self.after_service(label, node, customer);
        Ok(covers_value(&self.asked(target), looks, &value))
    }

    /// Whether each step to a station, with any charge there, leads to a covered state. The time to
    /// plug in is paid where something is charged, not where the vehicle passes through.
    fn station_is_covered(
        &self,
        alloc: Global,
        looks: &mut Looks<Known>,
        label: &SectionLabel,
        node: usize,
    ) -> Result<bool, AllocError>
        requires judge { IsJudge self.now }
        requires label { SectionLabelFits self.now.site.inst.now label.now }
        requires moves { node ≢ label.now.node }
        requires known { node < node_count self.now.site.inst.now }
        requires station { IsSome (curve_at self.now.site.inst.now node) }
        ensures { IfOk result (TellsStep self.now.site.inst.now (leaf_of self.now.site)
            (leaf_label label.now) node) }
    {
        let inst = self.site.inst;
        let least = inst.min_q();
        let Some(arrived) = arrival(inst, &label.value, label.node, node, least)? else {
            return Ok(true);
        };
        let values = departures(alloc, inst, arrived, node)?;
        let target = Target {
            node,
            last: last_place(label.last, self.site.customers()),
            memory: label.memory,
            earned: label.earned,
        };
        Ok(covers_each(&self.asked(target), looks, &values))
    }

    /// Whether each step to the node leads to a covered state.
    fn step_is_covered(
        &self,
        alloc: Global,
        looks: &mut Looks<Known>,
        label: &SectionLabel,
        node: usize,
    ) -> Result<bool, AllocError>
        requires judge { IsJudge self.now }
        requires label { SectionLabelFits self.now.site.inst.now label.now }
        requires known { node < node_count self.now.site.inst.now }
        ensures { IfOk result (TellsStep self.now.site.inst.now (leaf_of self.now.site)
            (leaf_label label.now) node) }
    {
        if node == label.node {
            return Ok(true);
        }
        if self.site.inst.curve_at(node).is_some() {
            return self.station_is_covered(alloc, looks, label, node);
        }
        match self.site.inst.customer_number(node) {
            Some(customer) => self.customer_is_covered(looks, label, node, customer),
            None => Ok(true),
        }
    }

    /// The first node to which a step leads to a state that is not covered.
    pub(crate) fn uncovered_node(
        &self,
        alloc: Global,
        looks: &mut Looks<Known>,
        label: &SectionLabel,
    ) -> Result<Option<usize>, AllocError>
        requires judge { IsJudge self.now }
        requires label { SectionLabelFits self.now.site.inst.now label.now }
        ensures { IfOk result (TellsFirst self.now.site.inst.now (leaf_of self.now.site)
            (leaf_label label.now)) }
    {
        for node in 0..self.site.inst.nodes() {
            if !self.step_is_covered(alloc, looks, label, node)? {
                return Ok(Some(node));
            }
        }
        Ok(None)
    }
}

/// Whether each state of each of the values is covered.
fn covers_each(asked: &Asked<'_>, looks: &mut Looks<Known>, values: &[PieceFn]) -> bool
    ensures { TellsEach (covers asked.now) values.now result }
{
    for value in values {
        if !covers_value(asked, looks, value) {
            return false;
        }
    }
    true
}
