//! The steps from a label.

ghost use Rattle.std.specs.Prelude.{◌≡◌, ◌≢◌, ◌<◌, IfOk, IsSome, Some, length};
ghost use Rattle.ev_model.specs.Network.{curve_at, node_count};
ghost use Rattle.instance_reader.specs.Instance.{IsCustomerNumber, customer_nodes};
ghost use Rattle.near_proof.specs.Ranges.{NearLabelFits};
ghost use Rattle.near_proof.specs.Judging.{IsJudge, IsServed, TellsFirst, TellsStep, judged};
ghost use Rattle.near_proof.specs.Members.{AreMembers};
ghost use Rattle.near_proof.specs.Targets.{TellsEach};

use crate::NearLabel;
use crate::asking::covers_value;
use crate::coverage::{Asked, Served, Target};
use crate::judge::Judge;
use crate::looks::Looks;
use crate::memory::{members_of, remembered_among};
use label_steps::{arrival, departures};
use piece_fn::PieceFn;
use std::alloc::{AllocError, Global};

impl Judge<'_> {
    /// What is common to the states after serving a customer.
    fn after_service(
        &self,
        label: &NearLabel,
        members: &[usize],
        node: usize,
        customer: usize,
    ) -> Target
        requires judge { IsJudge self.now }
        requires label { NearLabelFits self.now.inst.now label.now }
        requires members { AreMembers members.now label.now.memory }
        requires listed { customer < length (customer_nodes self.now.inst.now) }
        ensures { IsServed (judged self.now).terms label.now node customer result }
    {
        let near = self.terms.sets[customer];
        let price = self.terms.prices[customer];
        Target {
            node,
            memory: remembered_among(label.memory, members, near, customer),
            count: label.count + 1,
            earned: label.earned + u128::from(price),
        }
    }

    /// Whether each step to a customer leads to a covered state.
    fn customer_is_covered(
        &self,
        looks: &mut Looks<Served>,
        label: &NearLabel,
        members: &[usize],
        node: usize,
        customer: usize,
    ) -> Result<bool, AllocError>
        requires judge { IsJudge self.now }
        requires label { NearLabelFits self.now.inst.now label.now }
        requires members { AreMembers members.now label.now.memory }
        requires moves { node ≢ label.now.node }
        requires known { node < node_count self.now.inst.now }
        requires customer { IsCustomerNumber self.now.inst.now node (Some customer) }
        requires listed { customer < length (customer_nodes self.now.inst.now) }
        ensures { IfOk result (TellsStep self.now.inst.now (judged self.now) label.now node) }
    {
        if label.memory.has(customer) {
            return Ok(true);
        }
        if label.count >= self.inst.customers().len() {
            return Ok(true);
        }
        let least = self.inst.min_q();
        let Some(value) = arrival(self.inst, &label.value, label.node, node, least)? else {
            return Ok(true);
        };
        let target = self.after_service(label, members, node, customer);
        Ok(covers_value(&self.asked(target), looks, &value))
    }

    /// Whether each step to a station, with any charge there, leads to a covered state. The time to
    /// plug in is paid where something is charged, not where the vehicle passes through.
    fn station_is_covered(
        &self,
        alloc: Global,
        looks: &mut Looks<Served>,
        label: &NearLabel,
        node: usize,
    ) -> Result<bool, AllocError>
        requires judge { IsJudge self.now }
        requires label { NearLabelFits self.now.inst.now label.now }
        requires moves { node ≢ label.now.node }
        requires known { node < node_count self.now.inst.now }
        requires station { IsSome (curve_at self.now.inst.now node) }
        ensures { IfOk result (TellsStep self.now.inst.now (judged self.now) label.now node) }
    {
        let least = self.inst.min_q();
        let Some(arrived) = arrival(self.inst, &label.value, label.node, node, least)? else {
            return Ok(true);
        };
        let values = departures(alloc, self.inst, arrived, node)?;
        let target = Target {
            node,
            memory: label.memory,
            count: label.count,
            earned: label.earned,
        };
        Ok(covers_each(&self.asked(target), looks, &values))
    }

    /// Whether each step to the node leads to a covered state.
    fn step_is_covered(
        &self,
        alloc: Global,
        looks: &mut Looks<Served>,
        label: &NearLabel,
        members: &[usize],
        node: usize,
    ) -> Result<bool, AllocError>
        requires judge { IsJudge self.now }
        requires label { NearLabelFits self.now.inst.now label.now }
        requires members { AreMembers members.now label.now.memory }
        requires known { node < node_count self.now.inst.now }
        ensures { IfOk result (TellsStep self.now.inst.now (judged self.now) label.now node) }
    {
        if node == label.node {
            return Ok(true);
        }
        if self.inst.curve_at(node).is_some() {
            return self.station_is_covered(alloc, looks, label, node);
        }
        match self.inst.customer_number(node) {
            Some(customer) => self.customer_is_covered(looks, label, members, node, customer),
            None => Ok(true),
        }
    }

    /// The first node to which a step leads to a state that is not covered.
    pub(crate) fn uncovered_node(
        &self,
        alloc: Global,
        looks: &mut Looks<Served>,
        label: &NearLabel,
    ) -> Result<Option<usize>, AllocError>
        requires judge { IsJudge self.now }
        requires label { NearLabelFits self.now.inst.now label.now }
        ensures { IfOk result (TellsFirst self.now.inst.now (judged self.now) label.now) }
    {
        let members = members_of(alloc, label.memory)?;
        for node in 0..self.inst.nodes() {
            if !self.step_is_covered(alloc, looks, label, &members, node)? {
                return Ok(Some(node));
            }
        }
        Ok(None)
    }
}

/// Whether each state of each of the values is covered.
fn covers_each(asked: &Asked<'_>, looks: &mut Looks<Served>, values: &[PieceFn]) -> bool
    ensures { TellsEach asked.now values.now result }
{
    for value in values {
        if !covers_value(asked, looks, value) {
            return false;
        }
    }
    true
}
