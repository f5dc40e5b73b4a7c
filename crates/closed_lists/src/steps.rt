//! The steps from a label.

ghost use Rattle.std.specs.Prelude.{◌≡◌, ◌≢◌, ◌<◌, ◌≤◌, ◌^◌, ℕ, IfOk, IfSome, IsSome, List, Some, length, slice_get, unsigned_abs};
ghost use Rattle.ev_model.specs.Network.{curve_at, node_count};
ghost use Rattle.fleet_model.specs.Prices.{price_sum};
ghost use Rattle.instance_reader.specs.Instance.{IsCustomerNumber, customer_nodes};
ghost use Rattle.label_steps.specs.Arrivals.{ArrivesAs, IsWithin};
ghost use Rattle.closed_lists.specs.Sections.{IsLabelOf};
ghost use Rattle.closed_lists.specs.Questions.{section};
ghost use Rattle.closed_lists.specs.Targets.{TellsEach};
ghost use Rattle.closed_lists.specs.Tellings.{TellsFirst, TellsHome, TellsStep};

use crate::coverage::{Asked, Target};
use crate::paid::earns;
use crate::places::mark_of;
use crate::question::Question;
use dominance::LabelValue;
use label_steps::{arrival, covers_all, departures};
use piece_fn::{Label, PieceFn};
use std::alloc::{AllocError, Global};

impl Question<'_> {
    /// What is left of a label's value on arriving at a node.
    fn arrival(&self, label: &Label, node: usize, least: u64) -> Result<Option<PieceFn>, AllocError>
        requires label { IsLabelOf self.now.network label.now }
        requires node { node < node_count self.now.network }
        ensures left { IfOk result
            (ArrivesAs self.now.network label.now.value label.now.node node least) }
        ensures within { IfOk result (λ o. IfSome o (IsWithin self.now.network)) }
    {
        arrival(self.inst, &label.value, label.node, node, least)
    }

    /// Whether each step to a customer leads to a covered state. The label's set has these marks.
    fn customer_is_covered(
        &self,
        label: &Label,
        paid: i128,
        node: usize,
        customer: usize,
        marks: u64,
    ) -> Result<bool, AllocError>
        requires label { IsLabelOf self.now.network label.now }
        requires paid { paid ≡ price_sum self.now.prices label.now.set }
        requires small { unsigned_abs paid ≤ 2 ^ 91 }
        requires moves { node ≢ label.now.node }
        requires known { node < node_count self.now.network }
        requires customer { IsCustomerNumber self.now.network node (Some customer) }
        requires listed { customer < length (customer_nodes self.now.network) }
        requires few { customer < 128 }
        ensures { IfOk result (TellsStep self.now label.now node) }
    {
        if label.set.has(customer) {
            return Ok(true);
        }
        if !self.allows(label.last, node) {
            return Ok(true);
        }
        let Some(value) = self.arrival(label, node, self.reserve())? else {
            return Ok(true);
        };
        let target = Target {
            last: node,
            node,
            set: label.set.with(customer),
            paid: self.paid_with(paid, customer),
        };
        Ok(covers_all(&self.asked(&target, marks ^ mark_of(customer)), &value))
    }

    /// Whether each step to a station, with any charge there, leads to a covered state. The time to
    /// plug in is paid where something is charged, not where the vehicle passes through.
    fn station_is_covered(
        &self,
        alloc: Global,
        label: &Label,
        paid: i128,
        node: usize,
        marks: u64,
    ) -> Result<bool, AllocError>
        requires label { IsLabelOf self.now.network label.now }
        requires paid { paid ≡ price_sum self.now.prices label.now.set }
        requires small { unsigned_abs paid ≤ 2 ^ 91 }
        requires moves { node ≢ label.now.node }
        requires known { node < node_count self.now.network }
        requires station { IsSome (curve_at self.now.network node) }
        ensures { IfOk result (TellsStep self.now label.now node) }
    {
        let target = Target {
            last: label.last,
            node,
            set: label.set,
            paid,
        };
        let Some(arrived) = self.arrival(label, node, self.reserve())? else {
            return Ok(true);
        };
        let values = departures(alloc, self.inst, arrived, node)?;
        Ok(covers_each(&self.asked(&target, marks), &values))
    }

    /// Whether each step to the node leads to a covered state.
    fn step_is_covered(
        &self,
        alloc: Global,
        label: &Label,
        paid: i128,
        node: usize,
        marks: u64,
    ) -> Result<bool, AllocError>
        requires label { IsLabelOf self.now.network label.now }
        requires paid { paid ≡ price_sum self.now.prices label.now.set }
        requires small { unsigned_abs paid ≤ 2 ^ 91 }
        requires known { node < node_count self.now.network }
        ensures { IfOk result (TellsStep self.now label.now node) }
    {
        if node == label.node {
            return Ok(true);
        }
        if self.inst.curve_at(node).is_some() {
            return self.station_is_covered(alloc, label, paid, node, marks);
        }
        match self.inst.customer_number(node) {
            Some(customer) => self.customer_is_covered(label, paid, node, customer, marks),
            None => Ok(true),
        }
    }

    /// The first node to which a step leads to a state that is not covered.
    pub(crate) fn uncovered_node(
        &self,
        alloc: Global,
        label: &Label,
        paid: i128,
    ) -> Result<Option<usize>, AllocError>
        requires label { IsLabelOf self.now.network label.now }
        requires paid { paid ≡ price_sum self.now.prices label.now.set }
        requires small { unsigned_abs paid ≤ 2 ^ 91 }
        ensures { IfOk result (TellsFirst self.now label.now) }
    {
        let marks = self.places.marks(label.set);
        for node in 0..self.inst.nodes() {
            if !self.step_is_covered(alloc, label, paid, node, marks)? {
                return Ok(Some(node));
            }
        }
        Ok(None)
    }

    /// Whether a step home takes, times the weight, less than the label has paid.
    pub fn earns_at_home(&self, label: &Label, paid: i128) -> Result<bool, AllocError>
        requires label { IsLabelOf self.now.network label.now }
        requires paid { paid ≡ price_sum self.now.prices label.now.set }
        ensures { IfOk result (TellsHome self.now label.now) }
    {
        if label.last == 0 || label.node == 0 || !self.allows(label.last, 0) {
            return Ok(false);
        }
        let least = self.inst.min_q().max(self.inst.home_q());
        match self.arrival(label, 0, least)? {
            Some(value) => Ok(earns(self.weight, value.least().1, paid)),
            None => Ok(false),
        }
    }
}

/// Whether each state of each of the values is covered.
fn covers_each(asked: &Asked<'_>, values: &[PieceFn]) -> bool
    ensures { TellsEach (section asked.now.question) asked.now.target values.now result }
{
    for value in values {
        if !covers_all(asked, value) {
            return false;
        }
    }
    true
}
