//! The steps of one label that are no steps home.

ghost use Rattle.std.specs.Prelude.{◌≡◌, ◌≢◌, ◌-◌, ◌<◌, IfOk, length};
ghost use Rattle.ev_model.specs.Network.{node_count};
ghost use Rattle.route_proof.specs.Ranges.{RouteLabelFits};
ghost use Rattle.route_steps.specs.Steps.{AreSteps, CoverStops, MayGo};
ghost use Rattle.route_proof.specs.Tellings.{TellsEach, TellsFirst, TellsInserted, TellsNext, TellsStation, TellsStep, state_of};

use crate::RouteLabel;
use crate::asking::Asked;
use crate::judged::Judged;
use label_steps::covers_all;
use piece_fn::PieceFn;
use route_steps::{Place, values_at};
use std::alloc::{AllocError, Global};

/// A step from a label to a vehicle below the bar that no label covers.
#[derive(Clone, Copy)]
pub(crate) struct Missed {
    /// Where it leads to.
    pub(crate) node: usize,
    /// Whether the node is inserted.
    pub(crate) via: bool,
}

impl Judged<'_> {
    /// The values on leaving a place that is driven to from a label.
    pub(crate) fn values(
        &self,
        alloc: Global,
        label: &RouteLabel,
        to: Place,
    ) -> Result<Vec<PieceFn>, AllocError>
        requires label { RouteLabelFits self.now.journey.network self.now.journey.route label.now }
        requires next { MayGo self.now.journey.network self.now.journey.route label.now.passed
            to.passed to.node }
        requires other { to.node ≢ label.now.node }
        ensures steps { IfOk result (λ values. AreSteps self.now.journey.network
            self.now.journey.route (state_of label.now) to.passed to.node values.items) }
        ensures covers { IfOk result (λ values. CoverStops self.now.journey.network
            self.now.journey.route (state_of label.now) to.passed to.node values.items) }
    {
        let from = Place {
            passed: label.passed,
            node: label.node,
        };
        values_at(alloc, self.instance(), self.route(), &label.value, from, to)
    }

    /// Whether each vehicle below the bar is covered to which a step to a place leads.
    fn step_is_covered(
        &self,
        alloc: Global,
        label: &RouteLabel,
        to: Place,
    ) -> Result<bool, AllocError>
        requires label { RouteLabelFits self.now.journey.network self.now.journey.route label.now }
        requires next { MayGo self.now.journey.network self.now.journey.route label.now.passed
            to.passed to.node }
        requires on_way { to.passed < length self.now.journey.route - 1 }
        ensures { IfOk result (TellsStep self.now label.now to) }
    {
        if to.node == label.node {
            return Ok(true);
        }
        if self.is_covered_early(label, to) {
            return Ok(true);
        }
        let values = self.values(alloc, label, to)?;
        let asked = Asked {
            judged: self,
            place: to,
        };
        Ok(covers_each(&asked, &values))
    }

    /// The next node of the route, where that is not its end and a step to it leads to a vehicle
    /// below the bar that is not covered.
    fn uncovered_next(&self, alloc: Global, label: &RouteLabel) -> Result<Option<usize>, AllocError>
        requires { RouteLabelFits self.now.journey.network self.now.journey.route label.now }
        ensures { IfOk result (TellsNext self.now label.now) }
    {
        let end = self.end();
        let passed = label.passed + 1;
        if passed >= end {
            return Ok(None);
        }
        let node = self.node_at(passed);
        if self.step_is_covered(alloc, label, Place { passed, node })? {
            return Ok(None);
        }
        Ok(Some(node))
    }

    /// Whether each vehicle below the bar is covered to which a step to a node leads where that is
    /// inserted, if it is a station.
    fn station_is_covered(
        &self,
        alloc: Global,
        label: &RouteLabel,
        node: usize,
    ) -> Result<bool, AllocError>
        requires label { RouteLabelFits self.now.journey.network self.now.journey.route label.now }
        requires known { node < node_count self.now.journey.network }
        ensures { IfOk result (TellsInserted self.now label.now node) }
    {
        if self.instance().curve_at(node).is_none() {
            return Ok(true);
        }
        let passed = label.passed;
        self.step_is_covered(alloc, label, Place { passed, node })
    }

    /// The first station to which a step leads to a vehicle below the bar that is not covered.
    fn uncovered_station(
        &self,
        alloc: Global,
        label: &RouteLabel,
    ) -> Result<Option<usize>, AllocError>
        requires { RouteLabelFits self.now.journey.network self.now.journey.route label.now }
        ensures { IfOk result (TellsStation self.now label.now) }
    {
        for node in 0..self.instance().nodes() {
            if !self.station_is_covered(alloc, label, node)? {
                return Ok(Some(node));
            }
        }
        Ok(None)
    }

    /// The first step to a vehicle below the bar that is not covered.
    pub(crate) fn uncovered_step(
        &self,
        alloc: Global,
        label: &RouteLabel,
    ) -> Result<Option<Missed>, AllocError>
        requires { RouteLabelFits self.now.journey.network self.now.journey.route label.now }
        ensures { IfOk result (TellsFirst self.now label.now) }
    {
        if let Some(node) = self.uncovered_next(alloc, label)? {
            return Ok(Some(Missed { node, via: false }));
        }
        match self.uncovered_station(alloc, label)? {
            Some(node) => Ok(Some(Missed { node, via: true })),
            None => Ok(None),
        }
    }
}

/// Whether each level below the bar of each of the values is covered.
fn covers_each(asked: &Asked<'_>, values: &[PieceFn]) -> bool
    ensures { TellsEach asked.now.judged.now asked.now.place values.now result }
{
    for value in values {
        if !covers_all(asked, value) {
            return false;
        }
    }
    true
}
