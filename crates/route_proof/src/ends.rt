//! The steps home of one label.

ghost use Rattle.std.specs.Prelude.{IfOk};
ghost use Rattle.route_proof.specs.Ranges.{RouteLabelFits};
ghost use Rattle.route_proof.specs.Ends.{TellsBelow};
ghost use Rattle.route_proof.specs.Tellings.{TellsHome};

use crate::RouteLabel;
use crate::judged::Judged;
use dominance::LabelValue;
use piece_fn::PieceFn;
use route_steps::Place;
use std::alloc::{AllocError, Global};

impl Judged<'_> {
    /// Whether a step home from the label ends below the bar.
    pub(crate) fn ends_below(&self, alloc: Global, label: &RouteLabel) -> Result<bool, AllocError>
        requires { RouteLabelFits self.now.journey.network self.now.journey.route label.now }
        ensures { IfOk result (TellsHome self.now label.now) }
    {
        let end = self.end();
        let passed = label.passed + 1;
        if passed < end {
            return Ok(false);
        }
        let node = self.node_at(passed);
        if node == label.node {
            return Ok(false);
        }
        let values = self.values(alloc, label, Place { passed, node })?;
        Ok(is_below(&values, self.bar()))
    }
}

/// Whether a time of some value is below the bar.
fn is_below(values: &[PieceFn], bar: u64) -> bool
    ensures { TellsBelow values.now bar result }
{
    for value in values {
        if value.least().1 < bar {
            return true;
        }
    }
    false
}
