//! Steps that are seen to be covered before any value is made.

ghost use Rattle.std.specs.Prelude.{◌≡◌, true};
ghost use Rattle.route_proof.specs.Covered.{IsCovered};
ghost use Rattle.route_proof.specs.Ranges.{RouteLabelFits};
ghost use Rattle.route_steps.specs.Steps.{MayGo};
ghost use Rattle.route_proof.specs.Asking.{vehicle};
ghost use Rattle.route_proof.specs.Tellings.{TellsStep};

use crate::RouteLabel;
use crate::judged::Judged;
use dominance::LabelValue;
use label_steps::drive_time;
use route_steps::Place;

impl Judged<'_> {
    /// Whether each step from a label to a place leads to the bar or past it, or is no sooner there
    /// than a label with a full battery, which covers whatever is charged. It takes no memory.
    pub(crate) fn is_covered_early(&self, label: &RouteLabel, to: Place) -> bool
        requires label { RouteLabelFits self.now.journey.network self.now.journey.route label.now }
        requires next { MayGo self.now.journey.network self.now.journey.route label.now.passed
            to.passed to.node }
        ensures { result ≡ true → TellsStep self.now label.now to true }
    {
        let drive = drive_time(self.instance(), label.node, to.node);
        let (_, least) = label.value.least();
        let time = least.saturating_add(drive);
        if self.bar() <= time {
            return true;
        }
        self.is_full_by(to, time)
    }

    /// Whether a label has a full battery at a place by a time. It takes no memory.
    fn is_full_by(&self, place: Place, time: u64) -> bool
        ensures { result ≡ true →
            IsCovered self.now.labels (vehicle place self.now.journey.network.capacity time) }
    {
        let Some(number) = self.first_full(place) else {
            return false;
        };
        if number >= self.count() {
            return false;
        }
        let label = self.label(number);
        if label.passed != place.passed || label.node != place.node {
            return false;
        }
        match label.value.at(self.instance().max_q()) {
            Some(full) => full <= time,
            None => false,
        }
    }
}
