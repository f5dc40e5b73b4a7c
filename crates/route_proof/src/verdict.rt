//! What a proof is found to be.

use route_plan::WalkFault;

/// Whether a proof is accepted, or the first rule that it breaks.
///
/// The rules are tried in this order, each over all labels before the next; within a label the step
/// to the next node of the route comes first, and then those to stations by rising node. Labels are
/// counted from 0.
#[derive(Clone, Copy, Debug, PartialEq, Eq)]
pub enum RouteVerdict {
    /// No rule is broken.
    Accepted,
    /// The walk along the plan breaks a rule.
    Plan {
        fault: WalkFault,
    },
    /// The plan is one of another route.
    Other,
    /// No label covers the start: the depot with the charge that the vehicle starts with, at time
    /// 0.
    Start,
    /// A step from a level of the label leads to a state below the bar that no label covers: to the
    /// node as the next of the route, or as a station that is inserted where `via` is true.
    Step {
        label: usize,
        node: usize,
        via: bool,
    },
    /// A step home from a level of the label ends below the bar.
    End {
        label: usize,
    },
}
