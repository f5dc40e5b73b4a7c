//! Where labels break a rule.

/// The first rule that the labels of a route break. Labels are counted from 0.
#[derive(Clone, Copy, Debug, PartialEq, Eq)]
pub enum RouteLabelFault {
    /// No label covers the start.
    Start,
    /// A step from the label leads to a vehicle below the bar that no label covers: to the node as
    /// the next of the route, or as a station that is inserted where `via` is true.
    Step {
        label: usize,
        node: usize,
        via: bool,
    },
    /// A step home from a level of the label ends below the bar.
    End {
        label: usize,
    },
}
