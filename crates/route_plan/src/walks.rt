//! What a walk along a plan comes to.

/// What a plan comes to.
#[derive(Clone, Copy, Debug, PartialEq, Eq)]
pub struct Walk {
    /// The scaled time of the plan.
    pub time: u64,
    /// The level of the battery at its end, in units of charge.
    pub last: u64,
}

/// The first broken rule of a plan. `at` is the position of a stop, counted from 0.
#[derive(Clone, Copy, Debug, Drop, PartialEq, Eq)]
pub enum WalkFault {
    /// There are fewer than two stops, or the first or the last isn't at the depot, was inserted or
    /// charges.
    Ends,
    /// The node isn't in the instance.
    Unknown { at: usize },
    /// The node is that of the stop before.
    Again { at: usize },
    /// The level on arriving is below the reserve or, at the last stop, below the level at home.
    Empty { at: usize },
    /// The node has no station, and the stop was inserted or charges.
    NotStation { at: usize },
    /// The level on leaving is above a full battery.
    Full { at: usize },
    /// The scaled time on leaving is past the limit.
    Late { at: usize },
}
