//! Where a vehicle has come to on a route.

use dominance::Covers;
use piece_fn::PieceFn;

/// A place on the way along a route.
#[derive(Clone, Copy, Debug, PartialEq, Eq)]
pub struct Place {
    /// The index in the route of the last node that was served.
    pub passed: usize,
    /// The node: that one, or a station inserted after it.
    pub node: usize,
}

/// A vehicle about to leave a node, and the least time at each level that it may then have.
#[derive(Drop)]
pub struct State {
    /// The index in the route of the last node that was served.
    pub passed: usize,
    /// The node: that one, or a station inserted after it.
    pub node: usize,
    /// Whether the vehicle was plugged in there, and charged from the value's first level.
    pub charged: bool,
    pub value: PieceFn,
}

impl Covers for State {
    ghost use Rattle.dominance.specs.Coverage.{does_cover};
    ghost use Rattle.dominance.specs.Laws.{dominates_itself, dominates_on};
    ghost use Rattle.piece_fn.specs.PieceFn.{level_times};

    ghost dominates = { λ x y. does_cover (level_times x.value) (level_times y.value) 0 };

    ghost reflexive = { λ x. dominates_itself (level_times x.value) };

    ghost transitive = { λ x y z. dominates_on (level_times x.value)
        (level_times y.value) (level_times z.value) };

    fn covers_whole(&self, other: &State) -> bool {
        self.value.covers_whole(&other.value)
    }
}
