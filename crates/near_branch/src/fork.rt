//! How nodes are split in two. No clause rests on this.

use customer_sets::LargeSet;
use near_prices::{Row, Sense, Tally};
use near_tree::TreeNode;

/// How a node is split in two.
#[derive(Clone, Copy, Debug, PartialEq, Eq)]
pub(crate) enum Fork {
    /// Whether one customer comes next after another.
    Pair { before: usize, after: usize },
    /// Whether routes enter a set so often at the most, or more often.
    Entries { most: u32, set: LargeSet },
}

/// One side of a fork.
#[derive(Clone, Copy, Debug, PartialEq, Eq)]
pub(crate) struct Turn {
    pub(crate) fork: Fork,
    /// Whether it is the second side.
    pub(crate) is_second: bool,
}

impl Fork {
    /// Both sides, the first one first.
    pub(crate) fn turns(&self) -> [Turn; 2] {
        [self.turn(false), self.turn(true)]
    }

    /// One side.
    fn turn(&self, is_second: bool) -> Turn {
        Turn {
            fork: *self,
            is_second,
        }
    }

    /// What routes are counted by.
    pub(crate) fn tally(&self) -> Tally {
        match self {
            Fork::Pair { before, after } => Tally::Pair {
                before: *before,
                after: *after,
            },
            Fork::Entries { most: _, set } => Tally::Entries(*set),
        }
    }

    /// The node of a tree.
    pub(crate) fn node(&self) -> TreeNode {
        match self {
            Fork::Pair { before, after } => TreeNode::Split {
                before: *before,
                after: *after,
            },
            Fork::Entries { most, set } => TreeNode::Entries {
                most: *most as usize,
                set: *set,
            },
        }
    }
}

impl Turn {
    /// What is asked of the count on this side.
    pub(crate) fn row(&self) -> Row {
        let most = match &self.fork {
            Fork::Pair { .. } => 0,
            Fork::Entries { most, .. } => i64::from(*most),
        };
        if self.is_second {
            Row {
                sense: Sense::AtLeast,
                count: most.saturating_add(1),
            }
        } else {
            Row {
                sense: Sense::AtMost,
                count: most,
            }
        }
    }
}
