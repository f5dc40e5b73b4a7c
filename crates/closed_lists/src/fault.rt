//! The first broken rule of a closed list.

use std::alloc::AllocError;

/// Why a list of labels was not found to be closed: the first broken rule, or want of memory.
///
/// The start comes first, then all steps to customers and stations, by label and then by node, then
/// all steps home, by label. `label` is the index of a label in the list.
#[derive(Clone, Copy, Debug, Drop, PartialEq, Eq)]
pub enum ClosedFault {
    /// No label covers the start: the depot with a full battery at time 0, before any customer.
    Start,
    /// A step from a level of the label to the node, a customer or a station, leads to a state that
    /// no label covers.
    Step { label: usize, node: usize },
    /// A step home from a level of the label takes, times the weight, less than the price sum of
    /// its set.
    End { label: usize },
    /// Memory ran out.
    Memory,
}

impl From<AllocError> for ClosedFault {
    ghost use Rattle.closed_lists.specs.declared.fault.ClosedFault.TheVariants.{Memory};
    ghost use Rattle.std.specs.Prelude.{◌≡◌};

    ghost from_gives = { λ _ e. e ≡ Memory };

    fn from(_refused: AllocError) -> ClosedFault {
        ClosedFault::Memory
    }
}
