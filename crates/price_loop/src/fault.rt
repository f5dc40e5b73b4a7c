//! Why a master problem isn't solved.

use std::alloc::AllocError;

/// Why a master problem isn't solved.
#[derive(Drop)]
pub(crate) enum MasterFault {
    /// Memory isn't to be had.
    Memory,
    /// The numbers of a basis are past the table's caps. `basis` has the numbers of its columns.
    Wide { basis: Vec<usize> },
}

impl From<AllocError> for MasterFault {
    ghost use Rattle.price_loop.specs.declared.fault.MasterFault.TheVariants.{Memory};
    ghost use Rattle.std.specs.Prelude.{◌≡◌};

    ghost from_gives = { λ _ e. e ≡ Memory };

    fn from(_refused: AllocError) -> MasterFault {
        MasterFault::Memory
    }
}
