//! Why the simplex method refuses.

use std::alloc::AllocError;

/// Why there is no answer.
#[derive(Drop)]
pub enum LpFault {
    /// Memory isn't to be had.
    Memory,
    /// The numbers of a basis are past the table's caps. It is the basis of the table, or one pivot
    /// beside it.
    Wide { basis: Vec<usize> },
}

impl From<AllocError> for LpFault {
    ghost use Rattle.master_simplex.specs.declared.fault.LpFault.TheVariants.{Memory};
    ghost use Rattle.std.specs.Prelude.{◌≡◌};

    ghost from_gives = { λ _ e. e ≡ Memory };

    fn from(_refused: AllocError) -> LpFault {
        LpFault::Memory
    }
}
