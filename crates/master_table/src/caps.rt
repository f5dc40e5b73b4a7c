//! Caps on the numbers of a table, and why a call refuses.

use std::alloc::{AllocError, AllocFailed};

/// The greatest sizes of a table's numbers: `body` of the entries and right sides of the body
/// equations and of the weight of the cost row, `cost` of all else.
#[derive(Clone, Copy, Debug, PartialEq, Eq)]
pub struct Caps {
    pub body: u64,
    pub cost: u128,
}

/// Why a table refuses.
#[derive(Clone, Copy, Debug, Drop, PartialEq, Eq)]
pub enum TableFault {
    /// Memory isn't to be had.
    Memory,
    /// A number of the new rows is past its cap. The first is named, row by row: its row, and its
    /// column, where the right side counts as the column after the last, and the weight as the one
    /// after that.
    Wide { row: usize, col: usize },
}

impl From<AllocError> for TableFault {
    ghost use Rattle.master_table.specs.declared.caps.TableFault.TheVariants.{Memory};
    ghost use Rattle.std.specs.Prelude.{◌≡◌};

    ghost from_gives = { λ _ e. e ≡ Memory };

    fn from(_refused: AllocError) -> TableFault {
        TableFault::Memory
    }
}

impl<T: Drop> From<AllocFailed<T>> for TableFault {
    ghost use Rattle.master_table.specs.declared.caps.TableFault.TheVariants.{Memory};
    ghost use Rattle.std.specs.Prelude.{◌≡◌};

    ghost from_gives = { λ _ e. e ≡ Memory };

    fn from(_refused: AllocFailed<T>) -> TableFault {
        TableFault::Memory
    }
}
