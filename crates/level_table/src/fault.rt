//! Why a route was not solved.

/// Why a route was not solved.
#[derive(Clone, Copy, Debug, Drop, PartialEq, Eq)]
pub enum LevelFault {
    /// The table would have more than 2 * 10^7 cells.
    Levels { cells: u128 },
    /// Memory ran out.
    Memory,
}
