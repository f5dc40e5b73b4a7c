//! Entries of a basis.

/// An entry of a basis: the helper of a customer, by number, or a listed column, by its number from
/// 0.
#[derive(Clone, Copy, Debug, PartialEq, Eq)]
pub enum BasisEntry {
    Helper(usize),
    Column(usize),
}
