//! One entry.

/// What is kept of a label.
#[derive(Drop)]
pub struct Entry<T: Drop> {
    /// What the label is found by.
    pub key: u128,
    /// The least of its times.
    pub time: u64,
    /// Its number.
    pub number: usize,
    /// What else is kept of it.
    pub rest: T,
}
