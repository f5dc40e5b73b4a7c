//! One label.

/// The end of a partial route, and from which label it was come to.
#[derive(Drop)]
pub struct Label<V: Drop> {
    /// What it may be compared with: only labels of one bucket make one another needless.
    pub bucket: usize,
    pub value: V,
    /// The queue's order.
    pub key: u64,
    pub parent: Option<usize>,
    /// Whether no other label has made it needless.
    pub live: bool,
    /// Whether the queue has given it out.
    pub settled: bool,
}
