//! Labels found by a key, those of least time first: what a judge of closed labels looks through
//! for one that covers a state. How labels were come by is nothing to it.
#![tactic(auto)]

mod entry;
mod index;

pub use entry::Entry;
pub use index::{Indexing, entries, first, in_order, is_in_time};
