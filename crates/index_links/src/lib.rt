//! Doubly linked lists and a pairing heap over item numbers.
//!
//! Items are named by numbers from 0 on, and the links between them stand in vectors. So an item is
//! taken out of the middle of a list or a heap without a search, and only `grow` takes memory.
#![tactic(auto)]

mod heap;
mod rings;

pub use heap::IndexHeap;
pub use rings::Rings;
