//! A pool of labels: partial routes by number, of which those that another one makes needless are
//! live no longer (labels under dominance: Desrochers and Soumis 1988).
//!
//! The live labels of each bucket stand in a list, and those of them that are not settled in a
//! queue.
#![tactic(auto)]

mod label;
mod pool;

pub use label::Label;
pub use pool::Pool;
