//! What ways home can still earn, by a table that forgets which customers were served, but neither
//! the last one nor the first one of a way on (as two-cycles are left out by Christofides,
//! Mingozzi, Toth 1981; as bounds on what labels can still earn: Baldacci, Mingozzi, Roberti 2011).
//!
//! A search leaves out what can't earn by the table. It promises nothing: a wrong one would cost
//! time, and no answer would be wrong.
#![tactic(auto)]

mod arcs;
mod completion;
mod legs;
mod needs;
mod rests;
mod terms;

pub use completion::Completion;
pub use legs::{End, Leg, Legs};
pub use rests::HomeEarnings;
pub use terms::{Terms, Turns};
