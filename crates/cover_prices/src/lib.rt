//! The master problem that covers customers by columns, each with how often it serves them: prices
//! and amounts, in whole numbers. No clause rests on this.
//!
//! First by the volume method (Barahona, Anbil 2000), and then by the revised simplex method with
//! the inverse of the basis in fixed point, and prices and amounts corrected by what whole columns
//! leave (iterative refinement). What comes of it is for others to judge: it ends, and no number
//! wraps.
#![tactic(auto)]

mod basis;
mod columns;
mod cover;
mod fixed;
mod repair;
mod rows;
mod simplex;
mod trial;
mod volume;

pub use columns::Service;
pub use cover::Cover;
pub use rows::{Row, Sense};
pub use trial::Trial;
