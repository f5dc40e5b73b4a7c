//! Whether parts of a certificate are in the ranges of an instance. No call here takes memory.

mod basis;
mod label;
mod numbers;
mod plan;

pub use basis::{basis_fits, stands_in};
pub use label::labels_fit;
pub(crate) use numbers::{GREATEST_BOUND, GREATEST_PRICE};
pub use numbers::{GREATEST_WEIGHT, MOST_BYTES, are_prices, bound_fits, is_weight};
pub use plan::stops_fit;
