//! Decimals to whole units: a JSON text whose numbers under the keys of times and energies are
//! written as whole numbers, each rounded up, while every other byte stays.
#![tactic(auto)]

mod conversion;
mod digits;
mod fault;
mod laws;
mod literal;
mod nesting;
mod rounding;
mod token;

pub use conversion::convert;
pub use fault::ImportFault;
pub use laws::{tokens_are_the_longest, wholes_are_the_least};
