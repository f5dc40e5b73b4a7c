//! Reads an instance of the problem from the bytes of a JSON file.
//!
//! [`read_instance`] answers the instance that the bytes mean, or the first rule that they break.
//! The rules stand one to a module, in the order in which they are tried: `required_keys`, `kinds`
//! (which also takes the fields out of the value), `sizes`, `shapes`, `nodes`, `types`, `curves`,
//! `limits`, `levels`. Each has its definition, the first broken place in the list of its places,
//! in the file of `specs/` with its name.
#![tactic(auto)]

mod build;
mod curves;
mod customers;
mod faults;
mod fields;
mod instance;
mod kinds;
mod laws;
mod levels;
mod limits;
mod nodes;
mod places;
mod read;
mod required_keys;
mod shapes;
mod sizes;
mod stations;
mod types;

pub use customers::MOST_CUSTOMERS;
pub use faults::{LimitFault, ReadFault};
pub use instance::Instance;
pub use laws::bytes_mean_one_thing;
pub use places::{Key, Part, Place};
pub use read::{MOST_BYTES, read_instance};
