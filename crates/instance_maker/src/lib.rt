//! Makes a large valid instance from a number.
//!
//! Its depot, customers and stations stand at drawn locations in a square of 1000 by 1000 units,
//! and driving takes as much time and energy as the Manhattan distance. What it means is shown
//! beside.
#![tactic(auto)]

ghost use Rattle.std.specs.Prelude.{◌≡◌, ◌↔◌, ◌<◌, ◌≤◌, ◌+◌, ◌^◌, Some, IfOk, IsErrOf, IsUtf8, vec_len};
ghost use Rattle.serde_json.specs.Read.{read};
ghost use Rattle.instance_maker.specs.MadeInstance.{IsOutOfRange, made_value, made_text};

mod generator;
mod instance;
mod laws;
mod meaning;
mod plane;

use generator::MODULUS;
use instance::instance_value;
pub use laws::made_texts_are_instances;
pub use meaning::{MadeInstance, made_instance};
use std::alloc::{AllocError, Global};

/// The most nodes of an instance.
const MOST_NODES: u64 = 400;

/// Why no instance was made.
#[derive(Clone, Copy, Debug, Drop, PartialEq, Eq)]
pub enum MakerFault {
    /// The seed isn't between 1 and 2147483646, or there is no customer, or there are more than 399
    /// customers and stations together.
    Range,
    /// Memory was refused.
    Memory,
}

/// The text of a made instance: compact JSON, with no line feed at its end.
///
/// Its nodes are the depot, so many customers, and so many stations, in this order. Their
/// locations are drawn by the minimal standard generator of Park and Miller from the seed on.
pub fn make_instance(
    alloc: Global,
    seed: u64,
    customers: u32,
    stations: u32,
) -> Result<Vec<u8>, MakerFault>
    ensures range { IsErrOf result MakerFault.Range ↔ IsOutOfRange seed customers stations }
    ensures text { IfOk result (λ text. text.items ≡ made_text seed customers stations) }
    ensures reads_back { IfOk result (λ text. read text.items
        ≡ Some (made_value seed customers stations)) }
    ensures utf8 { IfOk result (λ text. IsUtf8 text.items) }
    ensures short { IfOk result (λ text. vec_len text < 2 ^ 22) }
{
    let nodes = 1 + u64::from(customers) + u64::from(stations);
    if seed == 0 || seed >= MODULUS || customers == 0 || nodes > MOST_NODES {
        return Err(MakerFault::Range);
    }
    match instance_text(alloc, seed, customers, stations) {
        Ok(text) => Ok(text),
        Err(AllocError) => Err(MakerFault::Memory),
    }
}

/// The text of the made instance.
fn instance_text(
    alloc: Global,
    seed: u64,
    customers: u32,
    stations: u32,
) -> Result<Vec<u8>, AllocError>
    requires seed { seed < MODULUS }
    requires nodes { 1 + customers + stations ≤ MOST_NODES }
    ensures text { IfOk result (λ text. text.items ≡ made_text seed customers stations) }
    ensures reads_back { IfOk result (λ text. read text.items
        ≡ Some (made_value seed customers stations)) }
    ensures utf8 { IfOk result (λ text. IsUtf8 text.items) }
    ensures short { IfOk result (λ text. vec_len text < 2 ^ 22) }
{
    instance_value(alloc, seed, customers, stations)?.to_vec(alloc)
}
