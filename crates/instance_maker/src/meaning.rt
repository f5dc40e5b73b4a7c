//! What a made instance means.

ghost use Rattle.std.specs.Prelude.{◌≡◌, ◌↔◌, ◌+◌, ◌≤◌, IfOk, IsErrOf};
ghost use Rattle.ev_model.specs.Network.{node_count};
ghost use Rattle.instance_maker.specs.MadeInstance.{IsOutOfRange, made_text};
ghost use Rattle.instance_reader.specs.Faults.{IsInstanceOf};
ghost use Rattle.instance_maker.specs.MadeContents.{made_network};

use crate::{MakerFault, make_instance};
use instance_reader::{Instance, ReadFault, read_instance};
use std::alloc::Global;

/// A made instance, and its text.
#[derive(Drop)]
pub struct MadeInstance {
    pub text: Vec<u8>,
    pub instance: Instance,
}

/// Makes an instance from a number, as [`make_instance`] does, and reads it.
///
/// `Range` comes exactly where no instance is made of these numbers.
pub fn made_instance(
    alloc: Global,
    seed: u64,
    customers: u32,
    stations: u32,
) -> Result<MadeInstance, MakerFault>
    ensures range { IsErrOf result MakerFault.Range ↔ IsOutOfRange seed customers stations }
    ensures text { IfOk result (λ made. made.text.items ≡ made_text seed customers stations) }
    ensures means { IfOk result (λ made. IsInstanceOf made.text.items made.instance) }
    ensures network { IfOk result (λ made.
        made.instance ≡ made_network seed customers stations) }
    ensures nodes { IfOk result (λ made.
        node_count made.instance ≡ 1 + customers + stations) }
    ensures some { IfOk result (λ made. 1 ≤ customers) }
{
    let text = match make_instance(alloc, seed, customers, stations) {
        Ok(text) => text,
        Err(fault) => return Err(fault),
    };
    match read_instance(alloc, text.as_slice()) {
        Ok(instance) => Ok(MadeInstance { text, instance }),
        Err(fault) => match fault {
            ReadFault::Memory => Err(MakerFault::Memory),
            // A made text is an instance, so that it breaks no rule.
            _ => unreachable!(),
        },
    }
}
