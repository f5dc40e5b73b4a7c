//! Customers by number.

ghost use Rattle.std.specs.Prelude.{◌≡◌, ◌<◌, length, true};
ghost use Rattle.ev_model.specs.Network.{is_customer, node_count};
ghost use Rattle.fleet_model.specs.Places.{customer_number};
ghost use Rattle.instance_reader.specs.Instance.{customer_nodes};

use instance_reader::Instance;

/// The number of the customer at a node. It takes no memory.
pub fn number_of(inst: &Instance, node: usize) -> usize
    requires known { node < node_count inst.now }
    requires customer { is_customer inst.now node ≡ true }
    ensures value { result ≡ customer_number inst.now node }
    ensures within { result < length (customer_nodes inst.now) }
{
    match inst.customer_number(node) {
        Some(number) => number,
        None => unreachable!(),
    }
}
