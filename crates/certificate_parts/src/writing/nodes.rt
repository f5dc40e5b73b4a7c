//! The nodes of customers and places.

ghost use Rattle.std.specs.Prelude.{◌≡◌, ◌≤◌, ◌<◌};
ghost use Rattle.certificate_parts.specs.Ranges.{customer_count};
ghost use Rattle.certificate_parts.specs.Written.{customer_node, place_node};

use instance_reader::Instance;

/// The node of the customer with a number.
pub fn customer_node(inst: &Instance, number: usize) -> usize
    requires { number < customer_count inst.now }
    ensures { result ≡ customer_node inst.now number }
{
    inst.customers()[number]
}

/// The node of a place.
pub fn place_node(inst: &Instance, place: usize) -> usize
    requires { place ≤ customer_count inst.now }
    ensures { result ≡ place_node inst.now place }
{
    if place == 0 {
        return 0;
    }
    customer_node(inst, place - 1)
}
