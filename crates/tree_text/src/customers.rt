//! Customers and stations of an instance, by their nodes and numbers.

ghost use Rattle.std.specs.Prelude.{◌≡◌, ◌≤◌, length};
ghost use Rattle.instance_reader.specs.Instance.{customer_nodes};
ghost use Rattle.certificate_parts.specs.Written.{customer_node};
ghost use Rattle.tree_text.specs.Written.{is_station};

use instance_reader::Instance;

/// How many customers an instance has: 399 at most, so that a set holds all of them.
#[tactic(auto, using(crate::proofs::SetLaws::few_customers))]
pub(crate) fn customer_count(inst: &Instance) -> usize
    ensures value { result ≡ length (customer_nodes inst.now) }
    ensures few { result ≤ 448 }
{
    let _nodes = inst.nodes();
    inst.customers().len()
}

/// The node of the customer with a number, 0 where there is none.
pub(crate) fn node_of(inst: &Instance, number: usize) -> usize
    ensures { result ≡ customer_node inst.now number }
{
    match inst.customers().get(number) {
        Some(node) => *node,
        None => 0,
    }
}

/// Whether a station is at the node; the depot may be one.
pub(crate) fn is_station(inst: &Instance, node: usize) -> bool
    ensures { result ≡ is_station inst.now node }
{
    if node < inst.nodes() {
        inst.curve_at(node).is_some()
    } else {
        false
    }
}
