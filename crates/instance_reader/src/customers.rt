//! The customers: the nodes other than the depot that have no curve.

ghost use Rattle.std.specs.Prelude.{◌≡◌, ◌<◌, IfOk, length};
ghost use Rattle.instance_reader.specs.Customers.{AreCustomers, has_customer};

use std::alloc::{AllocError, Global};

/// The most customers of a fleet that is planned or judged, and so of a certificate.
pub const MOST_CUSTOMERS: usize = 128;

/// The customers' nodes in rising order, and by node the index of its customer.
#[derive(Drop)]
pub(crate) struct Customers {
    pub nodes: Vec<usize>,
    pub numbers: Vec<Option<usize>>,
}

/// A customer is at the node, which is neither the depot nor has a curve.
fn has_customer(curve_numbers: &[Option<usize>], node: usize) -> bool
    requires { node < length curve_numbers.now }
    ensures { result ≡ has_customer curve_numbers.now node }
{
    node != 0 && curve_numbers[node].is_none()
}

/// The customers, by the number of each node's curve.
pub(crate) fn numbered_customers(
    alloc: Global,
    curve_numbers: &[Option<usize>],
) -> Result<Customers, AllocError>
    ensures { IfOk result
        (λ c. AreCustomers curve_numbers.now (length curve_numbers.now)
        c.nodes.items c.numbers.items) }
{
    let mut nodes = Vec::new(alloc);
    let mut numbers = Vec::new(alloc);
    for node in 0..curve_numbers.len() {
        if has_customer(curve_numbers, node) {
            numbers.push(Some(nodes.len()))?;
            nodes.push(node)?;
        } else {
            numbers.push(None)?;
        }
    }
    Ok(Customers { nodes, numbers })
}
