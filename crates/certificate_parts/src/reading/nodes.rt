//! Reading nodes, and the customers and places at them.

ghost use Rattle.std.specs.Prelude.{◌≡◌, ◌≤◌, ◌<◌, Err, IfErr, IfOk, None, Ok, Some, false, length, true, IfNone, IfSome, nat_lt, ◌+◌};
ghost use Rattle.instance_reader.specs.Instance.{customer_nodes, most_customers};
ghost use Rattle.certificate_parts.specs.Ranges.{customer_count};
ghost use Rattle.certificate_parts.specs.Reading.{customer_at, is_customer_node, is_place, node_where};
ghost use Rattle.certificate_parts.specs.Places.{IsPlaceOf};
ghost use Rattle.ev_text.specs.declared.TextFault.TheVariants.{TooLarge};
ghost use Rattle.ev_model.specs.Network.{node_count};
ghost use Rattle.certificate_parts.specs.Written.{customer_node, place_node};

use ev_text::{Scan, TextFault};
use instance_reader::Instance;

/// The greatest number of a node.
pub(crate) const GREATEST_NUMBER: u128 = 1_000_000_000;

/// A place of a route, with its node.
#[derive(Clone, Copy)]
pub struct Place {
    pub node: usize,
    pub place: usize,
}

/// The number of the customer at a node, `None` where there is none.
pub(crate) fn customer_at(inst: &Instance, node: usize) -> Option<usize>
    ensures some { IfSome result (λ c. (c < customer_count inst.now) ×
        (customer_node inst.now c ≡ node) × (is_customer_node inst.now node ≡ true)) }
    ensures none { IfNone result (is_customer_node inst.now node ≡ false) }
{
    if node < inst.nodes() {
        inst.customer_number(node)
    } else {
        None
    }
}

/// The place at a node, `None` where there is neither the depot nor a customer.
fn place_at(inst: &Instance, node: usize) -> Option<usize>
    requires few { length (customer_nodes inst.now) ≤ most_customers }
    ensures some { IfSome result (λ p. (p ≤ customer_count inst.now) ×
        (place_node inst.now p ≡ node) × (is_place inst.now node ≡ true)) }
    ensures none { IfNone result (is_place inst.now node ≡ false) }
{
    if node == 0 {
        return Some(0);
    }
    match customer_at(inst, node) {
        Some(number) => Some(number + 1),
        None => None,
    }
}

/// Takes the node of a place.
pub fn take_place(inst: &Instance, scan: &mut Scan<'_>) -> Result<Place, TextFault>
    requires few { length (customer_nodes inst.now) ≤ most_customers }
    ensures ok { IfOk result (λ p.
        node_where (is_place inst.now) scan.old ≡ Ok (p.node, scan.new)) }
    ensures place { IfOk result (IsPlaceOf inst.now) }
    ensures fault { IfErr result (λ fault.
        node_where (is_place inst.now) scan.old ≡ Err fault) }
{
    let at = scan.place();
    let node = scan.whole(GREATEST_NUMBER)? as usize;
    match place_at(inst, node) {
        Some(place) => Ok(Place { node, place }),
        None => Err(TextFault::TooLarge { at }),
    }
}

/// Takes the node of a customer, as a place.
pub fn take_customer(inst: &Instance, scan: &mut Scan<'_>) -> Result<Place, TextFault>
    requires few { length (customer_nodes inst.now) ≤ most_customers }
    ensures ok { IfOk result (λ p.
        node_where (is_customer_node inst.now) scan.old ≡ Ok (p.node, scan.new)) }
    ensures some { IfOk result (λ p. 1 ≤ p.place) }
    ensures place { IfOk result (IsPlaceOf inst.now) }
    ensures fault { IfErr result (λ fault.
        node_where (is_customer_node inst.now) scan.old ≡ Err fault) }
{
    let at = scan.place();
    let node = scan.whole(GREATEST_NUMBER)? as usize;
    match customer_at(inst, node) {
        Some(number) => Ok(Place {
            node,
            place: number + 1,
        }),
        None => Err(TextFault::TooLarge { at }),
    }
}

/// Takes a node of the instance.
pub fn take_node(inst: &Instance, scan: &mut Scan<'_>) -> Result<usize, TextFault>
    ensures ok { IfOk result (λ node.
        node_where (λ n. nat_lt n (node_count inst.now)) scan.old ≡ Ok (node, scan.new)) }
    ensures fault { IfErr result (λ fault.
        node_where (λ n. nat_lt n (node_count inst.now)) scan.old ≡ Err fault) }
{
    let at = scan.place();
    let node = scan.whole(GREATEST_NUMBER)? as usize;
    if node < inst.nodes() {
        Ok(node)
    } else {
        Err(TextFault::TooLarge { at })
    }
}
