//! Reading nodes of customers, and of the depot.

ghost use Rattle.std.specs.Prelude.{◌≡◌, ◌≤◌, ◌<◌, Err, IfErr, IfNone, IfOk, IfSome, Ok, false, true};
ghost use Rattle.ev_text.specs.declared.TextFault.TheVariants.{TooLarge};
ghost use Rattle.certificate_parts.specs.Places.{IsPlaceOf};
ghost use Rattle.certificate_parts.specs.Ranges.{customer_count};
ghost use Rattle.certificate_parts.specs.Reading.{is_customer_node, is_place, node_where};
ghost use Rattle.certificate_parts.specs.Written.{customer_node, place_node};

use certificate_parts::Place;
use ev_text::{Scan, TextFault};
use instance_reader::Instance;

/// The greatest number of a node.
const GREATEST_NUMBER: u128 = 1_000_000_000;

/// The number of the customer at a node, `None` where there is none.
fn customer_at(inst: &Instance, node: usize) -> Option<usize>
    ensures some { IfSome result (λ c. (c < customer_count inst.now) ×
        (customer_node inst.now c ≡ node) × (is_customer_node inst.now node ≡ true)) }
    ensures small { IfSome result (λ c. c < 448) }
    ensures none { IfNone result (is_customer_node inst.now node ≡ false) }
{
    if node < inst.nodes() {
        inst.customer_number(node)
    } else {
        None
    }
}

/// The place at a node, `None` where there is neither the depot nor a customer.
fn place_at(inst: &Instance, node: usize) -> Option<usize>
    ensures some { IfSome result (λ p. (p ≤ customer_count inst.now) ×
        (place_node inst.now p ≡ node) × (is_place inst.now node ≡ true)) }
    ensures none { IfNone result (is_place inst.now node ≡ false) }
{
    if node == 0 {
        return Some(0);
    }
    match customer_at(inst, node) {
        Some(number) => Some(number + 1),
        None => None,
    }
}

/// Takes the node of a customer, as a place.
pub(crate) fn take_customer(inst: &Instance, scan: &mut Scan<'_>) -> Result<Place, TextFault>
    ensures ok { IfOk result (λ p.
        node_where (is_customer_node inst.now) scan.old ≡ Ok (p.node, scan.new)) }
    ensures some { IfOk result (λ p. 1 ≤ p.place) }
    ensures small { IfOk result (λ p. p.place ≤ 448) }
    ensures place { IfOk result (IsPlaceOf inst.now) }
    ensures fault { IfErr result (λ fault.
        node_where (is_customer_node inst.now) scan.old ≡ Err fault) }
{
    let at = scan.place();
    let node = scan.whole(GREATEST_NUMBER)? as usize;
    match customer_at(inst, node) {
        Some(number) => Ok(Place {
            node,
            place: number + 1,
        }),
        None => Err(TextFault::TooLarge { at }),
    }
}

/// Takes the node of a place.
pub(crate) fn take_place(inst: &Instance, scan: &mut Scan<'_>) -> Result<Place, TextFault>
    ensures ok { IfOk result (λ p.
        node_where (is_place inst.now) scan.old ≡ Ok (p.node, scan.new)) }
    ensures place { IfOk result (IsPlaceOf inst.now) }
    ensures fault { IfErr result (λ fault.
        node_where (is_place inst.now) scan.old ≡ Err fault) }
{
    let at = scan.place();
    let node = scan.whole(GREATEST_NUMBER)? as usize;
    match place_at(inst, node) {
        Some(place) => Ok(Place { node, place }),
        None => Err(TextFault::TooLarge { at }),
    }
}
