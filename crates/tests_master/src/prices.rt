//! What pricing answers at equal prices on worked instances.

ghost use Rattle.std.specs.Prelude.{◌≡◌, ◌^◌, ◌≤◌, All, IfSome, length, unsigned_abs};

use crate::instances::instance;
use customer_sets::Pairs;
use pricing::{Priced, Prices, price};
use std::alloc::Global;
use worked_instances::TWO_CUSTOMERS;

/// The same price for each of so many customers, at the weight 1.
fn equal_prices(alloc: Global, customers: usize, each: u64) -> Option<Prices>
    ensures weight { IfSome result (λ p. p.weight ≡ 1) }
    ensures count { IfSome result (λ p. length p.of.items ≡ customers) }
    ensures small { IfSome result (λ p. All (λ price. unsigned_abs price ≤ 2 ^ 84) p.of.items) }
{
    let mut of = Vec::new(alloc);
    for _ in 0..customers {
        of.push(i128::from(each)).ok()?;
    }
    Some(Prices { weight: 1, of })
}

/// How many customers the first route serves that is answered at equal prices, or none and that
/// labels are listed.
fn priced(alloc: Global, each: u64) -> Option<(usize, bool)> {
    let inst = instance(alloc, TWO_CUSTOMERS, 100)?;
    let customers = inst.customers().len();
    let prices = equal_prices(alloc, customers, each)?;
    match price(alloc, &inst, &Pairs::new(customers), &prices).ok()? {
        Priced::Better { order, .. } => Some((order.len(), false)),
        Priced::Closed { labels } => Some((0, !labels.is_empty())),
    }
}

#[test]
fn a_route_is_found_exactly_where_one_earns(rt: HostRuntime) {
    let alloc = rt.alloc();
    assert_eq!(rt; priced(alloc, 6), Some((0, true)));
    assert_eq!(rt; priced(alloc, 7), Some((2, false)));
}
