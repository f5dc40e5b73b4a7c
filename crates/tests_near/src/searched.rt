//! What the search for near routes finds, beside itself without a table.

use instance_reader::read_instance;
use near_completion::{Follow, Ground, NearTerms, WayTable, nearest_sets};
use near_search::{Aim, Comparison, NearQuery, NoClock, Order, SearchEnd, search_routes};
use std::alloc::Global;
use worked_instances::{DEPOT_ALONE, ONE_STATION, THREE_CUSTOMERS};

/// The least reduced cost of a route that serves nobody twice where each customer earns so much, by
/// a whole search with a table or without; `None` where there is none below 0.
fn least_reduced(alloc: Global, text: &str, price: i64, has_table: bool) -> Option<i64> {
    let inst = read_instance(alloc, text.as_bytes()).ok()?;
    let ground = Ground::new(alloc, &inst).ok()?;
    let follow = Follow::new(alloc, ground.customers()).ok()?;
    let mut terms = NearTerms::new(alloc, 1, &follow).ok()?;
    for (customer, set) in nearest_sets(alloc, &ground, 9).ok()?.iter().enumerate() {
        terms.set_price(customer, price);
        terms.set_near(customer, *set);
    }
    let table = WayTable::new(alloc, &ground, &terms, 20, true).ok()?;
    let taken = if has_table { table.as_ref() } else { None };
    let query = NearQuery::new(alloc, &inst, &ground, &terms, taken).ok()?;
    let aim = Aim {
        comparison: Comparison::Exact,
        order: Order::ByBound,
        slack: 0,
        most_routes: 1000,
        most_labels: 100_000,
    };
    let found = search_routes(alloc, &query, &aim, &mut NoClock).ok()?;
    if found.end != SearchEnd::Whole {
        return None;
    }
    let first = found.routes.first()?;
    Some(first.reduced)
}

#[test]
fn a_route_earns_by_a_price_above_its_time(rt: HostRuntime) {
    for &(price, least) in &[(43, None), (50, Some(-7))] {
        assert_eq!(rt; least_reduced(rt.alloc(), ONE_STATION, price, true), least);
    }
}

#[test]
fn with_a_table_the_same_is_found(rt: HostRuntime) {
    for &(text, price) in &[(ONE_STATION, 60), (THREE_CUSTOMERS, 9), (DEPOT_ALONE, 5)] {
        let without = least_reduced(rt.alloc(), text, price, false);
        assert_eq!(rt; least_reduced(rt.alloc(), text, price, true), without);
    }
}
