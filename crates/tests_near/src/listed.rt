//! Closed lists of labels on worked instances.

use instance_reader::read_instance;
use near_completion::{Follow, Ground, NearTerms, nearest_sets};
use near_lists::{ListPlan, ListTask, closed_section, near_labels};
use near_search::NoClock;
use std::alloc::Global;
use worked_instances::{ONE_STATION, THREE_CUSTOMERS};

/// Whether there is a closed list where each customer earns so much, of which all labels are those
/// of a near proof; `None` where there is no list.
fn has_near_list(alloc: Global, text: &str, price: i64, plan: &ListPlan) -> Option<bool> {
    let inst = read_instance(alloc, text.as_bytes()).ok()?;
    let ground = Ground::new(alloc, &inst).ok()?;
    let follow = Follow::new(alloc, ground.customers()).ok()?;
    let mut terms = NearTerms::new(alloc, 1, &follow).ok()?;
    for (customer, set) in nearest_sets(alloc, &ground, 9).ok()?.iter().enumerate() {
        terms.set_price(customer, price);
        terms.set_near(customer, *set);
    }
    let task = ListTask {
        inst: &inst,
        ground: &ground,
        terms: &terms,
        entry_prices: &[],
    };
    let section = closed_section(alloc, &task, plan, &mut NoClock).ok()??;
    let labels = near_labels(alloc, &inst, &section).ok()??;
    Some(labels.len() == section.labels.as_slice().len())
}

#[test]
fn a_list_is_closed_up_to_the_price_that_a_route_takes(rt: HostRuntime) {
    for &(price, listed) in &[(43, Some(true)), (44, None)] {
        let plan = ListPlan::careful();
        assert_eq!(rt;
            has_near_list(rt.alloc(), ONE_STATION, price, &plan),
            listed
        );
    }
}

#[test]
fn a_quick_list_is_closed_too(rt: HostRuntime) {
    let plan = ListPlan::quick();
    assert_eq!(rt;
        has_near_list(rt.alloc(), THREE_CUSTOMERS, 1, &plan),
        Some(true)
    );
}
