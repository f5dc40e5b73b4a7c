//! Whether some customer is on no route at all. No clause rests on this.

use super::sections::closed;
use crate::trips::fastest_plan;
use instance_reader::Instance;
use near_completion::{Follow, Ground, NearTerms};
use near_lists::ListPlan;
use near_search::NoClock;
use near_tree::LeafSection;
use std::alloc::{AllocError, Global};

/// So many labels are too many to show that nobody serves a customer.
const MOST_LABELS: usize = 50_000;

/// A section of weight 0 at which some customer earns 1 whom no near route serves, if there is one:
/// among those without a route of their own, the first for whom closed labels are found.
pub(crate) fn section_of_nobody(
    alloc: Global,
    inst: &Instance,
    ground: &Ground,
) -> Result<Option<LeafSection>, AllocError> {
    let follow = Follow::new(alloc, ground.customers())?;
    let mut terms = NearTerms::new(alloc, 0, &follow)?;
    for customer in 0..ground.customers() {
        if fastest_plan(alloc, inst, &[ground.node(customer)])?.is_some() {
            continue;
        }
        terms.set_price(customer, 1);
        let plan = ListPlan {
            most_labels: MOST_LABELS,
            ..ListPlan::careful()
        };
        if let Some(section) = closed(alloc, inst, ground, &terms, &plan, &mut NoClock)? {
            return Ok(Some(section));
        }
        terms.set_price(customer, 0);
    }
    Ok(None)
}
