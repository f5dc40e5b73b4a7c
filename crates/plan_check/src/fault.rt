//! The first broken rule of a fleet plan.

use route_plan::WalkFault;

/// The first broken rule of a fleet plan. Each rule is tried over the whole plan before the next.
/// `route` is the index of a route in the plan, `customer` is a node, and `at` is the position of a
/// stop in its route; indices and positions are counted from 0.
#[derive(Clone, Copy, Debug, Drop, PartialEq, Eq)]
pub enum PlanFault {
    /// The walk along the route, from a full battery, breaks a rule.
    Walk { route: usize, fault: WalkFault },
    /// The customer stands more than once over all routes.
    Twice { customer: usize },
    /// The customer stands on no route.
    Unserved { customer: usize },
    /// The route serves no customer.
    EmptyRoute { route: usize },
    /// The stop wasn't inserted, and is neither at a customer nor the first or the last of its
    /// route.
    Stray { route: usize, at: usize },
}

/// Why a fleet plan for any number of customers isn't accepted.
#[derive(Clone, Copy, Debug, Drop, PartialEq, Eq)]
pub enum LargeFault {
    /// The plan breaks a rule; the first is told.
    Plan { fault: PlanFault },
    /// Memory was refused.
    Memory,
}
