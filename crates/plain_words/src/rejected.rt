//! What broken rules of fleet plans mean: a sentence for each.

use crate::sentence::Sentence;
use plan_check::PlanFault;
use route_plan::WalkFault;

/// What the broken rule of a fleet plan means.
pub fn rejected_plan(fault: PlanFault) -> Sentence {
    match fault {
        PlanFault::Walk { route, fault } => walk(route, fault),
        PlanFault::Twice { customer } => {
            Sentence::one("{PLAN}: customer {1} is served more than once", customer)
        }
        PlanFault::Unserved { customer } => {
            Sentence::one("{PLAN}: customer {1} is served by no route", customer)
        }
        PlanFault::EmptyRoute { route } => Sentence::one(
            "{PLAN}: route {1}, counted from 0, serves no customer",
            route,
        ),
        PlanFault::Stray { route, at } => Sentence::two(
            "{PLAN}: route {1}: stop {2} wasn't inserted, and is no customer",
            route,
            at,
        ),
    }
}

/// What the broken rule of the walk along a route means.
fn walk(route: usize, fault: WalkFault) -> Sentence {
    match stop_of(fault) {
        Some(at) => Sentence::two(
            "{PLAN}: route {1}, at stop {2}, both counted from 0, {word}",
            route,
            at,
        )
        .saying(words_of_walk(fault)),
        None => Sentence::one("{PLAN}: route {1}, counted from 0, {word}", route).saying(
            words_of_walk(fault),
        ),
    }
}

/// At which stop a walk breaks its rule, where the rule is one of a stop.
pub fn stop_of(fault: WalkFault) -> Option<usize> {
    match fault {
        WalkFault::Ends => None,
        WalkFault::Unknown { at }
        | WalkFault::Again { at }
        | WalkFault::Empty { at }
        | WalkFault::NotStation { at }
        | WalkFault::Full { at }
        | WalkFault::Late { at } => Some(at),
    }
}

/// What the rule of a walk says of the vehicle.
pub fn words_of_walk(fault: WalkFault) -> &'static str {
    match fault {
        WalkFault::Ends => "doesn't begin and end at the depot, each time without charging there",
        WalkFault::Unknown { .. } => "comes to a node that isn't in the instance",
        WalkFault::Again { .. } => "stays where it is",
        WalkFault::Empty { .. } => {
            "arrives with less than the reserve, or at home with less than it must"
        }
        WalkFault::NotStation { .. } => "charges, or stops over, where no station is",
        WalkFault::Full { .. } => "charges more than the battery holds",
        WalkFault::Late { .. } => "takes longer than the limit",
    }
}
