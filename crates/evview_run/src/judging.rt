//! Which plans are shown, by the form that the words name.

ghost use Rattle.std.specs.Prelude.{◌≡◌, IfErr, IsNone, OnOk, Option, option_and_then, option_map, true, ℕ};
ghost use Rattle.evview_run.specs.Held.{FitsHeld};
ghost use Rattle.evview_run.specs.Judged.{IsPartUnfit, IsUnshown};
ghost use Rattle.evview_run.specs.ViewAnswer.{IsShowable, IsShownPart, first_walk, first_walk_in, is_of_part};

use crate::held::HeldPlans;
use fleet_steps::cost_of;
use instance_reader::Instance;
use plan_check::{LargeFault, PlanFault};
use route_plan::{FleetPlan, RoutePlan, walk};
use std::alloc::Global;
use view_words::PlanForm;

/// Judges plans by the rules that are asked of their form: the first one that they break, or want
/// of memory.
pub(crate) fn judged(
    alloc: Global,
    inst: &Instance,
    held: &HeldPlans,
    form: &PlanForm,
) -> Result<(), LargeFault>
    requires { FitsHeld inst.now form.now held.now }
    ensures ok { OnOk result ((cost : Option ℕ) × IsShowable form.now inst.now held.now cost) }
    ensures fault { IfErr result (IsUnshown form.now inst.now held.now) }
{
    match form {
        PlanForm::Fleet => match cost_of(alloc, inst, held.plan.as_ref()) {
            Ok(_cost) => Ok(()),
            Err(fault) => Err(fault),
        },
        PlanForm::Part => judged_part(alloc, inst, held.plan.as_ref()),
        PlanForm::Fixed { .. } => match first_walk_in(inst, held) {
            Some(fault) => Err(LargeFault::Plan { fault }),
            None => Ok(()),
        },
    }
}

/// Judges a part of a fleet plan, or none.
fn judged_part(alloc: Global, inst: &Instance, plan: Option<&FleetPlan>) -> Result<(), LargeFault>
    ensures ok { OnOk result
        ((cost : Option ℕ) × IsShownPart inst.now (option_map (λ p. p.now) plan.entry) cost) }
    ensures fault { IfErr result (IsPartUnfit inst.now (option_map (λ p. p.now) plan.entry)) }
{
    match cost_of(alloc, inst, plan) {
        Ok(_cost) => Ok(()),
        Err(LargeFault::Plan { fault }) => {
            if is_of_part(fault) {
                Err(LargeFault::Plan { fault })
            } else {
                Ok(())
            }
        }
        Err(LargeFault::Memory) => Err(LargeFault::Memory),
    }
}

/// Whether a rule is one of a part of a plan: the walks come to their ends, and no customer stands
/// more than once. These rules are tried before the others.
fn is_of_part(fault: PlanFault) -> bool
    ensures { result ≡ is_of_part fault }
{
    match fault {
        PlanFault::Walk { .. } | PlanFault::Twice { .. } => true,
        PlanFault::Unserved { .. } | PlanFault::EmptyRoute { .. } | PlanFault::Stray { .. } =>
            false,
    }
}

/// The first of the routes whose walk breaks a rule, with the rule; none where there is no plan.
fn first_walk_in(inst: &Instance, held: &HeldPlans) -> Option<PlanFault>
    ensures { result ≡ first_walk_in held.now inst.now }
{
    match &held.plan {
        Some(plan) => first_walk(inst, held.start, plan.routes.as_slice()),
        None => None,
    }
}

/// The first of the routes, counted from 0, whose walk from this level breaks a rule.
fn first_walk(inst: &Instance, start: u64, plans: &[RoutePlan]) -> Option<PlanFault>
    ensures { result ≡ first_walk inst.now start 0 plans.now }
{
    for (route, plan) in plans.iter().enumerate() {
        if let Err(fault) = walk(inst, start, plan.stops.as_slice()) {
            return Some(PlanFault::Walk { route, fault });
        }
    }
    None
}
