//! What jobs on fleets put of a plan that breaks a rule, and write of one that breaks none.

ghost use Rattle.std.specs.Prelude.{◌≡◌, [], IfOk, map, option_map, Some};
ghost use Rattle.job_frame.specs.Finds.{written_by};
ghost use Rattle.plan_check.specs.declared.fault.PlanFault.{PlanFault};
ghost use Rattle.refusal_lines.specs.RejectedText.{rejected_text};
ghost use Rattle.route_plan.specs.PlanTexts.{FitsFile, fleet_plan_text};

use job_frame::{Answer, Found, JobCause, Status};
use plan_check::PlanFault;
use refusal_lines::push_rejected_plan;
use route_plan::{FleetPlan, push_fleet_plan};
use std::alloc::{AllocError, Global};

/// Causes of a program whose jobs read fleet plans.
pub trait PlanCause: JobCause {
    // that the plan breaks this rule
    ghost broken: { PlanFault → Self };

    /// The plan of a fleet breaks a rule.
    fn broken(fault: PlanFault) -> Self
        ensures { result ≡ broken fault };
}

/// The line of the first rule that a plan breaks.
pub fn reject<C: PlanCause>(alloc: Global, fault: PlanFault) -> Result<Found<C>, AllocError>
    ensures status { IfOk result (λ f. f.answer.status ≡ Status.Negative) }
    ensures files { IfOk result (λ f. map written_by f.files.items ≡ []) }
    ensures text { IfOk result (λ f. f.answer.text.items ≡ rejected_text fault) }
    ensures cause { IfOk result (λ f. f.answer.cause ≡ Some (C.broken fault)) }
{
    let mut text = Vec::new(alloc);
    push_rejected_plan(alloc, &mut text, &fault)?;
    let answer = Answer {
        status: Status::Negative,
        text,
        cause: Some(C::broken(fault)),
    };
    Ok(Found::alone(alloc, answer))
}

/// The text of the file of a plan, or of none.
pub fn plan_text(alloc: Global, plan: Option<&FleetPlan>) -> Result<Vec<u8>, AllocError>
    requires { FitsFile (option_map (λ p. p.now) plan) }
    ensures { IfOk result
        (λ text. text.items ≡ fleet_plan_text (option_map (λ p. p.now) plan.entry)) }
{
    let mut text = Vec::new(alloc);
    push_fleet_plan(alloc, &mut text, plan)?;
    Ok(text)
}
