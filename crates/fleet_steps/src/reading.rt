//! The plans of files, and what a plan costs.

ghost use Rattle.std.specs.Prelude.{◌≤◌, ◌^◌, IfErr, IfOk, IfSome, option_map};
ghost use Rattle.fleet_steps.specs.PlanFile.{IsPlanEnded, IsUnfit, IsValid};
ghost use Rattle.job_frame.specs.Ended.{IsRuleOrMemory};
ghost use Rattle.route_plan.specs.PlanTexts.{FitsFile, SpellsFleetPlan};

use instance_reader::Instance;
use job_frame::Ended;
use plan_check::{LargeFault, check_large};
use refusal_lines::Refusal;
use route_plan::{FleetPlan, PlanText, read_fleet_plan};
use std::alloc::Global;

/// The fleet plan of a plan file, or none where it says so.
pub fn plan_of(alloc: Global, bytes: &[u8]) -> Result<Option<FleetPlan>, Ended>
    ensures ok { IfOk result (SpellsFleetPlan bytes.now) }
    ensures rule { IfErr result IsRuleOrMemory }
    ensures ended { IfErr result (IsPlanEnded bytes.now) }
{
    match read_fleet_plan(alloc, bytes) {
        Ok(plan) => Ok(plan),
        Err(PlanText::Memory) => Err(Ended::Memory),
        Err(fault) => Err(Ended::Refused(Refusal::Plan(fault))),
    }
}

/// The cost of a fleet plan, or none where there is none. It is small where the plan may stand in a
/// text.
pub fn cost_of(
    alloc: Global,
    inst: &Instance,
    plan: Option<&FleetPlan>,
) -> Result<Option<u128>, LargeFault>
    ensures ok { IfOk result (IsValid inst.now (option_map (λ p. p.now) plan.entry)) }
    ensures small { FitsFile (option_map (λ p. p.now) plan.entry)
        → IfOk result (λ cost. IfSome cost (λ c. c ≤ 2 ^ 100)) }
    ensures fault { IfErr result (IsUnfit inst.now (option_map (λ p. p.now) plan.entry)) }
{
    // That the instance's network is one is told by its calls.
    let _nodes = inst.nodes();
    match plan {
        Some(plan) => match check_large(alloc, inst, plan) {
            Ok(cost) => Ok(Some(cost)),
            Err(fault) => Err(fault),
        },
        None => Ok(None),
    }
}
