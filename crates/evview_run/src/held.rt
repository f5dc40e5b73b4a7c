//! What the plan file holds, by the form that the words name.

ghost use Rattle.std.specs.Prelude.{◌≡◌, ◌≤◌, Ok, IfErr, IfOk, option_map};
ghost use Rattle.evview_run.specs.Held.{FitsHeld, HasFewRoutes, IsHeldEnded, IsRouteEnded, IsSettingEnded, IsStartEnded, held_charged, held_fleet, held_in, start_of};
ghost use Rattle.fixed_reader.specs.FixedReading.{fixed_in};
ghost use Rattle.fleet_steps.specs.PlanFile.{IsPlanEnded};
ghost use Rattle.fixed_reader.specs.Spelled.{charged};
ghost use Rattle.job_frame.specs.Ended.{IsRuleOrMemory};
ghost use Rattle.job_frame.specs.LimitedNetwork.{HasNetwork};
ghost use Rattle.route_plan.specs.PlanReading.{fleet_plan_in};

use ev_list::Listed;
use fixed_reader::{ChargedRoute, read_fixed};
use fleet_steps::plan_of;
use instance_reader::Instance;
use job_frame::{Ended, limited_instance};
use refusal_lines::Refusal;
use route_plan::{FleetPlan, PlanText};
use std::alloc::{AllocError, Global};
use view_words::PlanForm;

/// Plans of vehicles that start with one level, or none, and what is told of their time.
#[derive(Drop)]
pub struct HeldPlans {
    /// The level at which each vehicle starts, in units of charge.
    pub start: u64,
    /// The plan of each vehicle; `None` where the file says that there is none.
    pub plan: Option<FleetPlan>,
    /// The scaled time that the file tells, where it tells one.
    pub told: Option<u64>,
}

/// An instance, and the level at which vehicles start on it, in units of charge.
#[derive(Drop)]
pub(crate) struct Setting {
    pub inst: Instance,
    pub start: u64,
}

/// The instance of the bytes, with this limit, and the level at which vehicles start on it.
pub(crate) fn setting_of(
    alloc: Global,
    bytes: &[u8],
    limit: Option<u64>,
    form: &PlanForm,
) -> Result<Setting, Ended>
    ensures network { IfOk result (λ s. HasNetwork limit bytes.now s.inst) }
    ensures start { IfOk result (λ s. s.start ≡ start_of s.inst form.now) }
    ensures within { IfOk result (λ s. s.start ≤ s.inst.capacity) }
    ensures rule { IfErr result IsRuleOrMemory }
    ensures ended { IfErr result (IsSettingEnded limit form.now bytes.now) }
{
    let inst = match limited_instance(alloc, bytes, limit) {
        Ok(inst) => inst,
        Err(ended) => return Err(ended),
    };
    match start_of(&inst, form) {
        Ok(start) => Ok(Setting { inst, start }),
        Err(ended) => Err(ended),
    }
}

/// The level at which vehicles start, or that it is above a full battery.
fn start_of(inst: &Instance, form: &PlanForm) -> Result<u64, Ended>
    ensures ok { IfOk result (λ level. level ≡ start_of inst.now form.now) }
    ensures within { IfOk result (λ level. level ≤ inst.now.capacity) }
    ensures rule { IfErr result IsRuleOrMemory }
    ensures ended { IfErr result (IsStartEnded inst.now form.now) }
{
    let full = inst.max_q();
    match form {
        PlanForm::Fleet => Ok(full),
        PlanForm::Part => Ok(full),
        PlanForm::Fixed { charge } => match *charge {
            Some(level) => {
                if level <= full {
                    Ok(level)
                } else {
                    Err(Ended::Refused(Refusal::Charge(level)))
                }
            }
            None => Ok(full),
        },
    }
}

/// The plans of the bytes of a file, of which each vehicle starts with this level.
pub(crate) fn held_of(
    alloc: Global,
    inst: &Instance,
    start: u64,
    bytes: &[u8],
    form: &PlanForm,
) -> Result<HeldPlans, Ended>
    requires start { start ≡ start_of inst.now form.now }
    requires within { start ≤ inst.now.capacity }
    ensures ok { IfOk result (λ held. held_in inst.now form.now bytes.now ≡ Ok held) }
    ensures fits { IfOk result (FitsHeld inst.now form.now) }
    ensures rule { IfErr result IsRuleOrMemory }
    ensures ended { IfErr result (IsHeldEnded inst.now form.now bytes.now) }
{
    match form {
        PlanForm::Fleet => held_fleet(alloc, start, bytes),
        PlanForm::Part => held_fleet(alloc, start, bytes),
        PlanForm::Fixed { .. } => held_route(alloc, inst, start, bytes),
    }
}

/// The fleet plan of the bytes of a file, or none.
fn held_fleet(alloc: Global, start: u64, bytes: &[u8]) -> Result<HeldPlans, Ended>
    ensures ok { IfOk result (λ held. held_fleet start (fleet_plan_in bytes.now) ≡ Ok held) }
    ensures few { IfOk result (λ held. HasFewRoutes held.plan) }
    ensures start { IfOk result (λ held. held.start ≡ start) }
    ensures rule { IfErr result IsRuleOrMemory }
    ensures ended { IfErr result (IsPlanEnded bytes.now) }
{
    match plan_of(alloc, bytes) {
        Ok(plan) => Ok(HeldPlans {
            start,
            plan,
            told: None,
        }),
        Err(ended) => Err(ended),
    }
}

/// The charged route of the bytes of a file, as `fixed` puts it.
fn held_route(alloc: Global, inst: &Instance, start: u64, bytes: &[u8]) -> Result<HeldPlans, Ended>
    ensures ok { IfOk result (λ held.
        held_charged start (fixed_in inst.now.denominator bytes.now) ≡ Ok held) }
    ensures few { IfOk result (λ held. HasFewRoutes held.plan) }
    ensures start { IfOk result (λ held. held.start ≡ start) }
    ensures rule { IfErr result IsRuleOrMemory }
    ensures ended { IfErr result (IsRouteEnded inst.now.denominator bytes.now) }
{
    match route_of(alloc, bytes, inst.denominator()) {
        Ok(found) => match alone(alloc, found, start) {
            Ok(held) => Ok(held),
            Err(AllocError) => Err(Ended::Memory),
        },
        Err(ended) => Err(ended),
    }
}

/// The charged route of the bytes of a file over this denominator, or none where they say so.
fn route_of(alloc: Global, bytes: &[u8], denominator: u64) -> Result<Option<ChargedRoute>, Ended>
    ensures ok { IfOk result
        (λ found. fixed_in denominator bytes.now ≡ Ok (option_map charged found)) }
    ensures rule { IfErr result IsRuleOrMemory }
    ensures ended { IfErr result (IsRouteEnded denominator bytes.now) }
{
    match read_fixed(alloc, bytes, denominator) {
        Ok(found) => Ok(found),
        Err(PlanText::Memory) => Err(Ended::Memory),
        Err(fault) => Err(Ended::Refused(Refusal::Plan(fault))),
    }
}

/// A charged route as the plan of the one vehicle, or none.
fn alone(alloc: Global, found: Option<ChargedRoute>, start: u64) -> Result<HeldPlans, AllocError>
    ensures value { IfOk result (λ held.
        held_charged start (Ok (option_map charged found)) ≡ Ok held) }
    ensures few { IfOk result (λ held. HasFewRoutes held.plan) }
    ensures start { IfOk result (λ held. held.start ≡ start) }
{
    let Some(ChargedRoute { plan, time }) = found else {
        return Ok(HeldPlans {
            start,
            plan: None,
            told: None,
        });
    };
    let mut routes = Listed::new(alloc);
    routes.push(plan)?;
    Ok(HeldPlans {
        start,
        plan: Some(FleetPlan { routes }),
        told: Some(time),
    })
}
