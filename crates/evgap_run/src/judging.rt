//! The judgement of `check` on a plan and on the bytes of a proof.

ghost use Rattle.std.specs.Prelude.{◌≡◌, IfErr, IfOk, List, Option, option_map, ℕ};
ghost use Rattle.evgap_run.specs.CheckAnswer.{CheckAnswers, check_heard};
ghost use Rattle.evgap_run.specs.Judged.{HasLines, IsJudgementOf, judged_cause, judged_status, judgement_text};
ghost use Rattle.evgap_run.specs.ProofFile.{IsProofEnded};
ghost use Rattle.fleet_steps.specs.PlanFile.{HasPlan};
ghost use Rattle.job_frame.specs.Ended.{IsRuleOrMemory};
ghost use Rattle.job_frame.specs.Task.{IsAnswered};
ghost use Rattle.route_plan.specs.PlanTexts.{FitsFile};
ghost use Rattle.tree_text.specs.BoundProofs.{BoundFits, bound_of};
ghost use Rattle.tree_text.specs.BoundTexts.{HasProof};

use crate::cause::Cause;
use crate::report::push_accepted;
use fleet_steps::cost_of;
use instance_reader::Instance;
use job_frame::{Answer, Ended, Status, refuse};
use plan_check::{LargeFault, PlanFault};
use refusal_lines::{Refusal, push_rejected_plan};
use route_plan::FleetPlan;
use std::alloc::{AllocError, Global};
use tree_text::{
    BoundProof, BoundText, BoundVerdict, CertText, check_bound_proof, push_bound_verdict,
    read_bound_proof,
};

/// What the judges of a plan and of a proof say.
#[derive(Clone, Copy, Drop)]
pub enum Judgement {
    /// The plan file holds a fleet plan of this scaled cost, or says that there is none, and the
    /// proof shows this scaled bound, or that there is no fleet plan.
    Accepted {
        cost: Option<u128>,
        bound: Option<u128>,
    },
    /// The plan breaks a rule.
    Plan(PlanFault),
    /// The proof breaks a rule.
    Proof(BoundVerdict),
}

/// The answer to the bytes of a proof, of either kind, on an instance and a plan, or none: first
/// they are read, then the plan is judged, and then the proof.
pub fn judge_text(
    alloc: Global,
    inst: &Instance,
    plan: Option<&FleetPlan>,
    bytes: &[u8],
) -> Result<Answer<Cause>, AllocError>
    requires { FitsFile (option_map (λ p. p.now) plan) }
    ensures answered { IfOk result (λ a. IsAnswered a.status) }
    ensures answers { (limit : Option ℕ) (file plan_bytes : List ℕ)
        → HasPlan limit file plan_bytes inst.now (option_map (λ p. p.now) plan.entry)
        → IfOk result (λ a.
        CheckAnswers limit file plan_bytes bytes.now a.status a.text.items) }
    ensures heard { IfOk result (λ a. check_heard a.status a.text.items a.cause) }
{
    match proof_of(alloc, inst, bytes) {
        Ok(proof) => report_on(alloc, inst, plan, &proof),
        Err(Ended::Refused(refusal)) => refuse(alloc, refusal),
        Err(Ended::Memory) => Err(AllocError),
    }
}

/// The proof of a file, of either kind.
fn proof_of(alloc: Global, inst: &Instance, bytes: &[u8]) -> Result<BoundProof, Ended>
    ensures has { IfOk result (HasProof inst.now bytes.now) }
    ensures fits { IfOk result (BoundFits inst.now) }
    ensures rule { IfErr result IsRuleOrMemory }
    ensures ended { IfErr result (IsProofEnded inst.now bytes.now) }
{
    match read_bound_proof(alloc, inst, bytes) {
        Ok(proof) => Ok(proof),
        Err(BoundText::Text(CertText::Memory)) => Err(Ended::Memory),
        Err(BoundText::Text(fault)) => Err(Ended::Refused(Refusal::Certificate(fault))),
        Err(BoundText::Customers(count)) => Err(Ended::Refused(Refusal::Customers(count))),
    }
}

/// The report on a fleet plan, or on none, and a proof.
fn report_on(
    alloc: Global,
    inst: &Instance,
    plan: Option<&FleetPlan>,
    proof: &BoundProof,
) -> Result<Answer<Cause>, AllocError>
    requires text { FitsFile (option_map (λ p. p.now) plan) }
    requires fits { BoundFits inst.now proof.now }
    ensures answered { IfOk result (λ a. IsAnswered a.status) }
    ensures answers { (limit : Option ℕ) (file plan_bytes bytes : List ℕ)
        → HasPlan limit file plan_bytes inst.now (option_map (λ p. p.now) plan.entry)
        → HasProof inst.now bytes proof.now
        → IfOk result (λ a. CheckAnswers limit file plan_bytes bytes a.status a.text.items) }
    ensures heard { IfOk result (λ a. check_heard a.status a.text.items a.cause) }
{
    let judgement = judge(alloc, inst, plan, proof)?;
    report(alloc, inst, proof, &judgement)
}

/// What is found of a fleet plan, or of none, and of a proof: the plan is judged first.
fn judge(
    alloc: Global,
    inst: &Instance,
    plan: Option<&FleetPlan>,
    proof: &BoundProof,
) -> Result<Judgement, AllocError>
    requires text { FitsFile (option_map (λ p. p.now) plan) }
    requires fits { BoundFits inst.now proof.now }
    ensures found { IfOk result
        (IsJudgementOf inst.now (option_map (λ p. p.now) plan.entry) proof.now) }
    ensures lines { IfOk result (HasLines proof.now) }
{
    let cost = match cost_of(alloc, inst, plan) {
        Ok(cost) => cost,
        Err(LargeFault::Plan { fault }) => return Ok(Judgement::Plan(fault)),
        Err(LargeFault::Memory) => return Err(AllocError),
    };
    let verdict = check_bound_proof(alloc, inst, proof)?;
    if !verdict.is_accepted() {
        return Ok(Judgement::Proof(verdict));
    }
    Ok(Judgement::Accepted {
        cost,
        bound: proof.bound(),
    })
}

/// The lines of what is found, and the status that goes with them.
fn report(
    alloc: Global,
    inst: &Instance,
    proof: &BoundProof,
    judgement: &Judgement,
) -> Result<Answer<Cause>, AllocError>
    requires { HasLines proof.now judgement.now }
    ensures status { IfOk result (λ a. a.status ≡ judged_status judgement.now) }
    ensures text { IfOk result (λ a. a.text.items
        ≡ judgement_text inst.now.denominator (bound_of proof.now) judgement.now) }
    ensures cause { IfOk result (λ a. a.cause ≡ judged_cause judgement.now) }
{
    let mut text = Vec::new(alloc);
    let status = match judgement {
        Judgement::Accepted { cost, bound } => {
            push_accepted(alloc, &mut text, inst, *cost, *bound)?;
            Status::Done
        }
        Judgement::Plan(fault) => {
            push_rejected_plan(alloc, &mut text, fault)?;
            Status::Negative
        }
        Judgement::Proof(verdict) => {
            push_bound_verdict(alloc, &mut text, inst, proof, verdict)?;
            Status::Negative
        }
    };
    Ok(Answer {
        status,
        text,
        cause: cause_of(judgement),
    })
}

/// The rule that the plan or the proof breaks, where one of them breaks one.
fn cause_of(judgement: &Judgement) -> Option<Cause>
    ensures { result ≡ judged_cause judgement.now }
{
    match judgement {
        Judgement::Accepted { .. } => None,
        Judgement::Plan(fault) => Some(Cause::Plan(*fault)),
        Judgement::Proof(verdict) => Some(Cause::Proof(*verdict)),
    }
}
