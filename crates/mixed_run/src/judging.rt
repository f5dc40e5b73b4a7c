//! The judgement of `check-mixed` on a plan and on the bytes of a proof.

ghost use Rattle.std.specs.Prelude.{◌≡◌, ◌≤◌, ◌++◌, IfErr, IfOk, List, OnOk, Option, option_map, ℕ};
ghost use Rattle.certificate_parts.specs.Ranges.{customer_count};
ghost use Rattle.job_frame.specs.Task.{IsAnswered};
ghost use Rattle.instance_reader.specs.Instance.{most_customers};
ghost use Rattle.job_frame.specs.Ended.{IsRuleOrMemory};
ghost use Rattle.mixed_model.specs.Kinds.{AreKinds, first_of};
ghost use Rattle.mixed_model.specs.Ranges.{MixedFits};
ghost use Rattle.mixed_run.specs.CheckMixedAnswer.{BreaksFirst, CheckMixedAnswers, HasPlan, HasProof, IsValid, check_mixed_heard, judged_cause, judged_status, judgement_text};
ghost use Rattle.mixed_run.specs.Judged.{AreKnown, HasLines, IsJudgementOf, IsProofEnded};

use evroute_causes::Cause;
use instance_reader::Instance;
use job_frame::{Answer, Ended, Status, refuse};
use mixed_model::{MixedProof, MixedRoute, MixedVerdict, PlanFault, check_mixed, check_mixed_plan};
use mixed_text::{CertText, push_mixed_verdict, read_mixed};
use plan_writer::{Judgement, Refusal, push_check_report};
use std::alloc::{AllocError, Global};

/// What the judges of a plan file and of a proof say.
#[derive(Clone, Copy, Debug, Drop, PartialEq, Eq)]
pub enum MixedJudgement {
    /// The plan file holds a plan of this scaled cost, or says that there is none, and the proof
    /// shows this scaled bound, or that there is no plan.
    Accepted {
        cost: Option<u128>,
        bound: Option<u128>,
    },
    /// The plan breaks a rule.
    Plan(PlanFault),
    /// The proof breaks a rule.
    Proof(MixedVerdict),
}

/// The answer to the bytes of a proof for these kinds of vehicles, and to a plan, or none: first
/// the bytes are read, then the plan is judged, and then the proof.
pub fn judge_text(
    alloc: Global,
    kinds: &[Instance],
    plan: Option<&[MixedRoute]>,
    bytes: &[u8],
) -> Result<Answer<Cause>, AllocError>
    requires kinds { AreKinds kinds.now }
    requires few { customer_count (first_of kinds.now) ≤ most_customers }
    requires known { AreKnown kinds.now (option_map (λ p. p.now) plan) }
    ensures answered { IfOk result (λ a. IsAnswered a.status) }
    ensures answers { (limit : Option ℕ) (files : List (List ℕ)) (plan_bytes : List ℕ)
        → HasPlan limit files plan_bytes kinds.now (option_map (λ p. p.now) plan.entry)
        → IfOk result (λ a.
        CheckMixedAnswers limit files plan_bytes bytes.now a.status a.text.items) }
    ensures heard { IfOk result (λ a. check_mixed_heard a.status a.text.items a.cause) }
{
    match proof_of(alloc, kinds, bytes) {
        Ok(proof) => report_on(alloc, kinds, plan, &proof),
        Err(Ended::Refused(refusal)) => refuse(alloc, refusal),
        Err(Ended::Memory) => Err(AllocError),
    }
}

/// The proof of a file.
fn proof_of(alloc: Global, kinds: &[Instance], bytes: &[u8]) -> Result<MixedProof, Ended>
    requires kinds { AreKinds kinds.now }
    requires few { customer_count (first_of kinds.now) ≤ most_customers }
    ensures ok { IfOk result (HasProof kinds.now bytes.now) }
    ensures fits { IfOk result (MixedFits kinds.now) }
    ensures rule { IfErr result IsRuleOrMemory }
    ensures ended { IfErr result (IsProofEnded kinds.now bytes.now) }
{
    match read_mixed(alloc, kinds, bytes) {
        Ok(proof) => Ok(proof),
        Err(CertText::Memory) => Err(Ended::Memory),
        Err(fault) => Err(Ended::Refused(Refusal::Certificate(fault))),
    }
}

/// The report on a plan, or on none, and a proof.
fn report_on(
    alloc: Global,
    kinds: &[Instance],
    plan: Option<&[MixedRoute]>,
    proof: &MixedProof,
) -> Result<Answer<Cause>, AllocError>
    requires kinds { AreKinds kinds.now }
    requires few { customer_count (first_of kinds.now) ≤ most_customers }
    requires known { AreKnown kinds.now (option_map (λ p. p.now) plan) }
    requires fits { MixedFits kinds.now proof.now }
    ensures answered { IfOk result (λ a. IsAnswered a.status) }
    ensures answers { (limit : Option ℕ) (files : List (List ℕ)) (plan_bytes bytes : List ℕ)
        → HasPlan limit files plan_bytes kinds.now (option_map (λ p. p.now) plan.entry)
        → HasProof kinds.now bytes proof.now
        → IfOk result (λ a. CheckMixedAnswers limit files plan_bytes bytes a.status a.text.items) }
    ensures heard { IfOk result (λ a. check_mixed_heard a.status a.text.items a.cause) }
{
    let judgement = judge(alloc, kinds, plan, proof)?;
    report(alloc, &kinds[0], &judgement)
}

/// What is found of a plan, or of none, and of a proof: the plan is judged first.
fn judge(
    alloc: Global,
    kinds: &[Instance],
    plan: Option<&[MixedRoute]>,
    proof: &MixedProof,
) -> Result<MixedJudgement, AllocError>
    requires kinds { AreKinds kinds.now }
    requires few { customer_count (first_of kinds.now) ≤ most_customers }
    requires known { AreKnown kinds.now (option_map (λ p. p.now) plan) }
    requires fits { MixedFits kinds.now proof.now }
    ensures found { IfOk result
        (IsJudgementOf kinds.now (option_map (λ p. p.now) plan.entry) proof.now) }
    ensures lines { IfOk result HasLines }
{
    let cost = match cost_of(kinds, plan) {
        Ok(cost) => cost,
        Err(fault) => return Ok(MixedJudgement::Plan(fault)),
    };
    let verdict = check_mixed(alloc, kinds, proof)?;
    match verdict {
        MixedVerdict::Accepted => Ok(MixedJudgement::Accepted {
            cost,
            bound: proof.bound,
        }),
        _ => Ok(MixedJudgement::Proof(verdict)),
    }
}

/// The cost of a plan, or none where there is none.
fn cost_of(kinds: &[Instance], plan: Option<&[MixedRoute]>) -> Result<Option<u128>, PlanFault>
    requires kinds { AreKinds kinds.now }
    requires few { customer_count (first_of kinds.now) ≤ most_customers }
    requires known { AreKnown kinds.now (option_map (λ p. p.now) plan) }
    ensures ok { IfOk result (IsValid kinds.now (option_map (λ p. p.now) plan.entry)) }
    ensures fault { IfErr result (BreaksFirst kinds.now (option_map (λ p. p.now) plan.entry)) }
{
    match plan {
        Some(plan) => match check_mixed_plan(kinds, plan) {
            Ok(cost) => Ok(Some(cost)),
            Err(fault) => Err(fault),
        },
        None => Ok(None),
    }
}

/// The lines of what is found, over the denominator of the first kind, which is that of all, and
/// the status that goes with them.
fn report(
    alloc: Global,
    first: &Instance,
    judgement: &MixedJudgement,
) -> Result<Answer<Cause>, AllocError>
    requires { HasLines judgement.now }
    ensures status { IfOk result (λ a. a.status ≡ judged_status judgement.now) }
    ensures text { IfOk result
        (λ a. a.text.items ≡ judgement_text first.now.denominator judgement.now) }
    ensures cause { IfOk result (λ a. a.cause ≡ judged_cause judgement.now) }
{
    let mut text = Vec::new(alloc);
    push_judgement(alloc, &mut text, first, judgement)?;
    let status = match judgement {
        MixedJudgement::Accepted { .. } => Status::Done,
        MixedJudgement::Plan(_) | MixedJudgement::Proof(_) => Status::Negative,
    };
    Ok(Answer {
        status,
        text,
        cause: cause_of(judgement),
    })
}

/// The rule that is broken, where one is.
fn cause_of(judgement: &MixedJudgement) -> Option<Cause>
    ensures { result ≡ judged_cause judgement.now }
{
    match judgement {
        MixedJudgement::Accepted { .. } => None,
        MixedJudgement::Plan(fault) => Some(Cause::Plan(*fault)),
        MixedJudgement::Proof(verdict) => Some(Cause::Mixed(*verdict)),
    }
}

/// Appends the lines of what is found.
fn push_judgement(
    alloc: Global,
    out: &mut Vec<u8>,
    first: &Instance,
    judgement: &MixedJudgement,
) -> Result<(), AllocError>
    requires { HasLines judgement.now }
    ensures { OnOk result (out.new.items
        ≡ out.old.items ++ judgement_text first.now.denominator judgement.now) }
{
    match judgement {
        MixedJudgement::Accepted { cost, bound } => {
            let plain = Judgement::Accepted {
                cost: *cost,
                bound: *bound,
            };
            push_check_report(alloc, out, first, &plain)
        }
        MixedJudgement::Plan(fault) => {
            push_check_report(alloc, out, first, &Judgement::Plan(*fault))
        }
        MixedJudgement::Proof(verdict) => push_mixed_verdict(alloc, out, verdict),
    }
}
