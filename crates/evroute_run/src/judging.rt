//! The judgement of `check` on a plan and on the bytes of a certificate.

ghost use Rattle.std.specs.Prelude.{◌≡◌, ◌≤◌, IfErr, IfOk, List, Option, option_map, ℕ};
ghost use Rattle.bound_certificate.specs.Ranges.{Fits, customer_count};
ghost use Rattle.evroute_run.specs.CheckAnswer.{CheckAnswers, IsCertificateOf, check_heard, judged_cause, judged_status};
ghost use Rattle.fleet_steps.specs.PlanFile.{BreaksFirst, HasFleet, IsValid};
ghost use Rattle.evroute_run.specs.Ended.{IsCheckEnded};
ghost use Rattle.instance_reader.specs.Instance.{most_customers};
ghost use Rattle.job_frame.specs.Ended.{IsRuleOrMemory};
ghost use Rattle.evroute_run.specs.Judged.{IsJudgementOf};
ghost use Rattle.job_frame.specs.Task.{IsAnswered};
ghost use Rattle.plan_writer.specs.CheckText.{IsJudged, check_text};

use bound_certificate::{CertText, Certificate, read_certificate};
use certificate_check::{Verdict, check_certificate};
use evroute_causes::Cause;
use instance_reader::Instance;
use job_frame::{Answer, Ended, Status, refuse};
use plan_check::{PlanFault, check_fleet};
use plan_writer::{Judgement, Refusal, push_check_report};
use route_plan::FleetPlan;
use std::alloc::{AllocError, Global};

/// The answer to the bytes of a certificate, on an instance without too many customers and a plan,
/// or none: first they are read, then the plan is judged, and then the certificate.
pub fn judge_text(
    alloc: Global,
    inst: &Instance,
    plan: Option<&FleetPlan>,
    bytes: &[u8],
) -> Result<Answer<Cause>, AllocError>
    requires { customer_count inst.now ≤ most_customers }
    ensures answered { IfOk result (λ a. IsAnswered a.status) }
    ensures answers { (limit : Option ℕ) (file plan_bytes : List ℕ)
        → HasFleet limit file plan_bytes inst.now (option_map (λ p. p.now) plan.entry)
        → IfOk result (λ a.
        CheckAnswers limit file plan_bytes bytes.now a.status a.text.items) }
    ensures heard { IfOk result (λ a. check_heard a.status a.text.items a.cause) }
{
    match certificate_of(alloc, inst, bytes) {
        Ok(cert) => report_on(alloc, inst, plan, &cert),
        Err(Ended::Refused(refusal)) => refuse(alloc, refusal),
        Err(Ended::Memory) => Err(AllocError),
    }
}

/// The certificate of a file.
fn certificate_of(alloc: Global, inst: &Instance, bytes: &[u8]) -> Result<Certificate, Ended>
    requires { customer_count inst.now ≤ most_customers }
    ensures ok { IfOk result (IsCertificateOf inst.now bytes.now) }
    ensures rule { IfErr result IsRuleOrMemory }
    ensures ended { (limit : Option ℕ) (file plan_bytes : List ℕ) (plan : Option FleetPlan)
        → HasFleet limit file plan_bytes inst.now plan
        → IfErr result (IsCheckEnded limit file plan_bytes bytes.now) }
{
    match read_certificate(alloc, inst, bytes) {
        Ok(cert) => Ok(cert),
        Err(CertText::Memory) => Err(Ended::Memory),
        Err(fault) => Err(Ended::Refused(Refusal::Certificate(fault))),
    }
}

/// The report on a fleet plan, or on none, and a certificate.
fn report_on(
    alloc: Global,
    inst: &Instance,
    plan: Option<&FleetPlan>,
    cert: &Certificate,
) -> Result<Answer<Cause>, AllocError>
    requires few { customer_count inst.now ≤ most_customers }
    requires fits { Fits inst.now cert.now }
    ensures answered { IfOk result (λ a. IsAnswered a.status) }
    ensures answers { (limit : Option ℕ) (file plan_bytes bytes : List ℕ)
        → HasFleet limit file plan_bytes inst.now (option_map (λ p. p.now) plan.entry)
        → IsCertificateOf inst.now bytes cert.now
        → IfOk result (λ a. CheckAnswers limit file plan_bytes bytes a.status a.text.items) }
    ensures heard { IfOk result (λ a. check_heard a.status a.text.items a.cause) }
{
    let judgement = judge(alloc, inst, plan, cert)?;
    report(alloc, inst, &judgement)
}

/// What is found of a fleet plan, or of none, and of a certificate: the plan is judged first.
fn judge(
    alloc: Global,
    inst: &Instance,
    plan: Option<&FleetPlan>,
    cert: &Certificate,
) -> Result<Judgement, AllocError>
    requires few { customer_count inst.now ≤ most_customers }
    requires fits { Fits inst.now cert.now }
    ensures found { IfOk result
        (IsJudgementOf inst.now (option_map (λ p. p.now) plan.entry) cert.now) }
    ensures bound { IfOk result IsJudged }
{
    let cost = match cost_of(inst, plan) {
        Ok(cost) => cost,
        Err(fault) => return Ok(Judgement::Plan(fault)),
    };
    let verdict = check_certificate(alloc, inst, cert)?;
    match verdict {
        Verdict::Accepted => Ok(Judgement::Accepted {
            cost,
            bound: cert.bound,
        }),
        _ => Ok(Judgement::Certificate(verdict)),
    }
}

/// The cost of a fleet plan, or none where there is none.
fn cost_of(inst: &Instance, plan: Option<&FleetPlan>) -> Result<Option<u128>, PlanFault>
    requires { customer_count inst.now ≤ most_customers }
    ensures ok { IfOk result (IsValid inst.now (option_map (λ p. p.now) plan.entry)) }
    ensures fault { IfErr result (BreaksFirst inst.now (option_map (λ p. p.now) plan.entry)) }
{
    match plan {
        Some(plan) => match check_fleet(inst, plan) {
            Ok(cost) => Ok(Some(cost)),
            Err(fault) => Err(fault),
        },
        None => Ok(None),
    }
}

/// The lines of what is found, and the status that goes with them.
fn report(
    alloc: Global,
    inst: &Instance,
    judgement: &Judgement,
) -> Result<Answer<Cause>, AllocError>
    requires { IsJudged judgement.now }
    ensures status { IfOk result (λ a. a.status ≡ judged_status judgement.now) }
    ensures text { IfOk result
        (λ a. a.text.items ≡ check_text inst.now.denominator judgement.now) }
    ensures cause { IfOk result (λ a. a.cause ≡ judged_cause judgement.now) }
{
    let mut text = Vec::new(alloc);
    push_check_report(alloc, &mut text, inst, judgement)?;
    let status = match judgement {
        Judgement::Accepted { .. } => Status::Done,
        Judgement::Plan(_) | Judgement::Certificate(_) => Status::Negative,
    };
    Ok(Answer {
        status,
        text,
        cause: cause_of(judgement),
    })
}

/// The rule that is broken, where one is.
fn cause_of(judgement: &Judgement) -> Option<Cause>
    ensures { result ≡ judged_cause judgement.now }
{
    match judgement {
        Judgement::Accepted { .. } => None,
        Judgement::Plan(fault) => Some(Cause::Plan(*fault)),
        Judgement::Certificate(verdict) => Some(Cause::Certificate(*verdict)),
    }
}
