//! The text of `check`.

ghost use Rattle.std.specs.Prelude.{◌≡◌, ◌≢◌, ◌++◌, OnErr, OnOk};
ghost use Rattle.certificate_check.specs.declared.verdict.Verdict.TheVariants as verdict;
ghost use Rattle.ev_text.specs.Scans.{IsPrefixOf};
ghost use Rattle.plan_writer.specs.CheckText.{IsJudged, check_text, verdict_text};

use certificate_check::Verdict;
use instance_reader::Instance;
use plan_check::PlanFault;
use refusal_lines::push_rejected_plan;
use report_lines::{push_bounds, push_numbered, push_word};
use std::alloc::{AllocError, Global};

/// What the judges of a plan file and of a certificate say.
#[derive(Clone, Copy, Debug, Drop, PartialEq, Eq)]
pub enum Judgement {
    /// The plan file holds a fleet plan of this scaled cost, or says that there is none, and the
    /// certificate shows this scaled bound, or that there is no fleet plan.
    Accepted {
        cost: Option<u128>,
        bound: Option<u128>,
    },
    /// The plan breaks a rule.
    Plan(PlanFault),
    /// The certificate breaks a rule.
    Certificate(Verdict),
}

/// Appends what `check` puts: that plan and certificate are accepted, and the scaled cost, the
/// scaled bound, and the bound taken from the cost, each over the instance's denominator, never
/// reduced, or that there is none; or else the number of the first rule that is broken, and what
/// breaks it: the route, the customer or the stop of a plan, the section, the label, the node or
/// the leaf of a certificate.
///
/// After an `Err` `out` has kept its old bytes as a prefix.
pub fn push_check_report(
    alloc: Global,
    out: &mut Vec<u8>,
    inst: &Instance,
    judgement: &Judgement,
) -> Result<(), AllocError>
    requires { IsJudged judgement.now }
    ensures ok { OnOk result
        (out.new.items ≡ out.old.items ++ check_text inst.now.denominator judgement.now) }
    ensures err { OnErr result (IsPrefixOf out.old.items out.new.items) }
{
    match judgement {
        Judgement::Accepted { cost, bound } => {
            out.extend_from_slice(b"accepted\n")?;
            push_bounds(alloc, out, *cost, *bound, inst.denominator())
        }
        Judgement::Plan(fault) => push_rejected_plan(alloc, out, fault),
        Judgement::Certificate(verdict) => {
            out.extend_from_slice(b"rejected certificate ")?;
            push_verdict(alloc, out, verdict)?;
            out.extend_from_slice(b"\n")
        }
    }
}

/// Appends the number of the rule that a certificate breaks, and what breaks it.
fn push_verdict(alloc: Global, out: &mut Vec<u8>, verdict: &Verdict) -> Result<(), AllocError>
    requires { verdict.now ≢ Verdict.Accepted }
    ensures ok { OnOk result (out.new.items ≡ out.old.items ++ verdict_text verdict.now) }
    ensures err { OnErr result (IsPrefixOf out.old.items out.new.items) }
{
    match verdict {
        Verdict::Start { section } => push_numbered(alloc, out, b"1 section ", *section as u128),
        Verdict::Step {
            section,
            label,
            node,
        } => push_step(alloc, out, *section, *label, *node),
        Verdict::End { section, label } => push_end(alloc, out, *section, *label),
        Verdict::Pairs { leaf } => push_numbered(alloc, out, b"4 leaf ", *leaf as u128),
        Verdict::Bound { leaf } => push_numbered(alloc, out, b"5 leaf ", *leaf as u128),
        Verdict::Root => push_word(out, b"6"),
        // No broken rule, and excluded by the condition.
        Verdict::Accepted => Ok(()),
    }
}

/// Appends the rule on steps, and the section, the label and the node of the step.
fn push_step(
    alloc: Global,
    out: &mut Vec<u8>,
    section: usize,
    label: usize,
    node: usize,
) -> Result<(), AllocError>
    ensures ok { OnOk result
        (out.new.items ≡ out.old.items ++ verdict_text (verdict.Step section label node)) }
    ensures err { OnErr result (IsPrefixOf out.old.items out.new.items) }
{
    push_numbered(alloc, out, b"2 section ", section as u128)?;
    push_numbered(alloc, out, b" label ", label as u128)?;
    push_numbered(alloc, out, b" node ", node as u128)
}

/// Appends the rule on steps home, and the section and the label of the step.
fn push_end(
    alloc: Global,
    out: &mut Vec<u8>,
    section: usize,
    label: usize,
) -> Result<(), AllocError>
    ensures ok { OnOk result
        (out.new.items ≡ out.old.items ++ verdict_text (verdict.End section label)) }
    ensures err { OnErr result (IsPrefixOf out.old.items out.new.items) }
{
    push_numbered(alloc, out, b"3 section ", section as u128)?;
    push_numbered(alloc, out, b" label ", label as u128)
}
