//! The text of a verdict.

ghost use Rattle.std.specs.Prelude.{◌≡◌, ◌++◌, OnErr, OnOk, Some, codes, decimal};
ghost use Rattle.ev_text.specs.Scans.{IsPrefixOf};
ghost use Rattle.route_proof.specs.VerdictText.{least_line, rejected_line, step_word, verdict_text};
ghost use Rattle.report_lines.specs.Walks.{walk_text};
ghost use Rattle.route_proof.specs.declared.verdict.RouteVerdict.TheVariants.{Accepted};

use crate::RouteVerdict;
use instance_reader::Instance;
use report_lines::{
    push_infeasible, push_number_line, push_numbered, push_over, push_walk_rule, push_word,
};
use route_plan::WalkFault;
use std::alloc::{AllocError, Global};

/// Appends what is told of a verdict: that a proof is accepted, and the scaled time of its plan
/// over the instance's denominator, never reduced, or, without a time, that no plan of the route is
/// feasible; or else the number of the first rule that the proof breaks, and what breaks it: the
/// rule of its plan's walk and the stop, or the label and the node of a step. The time is told of
/// an accepted proof alone.
///
/// After an `Err`, which is want of memory alone, `out` has kept its old bytes as a prefix.
pub fn push_route_verdict(
    alloc: Global,
    out: &mut Vec<u8>,
    inst: &Instance,
    time: Option<u64>,
    verdict: &RouteVerdict,
) -> Result<(), AllocError>
    ensures ok { OnOk result
        (out.new.items ≡ out.old.items ++ verdict_text inst.now.denominator time verdict.now) }
    ensures err { OnErr result (IsPrefixOf out.old.items out.new.items) }
{
    match verdict {
        RouteVerdict::Accepted => push_accepted(alloc, out, inst.denominator(), time),
        RouteVerdict::Plan { fault } => push_plan_fault(alloc, out, fault),
        RouteVerdict::Other => push_word(out, b"rejected proof 2\n"),
        RouteVerdict::Start => push_word(out, b"rejected proof 3\n"),
        RouteVerdict::Step { label, node, via } => push_step(alloc, out, *label, *node, *via),
        RouteVerdict::End { label } => push_end(alloc, out, *label),
    }
}

/// Appends that a proof is accepted, and the least time, or that no plan is feasible.
fn push_accepted(
    alloc: Global,
    out: &mut Vec<u8>,
    denominator: u64,
    time: Option<u64>,
) -> Result<(), AllocError>
    ensures ok { OnOk result
        (out.new.items ≡ out.old.items ++ verdict_text denominator time Accepted) }
    ensures err { OnErr result (IsPrefixOf out.old.items out.new.items) }
{
    out.extend_from_slice(b"accepted\n")?;
    match time {
        Some(time) => push_least(alloc, out, denominator, time),
        None => push_infeasible(out),
    }
}

/// Appends the line of the least time.
fn push_least(
    alloc: Global,
    out: &mut Vec<u8>,
    denominator: u64,
    time: u64,
) -> Result<(), AllocError>
    ensures ok { OnOk result (out.new.items ≡ out.old.items ++ least_line denominator (Some time)) }
    ensures err { OnErr result (IsPrefixOf out.old.items out.new.items) }
{
    out.extend_from_slice(b"least ")?;
    push_over(alloc, out, time as u128, denominator)?;
    out.extend_from_slice(b"\n")
}

/// Appends that the walk along the plan breaks a rule.
fn push_plan_fault(alloc: Global, out: &mut Vec<u8>, fault: &WalkFault) -> Result<(), AllocError>
    ensures ok { OnOk result
        (out.new.items ≡ out.old.items ++ rejected_line (codes "1 walk " ++ walk_text fault.now)) }
    ensures err { OnErr result (IsPrefixOf out.old.items out.new.items) }
{
    out.extend_from_slice(b"rejected proof 1 walk ")?;
    push_walk_rule(alloc, out, fault)?;
    out.extend_from_slice(b"\n")
}

/// Appends that a step leads to a state that is not covered.
fn push_step(
    alloc: Global,
    out: &mut Vec<u8>,
    label: usize,
    node: usize,
    via: bool,
) -> Result<(), AllocError>
    ensures ok { OnOk result (out.new.items ≡ out.old.items
        ++ rejected_line (codes "4 label " ++ decimal label ++ step_word via ++ decimal node)) }
    ensures err { OnErr result (IsPrefixOf out.old.items out.new.items) }
{
    push_numbered(alloc, out, b"rejected proof 4 label ", label as u128)?;
    out.extend_from_slice(step_word(via))?;
    push_number_line(alloc, out, b"", node as u128)
}

/// What stands between the label of a step and the node to which it leads.
fn step_word(via: bool) -> &'static [u8]
    ensures { result.now ≡ step_word via }
{
    if via { b" via " } else { b" node " }
}

/// Appends that a step home ends below the bar.
fn push_end(alloc: Global, out: &mut Vec<u8>, label: usize) -> Result<(), AllocError>
    ensures ok { OnOk result
        (out.new.items ≡ out.old.items ++ rejected_line (codes "5 label " ++ decimal label)) }
    ensures err { OnErr result (IsPrefixOf out.old.items out.new.items) }
{
    push_number_line(alloc, out, b"rejected proof 5 label ", label as u128)
}
