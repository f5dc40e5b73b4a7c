//! The text of a verdict, and of a bound.

ghost use Rattle.std.specs.Prelude.{◌≡◌, ◌++◌, OnErr, OnOk, codes, decimal};
ghost use Rattle.ev_text.specs.Scans.{IsPrefixOf};
ghost use Rattle.near_proof.specs.declared.verdict.NearVerdict.TheVariants.{Accepted};
ghost use Rattle.near_text.specs.VerdictText.{near_bound_text, near_verdict_text, rejected_line};

use instance_reader::Instance;
use near_proof::{NearProof, NearVerdict};
use report_lines::{push_infeasible, push_number_line, push_numbered, push_scaled_line, push_word};
use std::alloc::{AllocError, Global};

/// Appends what is told of a verdict on a near proof: that it is accepted, and the proof's scaled
/// bound over the instance's denominator, never reduced, or that it has none; or else the number
/// of the first rule that it breaks, and what breaks it: the label and the node of a step, the
/// label, or the node of the customer. The bound is told of an accepted proof alone.
///
/// After an `Err`, which is want of memory alone, `out` has kept its old bytes as a prefix.
pub fn push_near_verdict(
    alloc: Global,
    out: &mut Vec<u8>,
    inst: &Instance,
    p: &NearProof,
    v: &NearVerdict,
) -> Result<(), AllocError>
    ensures ok { OnOk result (out.new.items
        ≡ out.old.items ++ near_verdict_text inst.now.denominator p.now.bound v.now) }
    ensures err { OnErr result (IsPrefixOf out.old.items out.new.items) }
{
    match v {
        NearVerdict::Accepted => push_accepted(alloc, out, inst.denominator(), p.bound),
        NearVerdict::Start => push_word(out, b"rejected near 1\n"),
        NearVerdict::Step { label, node } => push_step(alloc, out, *label, *node),
        NearVerdict::End { label } => push_end(alloc, out, *label),
        NearVerdict::Bound => push_word(out, b"rejected near 4\n"),
        NearVerdict::Tight { customer } => push_tight(alloc, out, *customer),
    }
}

/// Appends that a proof is accepted, and its bound.
fn push_accepted(
    alloc: Global,
    out: &mut Vec<u8>,
    denominator: u64,
    bound: Option<u128>,
) -> Result<(), AllocError>
    ensures ok { OnOk result
        (out.new.items ≡ out.old.items ++ near_verdict_text denominator bound Accepted) }
    ensures err { OnErr result (IsPrefixOf out.old.items out.new.items) }
{
    out.extend_from_slice(b"accepted\n")?;
    push_scaled_line(alloc, out, b"bound ", bound, denominator)
}

/// Appends that a step leads to a state that is not covered.
fn push_step(alloc: Global, out: &mut Vec<u8>, label: usize, node: usize) -> Result<(), AllocError>
    ensures ok { OnOk result (out.new.items ≡ out.old.items
        ++ rejected_line (codes "2 label " ++ decimal label ++ codes " node " ++ decimal node)) }
    ensures err { OnErr result (IsPrefixOf out.old.items out.new.items) }
{
    push_numbered(alloc, out, b"rejected near 2 label ", label as u128)?;
    push_number_line(alloc, out, b" node ", node as u128)
}

/// Appends that a step home takes less than the label has earned.
fn push_end(alloc: Global, out: &mut Vec<u8>, label: usize) -> Result<(), AllocError>
    ensures ok { OnOk result
        (out.new.items ≡ out.old.items ++ rejected_line (codes "3 label " ++ decimal label)) }
    ensures err { OnErr result (IsPrefixOf out.old.items out.new.items) }
{
    push_number_line(alloc, out, b"rejected near 3 label ", label as u128)
}

/// Appends that a customer has no tight route.
fn push_tight(alloc: Global, out: &mut Vec<u8>, customer: usize) -> Result<(), AllocError>
    ensures ok { OnOk result
        (out.new.items ≡ out.old.items ++ rejected_line (codes "5 customer " ++ decimal customer)) }
    ensures err { OnErr result (IsPrefixOf out.old.items out.new.items) }
{
    push_number_line(alloc, out, b"rejected near 5 customer ", customer as u128)
}

/// Appends the line of a bound on the cost of fleet plans: the scaled bound over the instance's
/// denominator, never reduced, or, for `None`, that there is no fleet plan.
///
/// After an `Err`, which is want of memory alone, `out` has kept its old bytes as a prefix.
pub fn push_near_bound(
    alloc: Global,
    out: &mut Vec<u8>,
    inst: &Instance,
    bound: Option<u128>,
) -> Result<(), AllocError>
    ensures ok { OnOk result
        (out.new.items ≡ out.old.items ++ near_bound_text inst.now.denominator bound) }
    ensures err { OnErr result (IsPrefixOf out.old.items out.new.items) }
{
    match bound {
        Some(_) => push_scaled_line(alloc, out, b"bound ", bound, inst.denominator()),
        None => push_infeasible(out),
    }
}
