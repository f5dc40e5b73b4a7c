//! The line of a fleet plan that breaks a rule.

ghost use Rattle.std.specs.Prelude.{◌≡◌, ◌++◌, OnErr, OnOk};
ghost use Rattle.ev_text.specs.Scans.{IsPrefixOf};
ghost use Rattle.plan_check.specs.declared.fault.PlanFault.TheVariants as plan;
ghost use Rattle.refusal_lines.specs.RejectedText.{rejected_text, rule_text};

use plan_check::PlanFault;
use report_lines::{push_numbered, push_walk_rule};
use route_plan::WalkFault;
use std::alloc::{AllocError, Global};

/// Appends the line of a plan that is rejected: the number of the first rule that it breaks, and
/// the route, the customer or the stop that breaks it.
///
/// After an `Err` `out` has kept its old bytes as a prefix.
pub fn push_rejected_plan(
    alloc: Global,
    out: &mut Vec<u8>,
    fault: &PlanFault,
) -> Result<(), AllocError>
    ensures ok { OnOk result (out.new.items ≡ out.old.items ++ rejected_text fault.now) }
    ensures err { OnErr result (IsPrefixOf out.old.items out.new.items) }
{
    out.extend_from_slice(b"rejected plan ")?;
    push_rule(alloc, out, fault)?;
    out.extend_from_slice(b"\n")
}

/// Appends the number of the rule that a plan breaks, and what breaks it.
fn push_rule(alloc: Global, out: &mut Vec<u8>, fault: &PlanFault) -> Result<(), AllocError>
    ensures ok { OnOk result (out.new.items ≡ out.old.items ++ rule_text fault.now) }
    ensures err { OnErr result (IsPrefixOf out.old.items out.new.items) }
{
    match fault {
        PlanFault::Walk { route, fault } => push_walk(alloc, out, *route, fault),
        PlanFault::Twice { customer } => push_numbered(
            alloc,
            out,
            b"2 customer ",
            *customer as u128,
        ),
        PlanFault::Unserved { customer } => push_numbered(
            alloc,
            out,
            b"3 customer ",
            *customer as u128,
        ),
        PlanFault::EmptyRoute { route } => push_numbered(alloc, out, b"4 route ", *route as u128),
        PlanFault::Stray { route, at } => push_stray(alloc, out, *route, *at),
    }
}

/// Appends the rule on walks, the route, and the rule that its walk breaks.
fn push_walk(
    alloc: Global,
    out: &mut Vec<u8>,
    route: usize,
    fault: &WalkFault,
) -> Result<(), AllocError>
    ensures ok { OnOk result
        (out.new.items ≡ out.old.items ++ rule_text (plan.Walk route fault.now)) }
    ensures err { OnErr result (IsPrefixOf out.old.items out.new.items) }
{
    push_numbered(alloc, out, b"1 route ", route as u128)?;
    out.extend_from_slice(b" walk ")?;
    push_walk_rule(alloc, out, fault)
}

/// Appends the rule on stray stops, the route, and the position of the stop.
fn push_stray(alloc: Global, out: &mut Vec<u8>, route: usize, at: usize) -> Result<(), AllocError>
    ensures ok { OnOk result (out.new.items ≡ out.old.items ++ rule_text (plan.Stray route at)) }
    ensures err { OnErr result (IsPrefixOf out.old.items out.new.items) }
{
    push_numbered(alloc, out, b"5 route ", route as u128)?;
    push_numbered(alloc, out, b" at ", at as u128)
}
