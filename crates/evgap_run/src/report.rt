//! The lines of a cost, a bound and their gap.

ghost use Rattle.std.specs.Prelude.{◌≡◌, ◌^◌, ◌≤◌, ◌++◌, OnErr, OnOk, Some};
ghost use Rattle.ev_text.specs.Scans.{IsPrefixOf};
ghost use Rattle.report_lines.specs.Lines.{IsBoundOf};
ghost use Rattle.evgap_run.specs.Report.{IsSmallCost, accepted_text, alone_line, found_text, gap_line, gap_text, hundredths, percent_line, percent_text, share_line};

use instance_reader::Instance;
use report_lines::{push_bounds, push_infeasible, push_numbered, push_word};
use route_improve::push_alone;
use std::alloc::{AllocError, Global};

/// Appends what a search puts: the customer whom no route of his own reaches, where one is told,
/// and cost, bound and gap; or that there is no fleet plan.
pub fn push_found(
    alloc: Global,
    out: &mut Vec<u8>,
    inst: &Instance,
    alone: Option<usize>,
    cost: Option<u128>,
    bound: Option<u128>,
) -> Result<(), AllocError>
    requires bound { IsBoundOf cost bound }
    requires small { IsSmallCost cost }
    ensures { OnOk result (out.new.items
        ≡ out.old.items ++ found_text inst.now.denominator alone cost bound) }
{
    if bound.is_none() {
        return push_infeasible(out);
    }
    push_alone_line(alloc, out, alone)?;
    push_gap(alloc, out, inst, cost, bound)
}

/// Appends the line of a customer whom no route of his own reaches, where one is told.
fn push_alone_line(alloc: Global, out: &mut Vec<u8>, alone: Option<usize>) -> Result<(), AllocError>
    ensures { OnOk result (out.new.items ≡ out.old.items ++ alone_line alone) }
{
    match alone {
        Some(node) => push_alone(alloc, out, node),
        None => Ok(()),
    }
}

/// Appends that a plan and a proof are accepted, and cost, bound and gap.
pub fn push_accepted(
    alloc: Global,
    out: &mut Vec<u8>,
    inst: &Instance,
    cost: Option<u128>,
    bound: Option<u128>,
) -> Result<(), AllocError>
    requires bound { IsBoundOf cost bound }
    requires small { IsSmallCost cost }
    ensures { OnOk result
        (out.new.items ≡ out.old.items ++ accepted_text inst.now.denominator cost bound) }
{
    push_word(out, b"accepted\n")?;
    push_gap(alloc, out, inst, cost, bound)
}

/// Appends a cost, a bound and their gap.
fn push_gap(
    alloc: Global,
    out: &mut Vec<u8>,
    inst: &Instance,
    cost: Option<u128>,
    bound: Option<u128>,
) -> Result<(), AllocError>
    requires bound { IsBoundOf cost bound }
    requires small { IsSmallCost cost }
    ensures { OnOk result
        (out.new.items ≡ out.old.items ++ gap_text inst.now.denominator cost bound) }
{
    push_bounds(alloc, out, cost, bound, inst.denominator())?;
    match (cost, bound) {
        (Some(cost), Some(bound)) => push_share(alloc, out, cost, bound),
        _ => Ok(()),
    }
}

/// Appends the line of the gap in per cent of the bound, where there is one.
fn push_share(alloc: Global, out: &mut Vec<u8>, cost: u128, bound: u128) -> Result<(), AllocError>
    requires bound { bound ≤ cost }
    requires small { cost ≤ 2 ^ 100 }
    ensures { OnOk result (out.new.items ≡ out.old.items ++ share_line cost bound) }
{
    if cost == bound {
        return push_percent(alloc, out, 0);
    }
    if bound == 0 {
        return Ok(());
    }
    push_percent(alloc, out, hundredths(cost - bound, bound))
}

/// The gap in hundredths of a per cent of the bound, rounded up.
fn hundredths(gap: u128, bound: u128) -> u128
    requires some { 1 ≤ bound }
    requires small { gap ≤ 2 ^ 100 }
    requires small_bound { bound ≤ 2 ^ 100 }
    ensures { result ≡ hundredths gap bound }
{
    (gap * 10_000 + (bound - 1)) / bound
}

/// Appends the line of a gap in hundredths of a per cent.
fn push_percent(alloc: Global, out: &mut Vec<u8>, number: u128) -> Result<(), AllocError>
    ensures { OnOk result (out.new.items ≡ out.old.items ++ percent_line number) }
{
    push_word(out, b"gap ")?;
    push_decimals(alloc, out, number)?;
    push_word(out, b" %\n")
}

/// Appends hundredths as a number with two decimals.
fn push_decimals(alloc: Global, out: &mut Vec<u8>, number: u128) -> Result<(), AllocError>
    ensures { OnOk result (out.new.items ≡ out.old.items ++ percent_text number) }
{
    push_numbered(alloc, out, b"", number / 100)?;
    push_numbered(alloc, out, b".", number / 10 % 10)?;
    push_numbered(alloc, out, b"", number % 10)
}
