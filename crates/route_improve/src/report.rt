//! The lines that tell of an improvement.

ghost use Rattle.std.specs.Prelude.{◌≡◌, ◌++◌, OnErr, OnOk};
ghost use Rattle.ev_text.specs.Scans.{IsPrefixOf};
ghost use Rattle.route_improve.specs.ImprovedText.{alone_text, improved_text};

use instance_reader::Instance;
use report_lines::{push_number_line, push_scaled_line};
use std::alloc::{AllocError, Global};

/// Appends the scaled cost of the plan that is answered, and that of the plan before, or `none`
/// where there was none, a line each, over the instance's denominator.
///
/// After an `Err`, which is want of memory alone, `out` has kept its old bytes as a prefix.
pub fn push_improved(
    alloc: Global,
    out: &mut Vec<u8>,
    inst: &Instance,
    cost: u128,
    was: Option<u128>,
) -> Result<(), AllocError>
    ensures ok { OnOk result
        (out.new.items ≡ out.old.items ++ improved_text inst.now.denominator cost was) }
    ensures err { OnErr result (IsPrefixOf out.old.items out.new.items) }
{
    push_scaled_line(alloc, out, b"cost ", Some(cost), inst.denominator())?;
    push_scaled_line(alloc, out, b"was ", was, inst.denominator())
}

/// Appends the line of a customer, by his node, whom no route of his own reaches.
///
/// After an `Err`, which is want of memory alone, `out` has kept its old bytes as a prefix.
pub fn push_alone(alloc: Global, out: &mut Vec<u8>, node: usize) -> Result<(), AllocError>
    ensures ok { OnOk result (out.new.items ≡ out.old.items ++ alone_text node) }
    ensures err { OnErr result (IsPrefixOf out.old.items out.new.items) }
{
    push_number_line(alloc, out, b"alone ", node as u128)
}
