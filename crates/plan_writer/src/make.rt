//! The text of `make`.

ghost use Rattle.std.specs.Prelude.{◌≡◌, ◌++◌, OnErr, OnOk};
ghost use Rattle.ev_model.specs.Network.{node_count};
ghost use Rattle.ev_text.specs.Scans.{IsPrefixOf};
ghost use Rattle.plan_writer.specs.MakeText.{make_text};

use instance_reader::Instance;
use report_lines::{push_number_line, push_time_line};
use std::alloc::{AllocError, Global};

/// Appends what `make` puts: the number of nodes of the instance, its denominator, and the scaled
/// time of a route over the denominator, never reduced, or that no plan of the route is feasible.
///
/// After an `Err` `out` has kept its old bytes as a prefix.
pub fn push_make_report(
    alloc: Global,
    out: &mut Vec<u8>,
    inst: &Instance,
    time: Option<u64>,
) -> Result<(), AllocError>
    ensures ok { OnOk result (out.new.items
        ≡ out.old.items ++ make_text (node_count inst.now) inst.now.denominator time) }
    ensures err { OnErr result (IsPrefixOf out.old.items out.new.items) }
{
    push_lines(alloc, out, inst.nodes(), inst.denominator(), time)
}

/// Appends the three lines.
fn push_lines(
    alloc: Global,
    out: &mut Vec<u8>,
    nodes: usize,
    denominator: u64,
    time: Option<u64>,
) -> Result<(), AllocError>
    ensures ok { OnOk result (out.new.items ≡ out.old.items ++ make_text nodes denominator time) }
    ensures err { OnErr result (IsPrefixOf out.old.items out.new.items) }
{
    push_number_line(alloc, out, b"nodes ", nodes as u128)?;
    push_number_line(alloc, out, b"denominator ", denominator as u128)?;
    push_time_line(alloc, out, time, denominator)
}
