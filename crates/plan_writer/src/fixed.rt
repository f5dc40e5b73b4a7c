//! The text of `fixed`.

ghost use Rattle.std.specs.Prelude.{◌≡◌, ◌++◌, Some, OnOk, OnErr, option_map};
ghost use Rattle.ev_text.specs.Scans.{IsPrefixOf};
ghost use Rattle.report_lines.specs.FixedText.{amount_text, fixed_text, stop_line, stop_lines};

use ev_model::Stop;
use instance_reader::Instance;
use report_lines::{push_infeasible, push_time};
use route_plan::RoutePlan;
use std::alloc::{AllocError, Global};

/// Appends what `fixed` puts: a charged route and its scaled time, or that no plan is feasible.
///
/// After an `Err` `out` has kept its old bytes as a prefix.
pub fn push_fixed(
    alloc: Global,
    out: &mut Vec<u8>,
    inst: &Instance,
    plan: Option<(&RoutePlan, u64)>,
) -> Result<(), AllocError>
    ensures ok { OnOk result
        (out.new.items ≡ out.old.items
        ++ fixed_text inst.now.denominator (option_map (λ p. (p.0.now.stops, p.1)) plan.entry)) }
    ensures err { OnErr result (IsPrefixOf out.old.items out.new.items) }
{
    match plan {
        Some((plan, time)) => push_charged(
            alloc,
            out,
            plan.stops.as_slice(),
            time,
            inst.denominator(),
        ),
        None => push_infeasible(out),
    }
}

/// Appends a charged route and its scaled time.
fn push_charged(
    alloc: Global,
    out: &mut Vec<u8>,
    stops: &[Stop],
    time: u64,
    denominator: u64,
) -> Result<(), AllocError>
    ensures ok { OnOk result
        (out.new.items ≡ out.old.items ++ fixed_text denominator (Some (stops.now, time))) }
    ensures err { OnErr result (IsPrefixOf out.old.items out.new.items) }
{
    push_time(alloc, out, time, denominator)?;
    push_stops(alloc, out, stops)
}

/// Appends a line for each stop.
fn push_stops(alloc: Global, out: &mut Vec<u8>, stops: &[Stop]) -> Result<(), AllocError>
    ensures ok { OnOk result (out.new.items ≡ out.old.items ++ stop_lines stops.now) }
    ensures err { OnErr result (IsPrefixOf out.old.items out.new.items) }
{
    for stop in stops {
        push_stop(alloc, out, stop)?;
    }
    Ok(())
}

/// Appends the line of a stop.
fn push_stop(alloc: Global, out: &mut Vec<u8>, stop: &Stop) -> Result<(), AllocError>
    ensures ok { OnOk result (out.new.items ≡ out.old.items ++ stop_line stop.now) }
    ensures err { OnErr result (out.new.items ≡ out.old.items) }
{
    let word = if stop.via { "via" } else { "at" };
    let (node, added) = (stop.node, stop.added);
    let line = if added > 0 {
        format!(in alloc; "{word} {node} charge {added}\n")?
    } else {
        format!(in alloc; "{word} {node}\n")?
    };
    out.extend_from_slice(line.as_bytes())
}
