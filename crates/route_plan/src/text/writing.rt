//! The texts of plans and of fleet plans, written.

ghost use Rattle.std.specs.Prelude.{◌≡◌, [], ◌∷◌, ◌++◌, OnErr, OnOk, Some, codes, decimal, nat_lt, option_map, if◌then◌else◌};
ghost use Rattle.ev_text.specs.Texts.{parted_texts};
ghost use Rattle.route_plan.specs.PlanTexts.{FitsFile, FitsText, fleet_plan_text, plan_lines, plan_text, stop_text};

use crate::{FleetPlan, RoutePlan, Stop};
use std::alloc::{AllocError, Global};

/// Appends the line of a plan: `route`, its stops parted by single spaces, and a line feed. A stop
/// is `v` where it was inserted, the number of its node, and `+` and the amount where some is
/// charged.
///
/// The only refusal is want of memory. After an `Err` the bytes of `out` are as before.
pub fn push_plan(alloc: Global, out: &mut Vec<u8>, plan: &RoutePlan) -> Result<(), AllocError>
    requires { FitsText plan.now.stops }
    ensures ok { OnOk result (out.new.items ≡ out.old.items ++ plan_text plan.now.stops) }
    ensures err { OnErr result (out.new.items ≡ out.old.items) }
{
    let mut text = Vec::new(alloc);
    write_plan(alloc, &mut text, plan.stops.as_slice())?;
    out.extend_from_slice(text.as_slice())
}

/// Appends the file of a fleet plan: the line of the format, the line with the number of its plans,
/// and the line of each. Without a fleet plan the second line is `none`, and the last.
///
/// The only refusal is want of memory. After an `Err` the bytes of `out` are as before.
pub fn push_fleet_plan(
    alloc: Global,
    out: &mut Vec<u8>,
    plan: Option<&FleetPlan>,
) -> Result<(), AllocError>
    requires { FitsFile (option_map (λ p. p.now) plan) }
    ensures ok { OnOk result (out.new.items ≡ out.old.items
        ++ fleet_plan_text (option_map (λ p. p.now) plan.entry)) }
    ensures err { OnErr result (out.new.items ≡ out.old.items) }
{
    match plan {
        Some(plan) => push_routes(alloc, out, plan),
        None => out.extend_from_slice(b"evroute plan 1\nnone\n"),
    }
}

/// Appends the file of a fleet plan.
fn push_routes(alloc: Global, out: &mut Vec<u8>, plan: &FleetPlan) -> Result<(), AllocError>
    ensures ok { OnOk result (out.new.items ≡ out.old.items ++ fleet_plan_text (Some plan.now)) }
    ensures err { OnErr result (out.new.items ≡ out.old.items) }
{
    let mut text = Vec::new(alloc);
    write_head(alloc, &mut text, plan.routes.len())?;
    write_routes(alloc, &mut text, plan.routes.as_slice())?;
    out.extend_from_slice(text.as_slice())
}

/// Appends the line of the format and the line with the number of plans. After an `Err` neither
/// stands there.
fn write_head(alloc: Global, text: &mut Vec<u8>, count: usize) -> Result<(), AllocError>
    ensures { OnOk result (text.new.items ≡ text.old.items ++
        (codes "evroute plan 1" ++ 10 ∷ codes "routes " ++ decimal count ++ 10 ∷ [])) }
{
    let lines = format!(in alloc; "evroute plan 1\nroutes {count}\n")?;
    text.extend_from_slice(lines.as_bytes())
}

/// Appends the lines of plans. After an `Err` some of them may stand there.
fn write_routes(alloc: Global, text: &mut Vec<u8>, routes: &[RoutePlan]) -> Result<(), AllocError>
    ensures { OnOk result (text.new.items ≡ text.old.items ++ plan_lines routes.now) }
{
    for route in routes {
        write_plan(alloc, text, route.stops.as_slice())?;
    }
    Ok(())
}

/// Appends the line of a plan. After an `Err` a part of it may stand there.
fn write_plan(alloc: Global, text: &mut Vec<u8>, stops: &[Stop]) -> Result<(), AllocError>
    ensures { OnOk result (text.new.items ≡ text.old.items ++ plan_text stops.now) }
{
    text.extend_from_slice(b"route ")?;
    write_stops(alloc, text, stops)?;
    text.extend_from_slice(b"\n")
}

/// Appends stops parted by single spaces. After an `Err` a part of them may stand there.
pub fn write_stops(alloc: Global, text: &mut Vec<u8>, stops: &[Stop]) -> Result<(), AllocError>
    ensures { OnOk result (text.new.items ≡ text.old.items
        ++ parted_texts (codes " ") stop_text stops.now) }
{
    for (at, stop) in stops.iter().enumerate() {
        write_stop_at(alloc, text, at, stop)?;
    }
    Ok(())
}

/// Appends the stop at a position, counted from 0, behind a space unless it is the first. After an
/// `Err` the space may stand there.
fn write_stop_at(
    alloc: Global,
    text: &mut Vec<u8>,
    at: usize,
    stop: &Stop,
) -> Result<(), AllocError>
    ensures { OnOk result (text.new.items ≡ text.old.items
        ++ (if nat_lt 0 at then codes " " else []) ++ stop_text stop.now) }
{
    if at > 0 {
        text.push(b' ')?;
    }
    write_stop(alloc, text, stop)
}

/// Appends a stop. After an `Err` nothing of it stands there.
fn write_stop(alloc: Global, text: &mut Vec<u8>, stop: &Stop) -> Result<(), AllocError>
    ensures { OnOk result (text.new.items ≡ text.old.items ++ stop_text stop.now) }
{
    let mark = if stop.via { "v" } else { "" };
    let (node, added) = (stop.node, stop.added);
    let word = if added > 0 {
        format!(in alloc; "{mark}{node}+{added}")?
    } else {
        format!(in alloc; "{mark}{node}")?
    };
    text.extend_from_slice(word.as_bytes())
}
