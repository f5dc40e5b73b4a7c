//! The line that the level of the battery follows over time.

ghost use Rattle.std.specs.Prelude.{◌≡◌, ◌<◌, ◌≤◌, ◌^◌, ◌++◌, IfOk, OnOk};
ghost use Rattle.std.specs.List.{All};
ghost use Rattle.ev_model.specs.Network.{curve_at};
ghost use Rattle.plan_schedule.specs.Levels.{bend_at, bends_at, bends_on, corner, corners_of, line_of, plugged_in, rise_of};
ghost use Rattle.plan_schedule.specs.Visits.{IsWithin};

use crate::schedule::{Corner, Visit};
use crate::visits::charging_time;
use instance_reader::Instance;
use std::alloc::{AllocError, Global};

/// The line of a route, by its visits.
pub(crate) fn line(
    alloc: Global,
    inst: &Instance,
    visits: &[Visit],
) -> Result<Vec<Corner>, AllocError>
    requires { All (IsWithin inst.now) visits.now }
    ensures { IfOk result (λ v. v.items ≡ line_of inst.now visits.now) }
{
    let mut line = Vec::new(alloc);
    for visit in visits {
        push_corners(inst, visit, &mut line)?;
    }
    Ok(line)
}

/// Appends the corners of a visit: on arriving, where something is charged those on the way, and on
/// leaving.
fn push_corners(inst: &Instance, visit: &Visit, line: &mut Vec<Corner>) -> Result<(), AllocError>
    requires { IsWithin inst.now visit.now }
    ensures { OnOk result (line.new.items ≡ line.old.items ++ corners_of inst.now visit.now) }
{
    line.push(corner(visit.arrival, visit.level))?;
    push_rise(inst, visit, line)?;
    line.push(corner(visit.leaving, visit.level_left))?;
    Ok(())
}

/// Appends, where something is charged, the corner from which on, and the breakpoints on the way.
fn push_rise(inst: &Instance, visit: &Visit, line: &mut Vec<Corner>) -> Result<(), AllocError>
    requires { IsWithin inst.now visit.now }
    ensures { OnOk result (line.new.items ≡ line.old.items ++ rise_of inst.now visit.now) }
{
    if visit.charged == 0 {
        return Ok(());
    }
    line.push(corner(plugged_in(visit), visit.level))?;
    push_bends(inst, visit, line)
}

/// When charging begins.
fn plugged_in(visit: &Visit) -> u64
    requires { plugged_in visit.now ≤ 10 ^ 18 }
    ensures { result ≡ plugged_in visit.now }
{
    visit.arrival + visit.service + visit.plugging
}

/// A corner that is no breakpoint of a curve.
fn corner(time: u64, level: u64) -> Corner
    ensures { result ≡ corner time level }
{
    Corner {
        time,
        level,
        bend: false,
    }
}

/// Appends the breakpoints of the station's curve on the way.
fn push_bends(inst: &Instance, visit: &Visit, line: &mut Vec<Corner>) -> Result<(), AllocError>
    requires { IsWithin inst.now visit.now }
    ensures { OnOk result (line.new.items
        ≡ line.old.items ++ bends_on inst.now visit.now (curve_at inst.now visit.now.node)) }
{
    match inst.curve_at(visit.node) {
        Some(curve) => push_breaks(inst, visit, curve.breaks(), line),
        None => Ok(()),
    }
}

/// Appends those of the breakpoints (level, time) of a curve that are on the way.
fn push_breaks(
    inst: &Instance,
    visit: &Visit,
    breaks: &[(u64, u64)],
    line: &mut Vec<Corner>,
) -> Result<(), AllocError>
    requires { IsWithin inst.now visit.now }
    ensures { OnOk result
        (line.new.items ≡ line.old.items ++ bends_at inst.now visit.now breaks.now) }
{
    for point in breaks {
        if visit.level < point.0 && point.0 < visit.level_left {
            line.push(bend(inst, visit, point.0))?;
        }
    }
    Ok(())
}

/// The corner at a level between those on arriving and on leaving.
fn bend(inst: &Instance, visit: &Visit, level: u64) -> Corner
    requires within { IsWithin inst.now visit.now }
    requires above { visit.now.level < level }
    requires below { level < visit.now.level_left }
    ensures { result ≡ bend_at inst.now visit.now level }
{
    Corner {
        time: plugged_in(visit) + charging_time(inst, visit.node, visit.level, level),
        level,
        bend: true,
    }
}
