//! The whole plans that a plan in kths rounds to.

ghost use Rattle.std.specs.Prelude.{◌≡◌, ◌*◌, ◌<◌, ◌≤◌, ◌^◌, IfOk};
ghost use Rattle.ev_model.specs.Feasible.{IsFeasible};
ghost use Rattle.ev_model.specs.Levels.{KeepsBattery};
ghost use Rattle.ev_model.specs.Plan.{IsPlan};
ghost use Rattle.rounding_law.specs.Rounding.{IsRounded, rounded_plan, whole_level};

use ev_list::Listed;
use ev_model::Stop;
use instance_reader::Instance;
use route_plan::{FracPlan, RoutePlan};
use std::alloc::{AllocError, Global};

/// The whole plan that a plan in kths of a unit rounds to with the offset `j`, which is below `k`.
///
/// `p` is a feasible plan from the charge `start`, in whole units. Each battery level of `z` kths
/// along the plan becomes `(z + j) / k` units, rounded down, with the same `j` throughout; the
/// amounts are the differences of these levels. The stops' nodes and marks stay, and the battery is
/// kept. The plan may last longer than the limit; see [`crate::best_rounding`].
pub fn rounded(
    alloc: Global,
    p: &FracPlan,
    j: u64,
    start: u64,
    inst: &Instance,
) -> Result<RoutePlan, AllocError>
    requires feasible { IsFeasible inst.now p.now.k start p.now.stops }
    requires offset { j < p.now.k }
    ensures exact { IfOk result (λ whole.
        whole.stops ≡ rounded_plan inst.now p.now.k j start p.now.stops) }
    ensures rounded { IfOk result (λ whole.
        IsRounded inst.now p.now.k j start p.now.stops whole.stops) }
    ensures plan { IfOk result (λ whole. IsPlan inst.now whole.stops) }
    ensures battery { IfOk result (λ whole. KeepsBattery inst.now 1 start whole.stops) }
{
    let stops = rounded_stops(alloc, p, j, start, inst)?;
    Ok(RoutePlan {
        stops: Listed::from_vec(stops),
    })
}

/// The stops of the whole plan.
fn rounded_stops(
    alloc: Global,
    p: &FracPlan,
    j: u64,
    start: u64,
    inst: &Instance,
) -> Result<Vec<Stop>, AllocError>
    requires feasible { IsFeasible inst.now p.now.k start p.now.stops }
    requires offset { j < p.now.k }
    ensures { IfOk result (λ whole.
        whole.items ≡ rounded_plan inst.now p.now.k j start p.now.stops) }
{
    let stops = p.stops.as_slice();
    let full = p.k as u128 * inst.max_q() as u128;
    let first = stops[0];
    let mut whole = Vec::with_capacity(alloc, stops.len())?;
    whole.push(first)?;
    let mut from = first.node;
    let mut level = p.k as u128 * start as u128;
    for at in 1..stops.len() {
        let stop = stops[at];
        let arriving = level - p.k as u128 * inst.energy(from, stop.node) as u128;
        level = arriving + stop.added as u128;
        prove!(level <= full);
        let added = whole_level(p.k, j, level) - whole_level(p.k, j, arriving);
        whole.push(Stop { added, ..stop })?;
        from = stop.node;
    }
    Ok(whole)
}

/// The whole level that a level of `z` kths becomes with the offset `j`, in units of charge.
fn whole_level(k: u64, j: u64, z: u128) -> u64
    requires offset { j < k }
    requires small { z ≤ k * 10 ^ 9 }
    ensures { result ≡ whole_level k j z }
{
    ((z + j as u128) / k as u128) as u64
}
