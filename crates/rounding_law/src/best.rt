//! The fastest of the whole plans that a plan in kths rounds to.

ghost use Rattle.std.specs.Prelude.{◌≡◌, ◌*◌, ◌<◌, ◌≤◌, IfOk, map, ℕ};
ghost use Rattle.ev_model.specs.Feasible.{IsFeasible};
ghost use Rattle.ev_model.specs.Time.{time_of};
ghost use Rattle.rounding_law.specs.Best.{IsFastestOffset, IsTimeOf, is_less};
ghost use Rattle.rounding_law.specs.Rounding.{rounded_plan, rounded_time};

use crate::rounding::rounded;
use instance_reader::Instance;
use route_plan::{FracPlan, RoutePlan, walk};
use std::alloc::{AllocError, Global};

/// A feasible whole plan with the same stops as a feasible plan in kths, and no slower.
///
/// `p` is feasible from the charge `start`, in whole units. The answer is a fastest one of the
/// plans of [`rounded`] over all offsets below `k`. Its scaled time multiplied by `k` is at most
/// the scaled time of `p` in kths. One plan is held at a time, and `k` plans are walked along.
pub fn best_rounding(
    alloc: Global,
    inst: &Instance,
    start: u64,
    p: &FracPlan,
) -> Result<RoutePlan, AllocError>
    requires { IsFeasible inst.now p.now.k start p.now.stops }
    ensures feasible { IfOk result (λ whole. IsFeasible inst.now 1 start whole.stops) }
    ensures nodes { IfOk result (λ whole.
        map (λ s. s.node) whole.stops ≡ map (λ s. s.node) p.now.stops) }
    ensures marks { IfOk result (λ whole.
        map (λ s. s.via) whole.stops ≡ map (λ s. s.via) p.now.stops) }
    ensures no_slower { IfOk result (λ whole.
        p.now.k * time_of inst.now 1 start whole.stops
        ≤ time_of inst.now p.now.k start p.now.stops) }
    ensures fastest { IfOk result (λ whole. (j : ℕ) → j < p.now.k →
        IsFeasible inst.now 1 start (rounded_plan inst.now p.now.k j start p.now.stops) →
        time_of inst.now 1 start whole.stops
        ≤ rounded_time inst.now p.now.k j start p.now.stops) }
{
    let offset = fastest_offset(alloc, inst, start, p)?;
    rounded(alloc, p, offset, start, inst)
}

/// The offset whose whole plan is the fastest among those that are feasible.
fn fastest_offset(
    alloc: Global,
    inst: &Instance,
    start: u64,
    p: &FracPlan,
) -> Result<u64, AllocError>
    requires { IsFeasible inst.now p.now.k start p.now.stops }
    ensures fastest { IfOk result (λ j. IsFastestOffset inst.now p.now.k start p.now.stops j) }
    ensures no_slower { IfOk result (λ j.
        p.now.k * rounded_time inst.now p.now.k j start p.now.stops
        ≤ time_of inst.now p.now.k start p.now.stops) }
{
    // The network of an instance has the depot.
    prove!(inst.nodes() > 0);
    let mut fastest = 0;
    let mut least = None;
    for j in 0..p.k {
        let time = rounded_time(alloc, inst, start, p, j)?;
        if is_less(time, least) {
            fastest = j;
            least = time;
        }
    }
    Ok(fastest)
}

/// The scaled time of the whole plan with the offset `j`, `None` exactly where that plan isn't
/// feasible.
fn rounded_time(
    alloc: Global,
    inst: &Instance,
    start: u64,
    p: &FracPlan,
    j: u64,
) -> Result<Option<u64>, AllocError>
    requires feasible { IsFeasible inst.now p.now.k start p.now.stops }
    requires offset { j < p.now.k }
    ensures { IfOk result (λ time.
        IsTimeOf inst.now start (rounded_plan inst.now p.now.k j start p.now.stops) time) }
{
    let whole = rounded(alloc, p, j, start, inst)?;
    match walk(inst, start, whole.stops.as_slice()) {
        Ok(walk) => Ok(Some(walk.time)),
        Err(_) => Ok(None),
    }
}

/// Whether a time is less than another; `None` is no time, and less than none.
fn is_less(time: Option<u64>, than: Option<u64>) -> bool
    ensures { result ≡ is_less time than }
{
    match (time, than) {
        (Some(time), Some(than)) => time < than,
        (Some(_), None) => true,
        (None, _) => false,
    }
}
