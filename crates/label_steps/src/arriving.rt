//! What is left of a value on arriving at a node.

ghost use Rattle.std.specs.Prelude.{◌<◌, ◌≤◌, ℕ, IfNone, IfOk, IfSome, MatchOption};
ghost use Rattle.dominance.specs.LevelTimes.{IsLevel};
ghost use Rattle.ev_model.specs.Network.{node_count};
ghost use Rattle.piece_fn.specs.PieceFn.{IsCut, level_times};
ghost use Rattle.label_steps.specs.Arrivals.{ArrivesAs, IsArrival, IsWithin, NoArrival};

use crate::arc::drive_time;
use dominance::LabelValue;
use instance_reader::Instance;
use piece_fn::PieceFn;
use std::alloc::AllocError;

/// What is left of a value on arriving at a node from another: each level falls by the energy of
/// the arc, and each time grows by that of the arc and of the visit. Levels below `least` and times
/// past the limit are dropped; `None` comes exactly where nothing is left.
///
/// `least` and the levels are in units of energy, times are scaled by the instance's denominator.
pub fn arrival(
    inst: &Instance,
    value: &PieceFn,
    from: usize,
    to: usize,
    least: u64,
) -> Result<Option<PieceFn>, AllocError>
    requires left { from < node_count inst.now }
    requires reached { to < node_count inst.now }
    requires levels { (level : ℕ) → IsLevel (level_times value.now) level →
        level ≤ inst.now.capacity }
    ensures left { IfOk result (ArrivesAs inst.now value.now from to least) }
    ensures within { IfOk result (λ arrived. IfSome arrived (IsWithin inst.now)) }
{
    let energy = inst.energy(from, to);
    let time = drive_time(inst, from, to);
    moved(value, energy, time, inst.scaled_limit(), least)
}

/// What is left of a value after an arc, at the level `least` or above; `None` where nothing is
/// left.
fn moved(
    value: &PieceFn,
    energy: u64,
    time: u64,
    limit: u64,
    least: u64,
) -> Result<Option<PieceFn>, AllocError>
    ensures { IfOk result (λ arrived. MatchOption arrived
        (NoArrival energy time limit least (level_times value.now))
        (λ w. IsArrival energy time limit least (level_times value.now) (level_times w))) }
{
    match value.shift(energy, time, limit)? {
        Some(left) => cut_to(left, least),
        None => Ok(None),
    }
}

/// The value without its levels below the least, `None` where no level is left. It takes no memory
/// where no level is below.
fn cut_to(value: PieceFn, least: u64) -> Result<Option<PieceFn>, AllocError>
    ensures none { IfOk result (λ cut. IfNone cut ((level : ℕ) →
        IsLevel (level_times value) level → level < least)) }
    ensures some { IfOk result (λ cut. IfSome cut (λ w.
        IsCut least (level_times value) (level_times w))) }
{
    let (first, _) = value.least();
    if least <= first {
        return Ok(Some(value));
    }
    value.cut(least)
}
