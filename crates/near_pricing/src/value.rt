//! The times of a label that grow with the level by what it is worth.

ghost use Rattle.std.specs.Prelude.{◌≤◌, IfOk, IfSome};
ghost use Rattle.std.specs.List.{All};
ghost use Rattle.certificate_parts.specs.Ranges.{PointFits};
ghost use Rattle.charge_curve.specs.Points.{ArePoints};
ghost use Rattle.ev_model.specs.Network.{scaled_limit};

use instance_reader::Instance;
use piece_fn::PieceFn;
use std::alloc::{AllocError, Global};

/// The times that are later than what the level is worth by at least so much, where a unit of level
/// is worth a rate: at each level at which that is a time within the limit. `None` where there is
/// no such level.
pub(crate) fn value_after(
    alloc: Global,
    inst: &Instance,
    rate: u64,
    least: i128,
) -> Result<Option<PieceFn>, AllocError>
    ensures valid { IfOk result (λ found. IfSome found ArePoints) }
    ensures points { IfOk result (λ found. IfSome found (All (PointFits inst.now))) }
{
    let Some((level, time)) = first_point(rate, least) else {
        return Ok(None);
    };
    if level > inst.max_q() || time > inst.denominator() * inst.limit() {
        return Ok(None);
    }
    Ok(Some(line_from(alloc, inst, rate, level, time)?))
}

/// The least level at which there is a time, with that time.
fn first_point(rate: u64, least: i128) -> Option<(u64, u64)> {
    let early = u64::try_from(least.unsigned_abs()).ok()?;
    if least >= 0 {
        return Some((0, early));
    }
    let level = early.checked_add(rate)?.checked_sub(1)?.checked_div(rate)?;
    let time = rate.checked_mul(level)?.checked_sub(early)?;
    Some((level, time))
}

/// The times from a point on, up to a full battery or the limit.
fn line_from(
    alloc: Global,
    inst: &Instance,
    rate: u64,
    level: u64,
    time: u64,
) -> Result<PieceFn, AllocError>
    requires level { level ≤ inst.now.capacity }
    requires time { time ≤ scaled_limit inst.now }
    ensures valid { IfOk result ArePoints }
    ensures points { IfOk result (All (PointFits inst.now)) }
{
    let limit = inst.denominator() * inst.limit();
    let free = inst.max_q() - level;
    let rise = free.min((limit - time).checked_div(rate).unwrap_or(free));
    let later = time.saturating_add(rate.saturating_mul(rise));
    let points = [(level, time), (level + rise, later)];
    if later > limit || !PieceFn::is_points(&points) {
        return Ok(PieceFn::point(alloc, level, time));
    }
    PieceFn::from_points(alloc, &points)
}
