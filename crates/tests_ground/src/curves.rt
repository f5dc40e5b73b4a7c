//! A charging curve.

ghost use Rattle.std.specs.Prelude.{◌≡◌, ◌≤◌};
ghost use Rattle.charge_curve.specs.Points.{last_level};

use charge_curve::{Curve, Scaled};
use std::alloc::Global;
use std::process::Abort;

/// A curve up to a full battery, in halves of a unit of time.
pub(crate) fn scaled_curve(rt: &impl Abort, alloc: Global, full: u64) -> Scaled
    requires { full ≤ 10 }
    ensures { last_level result ≡ full }
{
    let curve = Curve::new(alloc, &[(0, 0), (4, 8), (10, 10)], full).expect(rt, "a curve");
    curve.scale(2).expect(rt, "memory")
}
