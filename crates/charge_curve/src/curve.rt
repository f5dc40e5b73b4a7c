//! Curves that were accepted.

ghost use Rattle.std.specs.Prelude.{◌≡◌, ◌≢◌, ◌↔◌, ◌*◌, ◌<◌, ◌≤◌, ◌^◌, None, Some, OnOk, IfOk, ℕ};
ghost use Rattle.charge_curve.specs.CutCurve.{CutCurve, IsAccepted, IsSmall};
ghost use Rattle.charge_curve.specs.Faults.{curve_fault};
ghost use Rattle.charge_curve.specs.declared.fault.CurveFault.{CurveFault};
ghost use Rattle.charge_curve.specs.declared.fault.CurveFault.TheVariants.{Memory};

use crate::fault::{CurveFault, first_fault};
use std::alloc::{AllocError, Global};
use std::marker::Model;

/// A charging curve up to a full battery.
///
/// Contracts see its breakpoints (time from empty, charge reached by then), as they were given, and
/// the level of a full battery at which the curve is cut.
#[derive(Drop)]
pub struct Curve {
    points: Vec<(u64, u64)>,
    full: u64,
}

impl Model for Curve {
    ghost use Rattle.charge_curve.specs.CutCurve.{CutCurve, IsAccepted};

    ghost Value = { CutCurve };

    ghost view = { λ c. record { points = c.points.items; full = c.full } };

    ghost invariant = { λ c. IsAccepted (record { points = c.points.items; full = c.full }) };
}

impl Curve {
    /// The curve through breakpoints (time from empty, charge reached by then), cut at a full
    /// battery of `max_q`.
    ///
    /// The first broken rule is answered: [`CurveFault::Start`], [`CurveFault::Rise`],
    /// [`CurveFault::Concave`], [`CurveFault::Short`], [`CurveFault::TooMany`]. Equal slopes are
    /// accepted.
    pub fn new(alloc: Global, points: &[(u64, u64)], max_q: u64) -> Result<Curve, CurveFault>
        requires { IsSmall points.now max_q }
        ensures ok { OnOk result (curve_fault max_q points.now ≡ None) }
        ensures value { IfOk result (λ c. c ≡ record { points = points.now; full = max_q }) }
        ensures accepted { IfOk result IsAccepted }
        ensures fault { (fault : CurveFault) → fault ≢ Memory
            → (result ≡ Err fault) ↔ (curve_fault max_q points.now ≡ Some fault) }
    {
        if let Some(fault) = first_fault(points, max_q) {
            return Err(fault);
        }
        match Vec::from_slice(alloc, points) {
            Ok(points) => Ok(Curve {
                points,
                full: max_q,
            }),
            Err(AllocError) => Err(CurveFault::Memory),
        }
    }

    /// The level of a full battery. It takes no memory.
    pub fn full(&self) -> u64
        ensures value { result ≡ self.now.full }
        ensures accepted { IsAccepted self.now }
    {
        self.full
    }

    /// The breakpoints (time from empty, charge reached by then), as they were given. It takes no
    /// memory.
    pub fn points(&self) -> &[(u64, u64)]
        ensures value { result.now ≡ self.now.points }
        ensures accepted { IsAccepted self.now }
    {
        self.points.as_slice()
    }

    /// The allocator that [`Curve::new`] was given.
    pub(crate) fn allocator(&self) -> &Global {
        self.points.allocator()
    }
}
