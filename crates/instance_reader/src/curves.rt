//! The charging curves of an instance.

ghost use Rattle.std.specs.Prelude.{◌≡◌, ◌^◌, ◌≤◌, None, map, All, IfOk, IfErr};
ghost use Rattle.charge_curve.specs.CutCurve.{IsAccepted, IsSmall};
ghost use Rattle.ev_model.specs.Curve.{IsMultipleOfSlopes};
ghost use Rattle.instance_reader.specs.Contents.{points_of};
ghost use Rattle.instance_reader.specs.Curves.{bad_curve, bad_curve_in, cut_curve, read_fault};
ghost use Rattle.instance_reader.specs.Instance.{TellsChargeTime};
ghost use Rattle.instance_reader.specs.Refusal.{Refuses};
ghost use Rattle.instance_reader.specs.Views.{curve_view};

use crate::faults::ReadFault;
use crate::fields::CurveEntry;
use charge_curve::{Curve, CurveFault, Scaled};
use std::alloc::{AllocError, Global};

/// The curve of a type of stations: as it was given, and with scaled times.
#[derive(Drop)]
pub(crate) struct StationCurve {
    pub curve: Curve,
    pub scaled: Scaled,
}

/// The breakpoints of an entry, as pairs of time and charge.
fn points(alloc: Global, entry: &CurveEntry) -> Result<Vec<(u64, u64)>, AllocError>
    ensures { IfOk result (λ v. v.items ≡ points_of (curve_view entry.now)) }
{
    entry
        .times
        .iter()
        .copied()
        .zip(entry.charges.iter().copied())
        .collect(alloc)
}

/// Why the entry number `index` isn't read, where its curve is refused.
fn read_fault(index: usize, fault: CurveFault) -> ReadFault
    ensures { result ≡ read_fault index fault }
{
    match fault {
        CurveFault::Memory => ReadFault::Memory,
        fault => ReadFault::BadCurve { index, fault },
    }
}

/// The curve of the entry number `index`.
fn curve(alloc: Global, entry: &CurveEntry, index: usize, max_q: u64) -> Result<Curve, ReadFault>
    requires { IsSmall (points_of (curve_view entry.now)) max_q }
    ensures good { IfOk result (λ _. bad_curve max_q index (curve_view entry.now) ≡ None) }
    ensures value { IfOk result (λ c. c ≡ cut_curve max_q (curve_view entry.now)) }
    ensures accepted { IfOk result IsAccepted }
    ensures err { IfErr result (Refuses (bad_curve max_q index (curve_view entry.now))) }
{
    let points = points(alloc, entry)?;
    match Curve::new(alloc, points.as_slice(), max_q) {
        Ok(curve) => Ok(curve),
        Err(fault) => Err(read_fault(index, fault)),
    }
}

/// The curves of all entries, or the first entry whose breakpoints are none.
pub(crate) fn curves(
    alloc: Global,
    entries: &[CurveEntry],
    max_q: u64,
) -> Result<Vec<Curve>, ReadFault>
    requires { All (λ entry. IsSmall (points_of entry) max_q) (map curve_view entries.now) }
    ensures good { IfOk result (λ _. bad_curve_in max_q (map curve_view entries.now) ≡ None) }
    ensures value { IfOk result
        (λ v. v.items ≡ map (cut_curve max_q) (map curve_view entries.now)) }
    ensures accepted { IfOk result (λ v. All IsAccepted v.items) }
    ensures err { IfErr result (Refuses (bad_curve_in max_q (map curve_view entries.now))) }
{
    let mut curves = Vec::new(alloc);
    for (index, entry) in entries.iter().enumerate() {
        let curve = curve(alloc, entry, index, max_q)?;
        curves.push(curve)?;
    }
    Ok(curves)
}

/// The curves with their scaled times.
pub(crate) fn scaled(
    alloc: Global,
    curves: Vec<Curve>,
    denominator: u64,
) -> Result<Vec<StationCurve>, AllocError>
    requires small { denominator ≤ 10 ^ 9 }
    requires multiple { All (λ c. IsMultipleOfSlopes c.full c.points denominator) curves.items }
    ensures same { IfOk result (λ v. map (λ s. s.curve) v.items ≡ curves.items) }
    ensures scaled { IfOk result
        (λ v. All (λ s. TellsChargeTime s.curve.full denominator s.curve.points s.scaled) v.items) }
{
    let mut scaled_curves = Vec::new(alloc);
    for curve in curves {
        let scaled = curve.scale(denominator)?;
        scaled_curves.push(StationCurve { curve, scaled })?;
    }
    Ok(scaled_curves)
}
