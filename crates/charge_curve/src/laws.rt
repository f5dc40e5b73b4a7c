//! Laws that say that the definitions mean what they should. Each is the contract of an empty
//! function.

ghost use Rattle.std.specs.Prelude.{◌≡◌, ℕ, List};
ghost use Rattle.std.specs.List.{All};
ghost use Rattle.charge_curve.specs.CutCurve.{CutCurve, IsAccepted, points_of};
ghost use Rattle.charge_curve.specs.Multiples.{IsCommonDenominator};
ghost use Rattle.ev_model.specs.Curve.{IsDenominator};

/// Curves that are accepted have exactly one denominator.
pub fn curves_have_one_denominator()
    ensures some { (curves : List CutCurve) → All IsAccepted curves
        → (d : ℕ) × IsCommonDenominator curves d }
    ensures one { (curves : List CutCurve) (d e : ℕ)
        → IsCommonDenominator curves d → IsCommonDenominator curves e → d ≡ e }
{}

/// Where all curves are cut at the same full battery, their denominator is that of their
/// breakpoints.
pub fn denominator_is_that_of_the_breakpoints()
    ensures { (curves : List CutCurve) (full d : ℕ) → All (λ c. c.full ≡ full) curves
        → IsCommonDenominator curves d → IsDenominator full (points_of curves) d }
{}
