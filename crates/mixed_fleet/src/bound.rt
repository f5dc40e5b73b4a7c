//! The bound by prices.

ghost use Rattle.std.specs.Prelude.{◌≡◌, ◌≤◌, pos, ◌<ℤ◌, ◌≤ℤ◌, IfSome, length};
ghost use Rattle.std.specs.List.{All};
ghost use Rattle.certificate_parts.specs.Limits.{greatest_bound};
ghost use Rattle.certificate_parts.specs.Ranges.{IsPrice};
ghost use Rattle.fleet_model.specs.Prices.{price_total};
ghost use Rattle.mixed_fleet.specs.Proofs.{IsBoundOf};

use certificate_check::{rounded_up, unsigned_total};

/// The bound by prices: their sum over the weight, rounded up; `None`, that there is no plan, where
/// the weight is 0.
pub(crate) fn bound_of(weight: u64, prices: &[i128]) -> Option<u128>
    requires few { length prices.now ≤ 128 }
    requires small { All IsPrice prices.now }
    requires some { pos 0 ≤ℤ price_total prices.now }
    requires above { weight ≡ 0 → pos 0 <ℤ price_total prices.now }
    ensures bound { IsBoundOf weight prices.now result }
    ensures small { IfSome result (λ bound. bound ≤ greatest_bound) }
{
    let sum = unsigned_total(prices);
    if weight == 0 {
        return None;
    }
    Some(rounded_up(sum, weight))
}
