//! Sums of prices, and what they are over a weight.

ghost use Rattle.std.specs.Prelude.{◌≡◌, ◌^◌, ◌≤◌, pos, ◌≤ℤ◌, length, unsigned_abs};
ghost use Rattle.std.specs.List.{All};
ghost use Rattle.certificate_parts.specs.Ranges.{IsPrice};
ghost use Rattle.fleet_model.specs.Prices.{price_total};
ghost use Rattle.certificate_check.specs.RoundedUp.{IsRoundedUp};

use crate::price_total;

/// The sum of all prices, where it isn't below 0. It takes no memory.
pub fn unsigned_total(prices: &[i128]) -> u128
    requires few { length prices.now ≤ 128 }
    requires small { All IsPrice prices.now }
    requires some { pos 0 ≤ℤ price_total prices.now }
    ensures value { pos result ≡ price_total prices.now }
    ensures small { result ≤ 2 ^ 91 }
{
    price_total(prices).unsigned_abs()
}

/// The sum over the weight, rounded up.
pub fn rounded_up(sum: u128, weight: u64) -> u128
    requires some { 1 ≤ weight }
    requires small { sum ≤ 2 ^ 91 }
    ensures rounded { IsRoundedUp (pos sum) weight result }
    ensures small { result ≤ 2 ^ 91 }
{
    sum.div_ceil(u128::from(weight))
}
