//! The bound that prices over a weight of time bear.

ghost use Rattle.std.specs.Prelude.{◌≡◌, ◌↔◌, ◌^◌, ◌≤◌, IfSome, IsTrue, length, unsigned_abs};
ghost use Rattle.std.specs.List.{All};
ghost use Rattle.bound_certificate.specs.Limits.{greatest_bound};
ghost use Rattle.bound_certificate.specs.Ranges.{IsPrice};
ghost use Rattle.certificate_check.specs.Bounds.{HasPrices, IsBoundOf};
ghost use Rattle.fleet_model.specs.Prices.{price_total};
ghost use Rattle.fleet_model.specs.Section.{Section};
ghost use Rattle.fleet_model.specs.Tree.{IsBoundedBy};

use ev_units::ceil_div;

/// Whether a bound is at most that of prices over a weight, as in any section that has them; none,
/// which is above every number, says that there is no plan.
pub fn is_bounded(weight: u64, prices: &[i128], bound: Option<u128>) -> bool
    requires few { length prices.now ≤ 128 }
    requires small { All IsPrice prices.now }
    requires bound { IfSome bound (λ b. b ≤ greatest_bound) }
    ensures { (s : Section) → HasPrices weight prices.now s → IsTrue result ↔ IsBoundedBy s bound }
{
    match (bound_of(weight, prices), bound) {
        (None, _) => true,
        (Some(_), None) => false,
        (Some(own), Some(asked)) => asked as i128 <= own,
    }
}

/// The bound of prices over a weight, as in any section that has them: their sum over the weight,
/// rounded up, where the weight is above 0; none where the weight is 0 and the sum above 0, which
/// says that there is no plan; and else 0.
pub fn bound_of(weight: u64, prices: &[i128]) -> Option<i128>
    requires few { length prices.now ≤ 128 }
    requires small { All IsPrice prices.now }
    ensures { (s : Section) → HasPrices weight prices.now s → IsBoundOf s result }
{
    let sum = price_total(prices);
    if weight > 0 {
        return Some(ceil_div(sum, weight));
    }
    if sum > 0 { None } else { Some(0) }
}

/// The sum of all prices of a section. It takes no memory.
pub fn price_total(prices: &[i128]) -> i128
    requires few { length prices.now ≤ 128 }
    requires small { All IsPrice prices.now }
    ensures value { result ≡ price_total prices.now }
    ensures small { unsigned_abs result ≤ 2 ^ 91 }
{
    let mut sum = 0;
    for c in 0..prices.len() {
        sum += prices[c];
    }
    sum
}
