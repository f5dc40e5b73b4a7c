//! The price sum of a set, and by how much earlier a label has to be that has paid less.

ghost use Rattle.std.specs.Prelude.{◌≡◌, ◌↔◌, ◌*◌, ◌+◌, ◌^◌, ◌<◌, ◌≤◌, ℕ, ℤ, pos, ◌+ℤ◌, ◌-ℤ◌, ◌<ℤ◌, ◌≤ℤ◌, All, IfNone, IfSome, IsTrue, cond, length, unsigned_abs};
ghost use Rattle.customer_sets.specs.CustSet.{has};
ghost use Rattle.fleet_model.specs.Margins.{IsMargin};
ghost use Rattle.fleet_model.specs.Prices.{price_sum};

use customer_sets::CustSet;

/// The price sum of a set. A customer without a price counts 0.
pub fn price_sum(prices: &[i128], set: CustSet) -> i128
    requires few { length prices.now ≤ 128 }
    requires small { All (λ price. unsigned_abs price ≤ 2 ^ 84) prices.now }
    ensures value { result ≡ price_sum prices.now set }
    ensures small { unsigned_abs result ≤ 2 ^ 91 }
{
    if set.len() == 0 {
        return 0;
    }
    let mut sum = 0;
    for c in 0..prices.len() {
        if set.has(c) {
            sum += prices[c];
        }
    }
    sum
}

/// The least number of time units that, times the weight, make up for what is paid less; `None`
/// where none below 2^64 does.
pub fn margin(weight: u64, own: i128, theirs: i128) -> Option<u64>
    requires own { unsigned_abs own ≤ 2 ^ 92 }
    requires theirs { unsigned_abs theirs ≤ 2 ^ 92 }
    ensures some { IfSome result (IsMargin weight own theirs) }
    ensures none { IfNone result ((other : ℕ) → theirs ≤ℤ (own +ℤ pos (other * weight)) →
        2 ^ 64 ≤ other) }
{
    if theirs <= own {
        return Some(0);
    }
    if weight == 0 {
        return None;
    }
    let gap = (theirs - own).unsigned_abs();
    let margin = gap.div_ceil(u128::from(weight));
    u64::try_from(margin).ok()
}

/// Whether a time, times the weight, is less than what is paid.
pub(crate) fn earns(weight: u64, time: u64, paid: i128) -> bool
    ensures { IsTrue result ↔ (pos (weight * time) <ℤ paid) }
{
    paid > 0 && u128::from(weight) * u128::from(time) < paid.unsigned_abs()
}

/// Whether so many time units, times the weight, do not make up for what is paid less.
pub(crate) fn is_too_dear(weight: u64, units: u64, own: i128, theirs: i128) -> bool
    requires own { unsigned_abs own ≤ 2 ^ 92 }
    requires theirs { unsigned_abs theirs ≤ 2 ^ 92 }
    ensures { IsTrue result ↔ (pos (weight * units) <ℤ (theirs -ℤ own)) }
{
    earns(weight, units, theirs - own)
}
