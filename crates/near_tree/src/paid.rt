//! By how much earlier a label has to be that has earned less.

ghost use Rattle.std.specs.Prelude.{◌≡◌, ◌↔◌, ◌*◌, ◌^◌, ◌≤◌, ℕ, pos, ◌+ℤ◌, ◌<ℤ◌, ◌≤ℤ◌, IfNone, IfSome, IsTrue, unsigned_abs};
ghost use Rattle.fleet_model.specs.Margins.{IsMargin};

/// The least number of time units that, times the weight, make up for what is earned less; `None`
/// where none below 2^64 does.
pub(crate) fn margin(weight: u64, own: i128, theirs: i128) -> Option<u64>
    requires own { unsigned_abs own ≤ 2 ^ 98 }
    requires theirs { unsigned_abs theirs ≤ 2 ^ 98 }
    ensures some { IfSome result (IsMargin weight own theirs) }
    ensures none { IfNone result ((other : ℕ) → theirs ≤ℤ (own +ℤ pos (other * weight)) →
        2 ^ 64 ≤ other) }
{
    if theirs <= own {
        return Some(0);
    }
    if weight == 0 {
        return None;
    }
    let gap = (theirs - own).unsigned_abs();
    let margin = gap.div_ceil(u128::from(weight));
    u64::try_from(margin).ok()
}

/// Whether a time, times the weight, is less than what is earned.
pub(crate) fn earns(weight: u64, time: u64, earned: i128) -> bool
    ensures { IsTrue result ↔ (pos (weight * time) <ℤ earned) }
{
    earned > 0 && u128::from(weight) * u128::from(time) < earned.unsigned_abs()
}

/// What is earned in all.
pub(crate) fn sum_of(price: i128, gained: i128, earned: i128) -> i128
    requires price { unsigned_abs price ≤ 2 ^ 84 }
    requires gained { unsigned_abs gained ≤ 2 ^ 90 }
    requires earned { unsigned_abs earned ≤ 2 ^ 96 }
    ensures value { result ≡ (price +ℤ gained) +ℤ earned }
    ensures small { unsigned_abs result ≤ 2 ^ 98 }
{
    price + gained + earned
}
