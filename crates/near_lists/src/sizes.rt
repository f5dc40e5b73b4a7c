//! Which numbers fit, and sums of them. No clause rests on this.

ghost use Rattle.std.specs.Prelude.{◌≤◌, ◌^◌, unsigned_abs};

/// No step earns or loses more.
const MOST_GAIN: u128 = 1 << 60;

/// No label has earned or lost more.
const MOST_EARNED: u64 = 1 << 61;

/// No label may earn more by so much at once.
pub(crate) const MOST_ROOM: i64 = 1 << 60;

/// Whether a step earns or loses little enough.
pub(crate) fn is_small_gain(gain: i128) -> bool {
    gain.unsigned_abs() <= MOST_GAIN
}

/// Whether a label has earned or lost little enough.
pub(crate) fn is_small(earned: i64) -> bool {
    earned.unsigned_abs() <= MOST_EARNED
}

/// Whether prices and all sums of some of them are small enough.
pub(crate) fn are_small(prices: &[i64]) -> bool {
    let mut sum: u64 = 0;
    for price in prices {
        sum = sum.saturating_add(price.unsigned_abs());
    }
    u128::from(sum) <= MOST_GAIN
}

/// A weighted time.
pub(crate) fn weighted(weight: u32, time: i64) -> i128
    ensures { unsigned_abs result ≤ 2 ^ 95 }
{
    i128::from(weight) * i128::from(time)
}

/// The weighted cost of an arc.
pub(crate) fn paid_for(weight: u32, cost: u64) -> i128 {
    i128::from(weight) * i128::from(cost)
}

/// A weighted time less what is earned.
pub(crate) fn owing(weighted: i128, earned: i64) -> i128
    requires { unsigned_abs weighted ≤ 2 ^ 95 }
    ensures { unsigned_abs result ≤ 2 ^ 96 }
{
    weighted - i128::from(earned)
}

/// The sum of what is owed and what the way home takes.
pub(crate) fn with_rest(owing: i128, rest: i64) -> i128
    requires { unsigned_abs owing ≤ 2 ^ 96 }
    ensures { unsigned_abs result ≤ 2 ^ 97 }
{
    owing + i128::from(rest)
}

/// The sum of both, the nearest number where it doesn't fit.
pub(crate) fn sum(one: i128, other: i128) -> i128 {
    one.saturating_add(other)
}

/// A number of which no more than the most room is of use.
pub(crate) fn room_in(number: i128) -> i64 {
    i64::try_from(number.clamp(-1, i128::from(MOST_ROOM))).unwrap_or(-1)
}
