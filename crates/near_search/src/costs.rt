//! Sums and products of costs, in a width in which they fit. No clause rests on this.

ghost use Rattle.std.specs.Prelude.{◌≤◌, ◌^◌, unsigned_abs};

/// A weighted lateness.
pub(crate) fn weighted(weight: u32, lateness: i64) -> i128
    ensures { unsigned_abs result ≤ 2 ^ 95 }
{
    i128::from(weight) * i128::from(lateness)
}

/// The same, less what is earned.
pub(crate) fn owing(weighted: i128, earned: i64) -> i128
    requires { unsigned_abs weighted ≤ 2 ^ 95 }
    ensures { unsigned_abs result ≤ 2 ^ 96 }
{
    weighted - i128::from(earned)
}

/// What is owed, with what the way home takes.
pub(crate) fn with_rest(owing: i128, rest: i64) -> i128
    requires { unsigned_abs owing ≤ 2 ^ 96 }
{
    owing + i128::from(rest)
}

/// What the way home takes at the most, in units, where it is of use.
pub(crate) fn bar(slack: i64, owing: i128, unit: u32) -> i128
    requires { unsigned_abs owing ≤ 2 ^ 96 }
{
    let left = i128::from(slack) - owing;
    left.div_euclid(i128::from(unit.max(1)))
}

/// The lateness behind an arc that costs so much; `None` where it doesn't fit.
pub(crate) fn later(lateness: i64, cost: u64) -> Option<i64> {
    i64::try_from(i128::from(lateness) + i128::from(cost)).ok()
}
