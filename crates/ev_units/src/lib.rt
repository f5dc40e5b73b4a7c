//! Whole-number functions: common divisors and multiples, and quotients of signed numbers rounded
//! down and up. No function takes memory.
#![tactic(auto)]

ghost use Rattle.std.specs.Prelude.{◌≡◌, ◌<◌, ◌≤◌, ◌↔◌, IfNone, IfSome};
ghost use Rattle.std.specs.Int.{IsGcd};
ghost use Rattle.ev_units.specs.Units.{IsCeiling, IsLcm, IsLcmPast};

/// The greatest common divisor of two numbers: the common divisor that each common divisor divides.
/// It is 0 for two zeros, and for nothing else. Found by Euclid's algorithm.
pub fn gcd(a: u128, b: u128) -> u128
    ensures greatest { IsGcd a b result }
    ensures zero { (result ≡ 0) ↔ ((a ≡ 0) × (b ≡ 0)) }
{
    let mut x = a;
    let mut y = b;
    while y != 0 {
        let rest = x % y;
        x = y;
        y = rest;
    }
    x
}

/// The least common multiple of two positive numbers where it is at most `limit`, and `None`
/// exactly where it is greater, also where no `u128` holds it.
pub fn lcm_below(a: u128, b: u128, limit: u128) -> Option<u128>
    requires first { 0 < a }
    requires second { 0 < b }
    ensures multiple { IfSome result (IsLcm a b) }
    ensures positive { IfSome result (λ m. 0 < m) }
    ensures within { IfSome result (λ m. m ≤ limit) }
    ensures past { IfNone result (IsLcmPast limit a b) }
{
    let part = a / gcd(a, b);
    if b <= limit / part {
        Some(part * b)
    } else {
        None
    }
}

/// The least whole number that is not below `a / b`, for a positive `b`.
pub fn ceil_div(a: i128, b: u64) -> i128
    requires { 0 < b }
    ensures { IsCeiling a b result }
{
    let floor = a.div_euclid(i128::from(b));
    if a.rem_euclid(i128::from(b)) == 0 {
        floor
    } else {
        floor + 1
    }
}
