//! Products past 128 bits.

ghost use Rattle.std.specs.Prelude.{◌≡◌, ◌↔◌, ◌+◌, ◌*◌, ◌^◌, ◌<◌, ◌≤◌, IsTrue};

/// Two to the power of 64.
const WORD: u128 = 1 << 64;

/// Whether two products are the same, which may be past 128 bits.
pub(crate) fn is_same_product(one: (u128, u64), other: (u128, u64)) -> bool
    requires one { one.0 < 2 ^ 110 }
    requires other { other.0 < 2 ^ 110 }
    ensures { IsTrue result ↔ (one.0 * one.1 ≡ other.0 * other.1) }
{
    product(one.0, one.1) == product(other.0, other.1)
}

/// The product of two numbers: how many times 2^64 it is, rounded down, and the rest.
fn product(a: u128, b: u64) -> (u128, u128)
    requires { a < 2 ^ 110 }
    ensures value { result.0 * 2 ^ 64 + result.1 ≡ a * b }
    ensures rest { result.1 < 2 ^ 64 }
{
    let low = a % WORD * b as u128;
    let high = a / WORD * b as u128 + low / WORD;
    (high, low % WORD)
}
