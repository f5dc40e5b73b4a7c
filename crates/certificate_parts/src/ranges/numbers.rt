//! Whether a bound, weights and prices are in their ranges.

ghost use Rattle.std.specs.Prelude.{◌≤◌, ◌<◌, ◌^◌, ◌&&◌, None, Some, false, true, IfSome, ◌↔◌, IsTrue};
ghost use Rattle.std.specs.List.{All};
ghost use Rattle.certificate_parts.specs.Ranges.{IsWeight, IsPrice};
ghost use Rattle.certificate_parts.specs.Limits.{greatest_bound};

/// The most bytes of the text of a certificate or of a proof: 2^28.
pub const MOST_BYTES: usize = 1 << 28;

/// The greatest bound.
pub(crate) const GREATEST_BOUND: u128 = 1 << 96;

/// The greatest weight of a certificate.
pub const GREATEST_WEIGHT: u64 = 1 << 40;

/// The greatest size of a price.
pub(crate) const GREATEST_PRICE: u128 = 1 << 84;

/// Whether a bound is at most 2^96.
pub fn bound_fits(bound: Option<u128>) -> bool
    ensures { IsTrue result ↔ IfSome bound (λ b. b ≤ greatest_bound) }
{
    match bound {
        Some(number) => number <= GREATEST_BOUND,
        None => true,
    }
}

/// Whether the number is from 1 to 2^40.
pub fn is_weight(number: u64) -> bool
    ensures { IsTrue result ↔ IsWeight number }
{
    1 <= number && number <= GREATEST_WEIGHT
}

/// Whether each price is from -2^84 to 2^84.
pub fn are_prices(prices: &[i128]) -> bool
    ensures { IsTrue result ↔ All IsPrice prices.now }
{
    for price in prices {
        if !is_price(price) {
            return false;
        }
    }
    true
}

fn is_price(price: &i128) -> bool
    ensures { IsTrue result ↔ IsPrice price.now }
{
    price.unsigned_abs() <= GREATEST_PRICE
}
