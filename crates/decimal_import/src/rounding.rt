//! Literals as whole numbers of a unit, rounded up.
ghost use Rattle.std.specs.Prelude.{◌≡◌, ◌+◌, ◌-◌, ◌*◌, ◌^◌, ◌<◌, ◌≤◌, ◌++◌, ◌↔◌, Ok, Err, IfOk, IfErr, IfSome, IfNone, IsTrue, length, take, drop, min, true};
ghost use Rattle.std.specs.List.{list_all};
ghost use Rattle.decimal_import.specs.Digits.{number_of, number_after, is_digit};
ghost use Rattle.decimal_import.specs.Rounding.{coefficient, is_minus, least_whole, whole_number, whole_part, rounded_at, capped_point};
ghost use Rattle.decimal_import.specs.View.{literal_of};

use crate::fault::ImportFault;
use crate::literal::{Exponent, Literal};

/// The greatest number that is written.
const MAX_NUMBER: u64 = 1_000_000_000_000_000_000;

/// An exponent of this size or more outweighs every count of digits that a text can have.
const MAX_EXPONENT: u128 = 1 << 70;

impl<'a> Literal<'a> {
    /// The whole number that stands for this literal, at this place, in units of which `10^digits`
    /// are one.
    pub(crate) fn whole_number(&self, digits: u32, at: usize) -> Result<u64, ImportFault>
        requires whole { list_all is_digit self.now.whole.now ≡ true }
        requires fraction { list_all is_digit self.now.fraction.now ≡ true }
        ensures ok { IfOk result (λ n. whole_number digits at (literal_of self.now) ≡ Ok n) }
        ensures err { IfErr result (λ e. whole_number digits at (literal_of self.now) ≡ Err e) }
    {
        if self.is_zero() {
            return Ok(0);
        }
        if self.is_negative {
            return Err(ImportFault::Negative { at });
        }
        match self.rounded_up(digits) {
            Some(number) => Ok(number),
            None => Err(ImportFault::TooLarge { at }),
        }
    }

    /// Whether all digits before the exponent are 0.
    fn is_zero(&self) -> bool
        ensures { IsTrue result ↔ (coefficient (literal_of self.now) ≡ 0) }
    {
        are_zeros(self.whole) && are_zeros(self.fraction)
    }

    /// The least whole number that isn't below this literal times `10^digits`, unless it is past
    /// the limit.
    fn rounded_up(&self, digits: u32) -> Option<u64>
        requires whole { list_all is_digit self.now.whole.now ≡ true }
        requires fraction { list_all is_digit self.now.fraction.now ≡ true }
        requires some { 0 < coefficient (literal_of self.now) }
        ensures some { IfSome result (λ n. (n ≡ least_whole digits (literal_of self.now)) × (n
            ≤ 10 ^ 18)) }
        ensures none { IfNone result (10 ^ 18 < least_whole digits (literal_of self.now)) }
    {
        round_at(self.point(digits), self.whole, self.fraction)
    }

    /// How many of the digits stand before the point of this literal times `10^digits`.
    fn point(&self, digits: u32) -> u128
        ensures { result ≡ capped_point MAX_EXPONENT digits (literal_of self.now) }
    {
        let places = self.whole.len() as u128 + u128::from(digits);
        match self.exponent {
            None => places,
            Some(exponent) => {
                if exponent.sign == Some(b'-') {
                    places.saturating_sub(capped_number(exponent.digits))
                } else {
                    places + capped_number(exponent.digits)
                }
            }
        }
    }
}

/// The number that digits write, cut to `MAX_EXPONENT`.
fn capped_number(digits: &[u8]) -> u128
    ensures { result ≡ min (number_of digits.now) MAX_EXPONENT }
{
    let mut number = 0;
    for digit in digits {
        number = (number * 10 + u128::from(digit.saturating_sub(b'0'))).min(MAX_EXPONENT);
    }
    number
}

/// The digits before and behind the point of a literal, with the point behind the first `point` of
/// them, rounded up. `None` where the number is past the limit.
fn round_at(point: u128, whole: &[u8], fraction: &[u8]) -> Option<u64>
    ensures some { IfSome result (λ n. (n ≡ rounded_at point (whole.now ++ fraction.now)) × (n
        ≤ 10 ^ 18)) }
    ensures none { IfNone result (10 ^ 18 < rounded_at point (whole.now ++ fraction.now)) }
    // No slice is longer, so that no exponent of `MAX_EXPONENT` is outweighed.
    ensures short { length whole.now + length fraction.now < 2 ^ 65 }
{
    let Some(number) = whole_part(point, whole, fraction) else {
        return None;
    };
    let rounded = if is_whole(point, whole, fraction) {
        number
    } else {
        number + 1
    };
    if rounded > MAX_NUMBER {
        None
    } else {
        Some(rounded)
    }
}

/// The number before the point. `None` where it is past the limit.
fn whole_part(point: u128, whole: &[u8], fraction: &[u8]) -> Option<u64>
    ensures some { IfSome result (λ n. (n ≡ whole_part point (whole.now ++ fraction.now)) × (n
        ≤ 10 ^ 18)) }
    ensures none { IfNone result (10 ^ 18 < whole_part point (whole.now ++ fraction.now)) }
    ensures short { length whole.now + length fraction.now < 2 ^ 65 }
{
    let left = point.saturating_sub(whole.len() as u128);
    let zeros = left.saturating_sub(fraction.len() as u128);
    let Some(number) = append_digits(0, split_at_most(whole, point).0) else {
        return None;
    };
    let Some(number) = append_digits(number, split_at_most(fraction, left).0) else {
        return None;
    };
    append_zeros(number, zeros)
}

/// Whether nothing but zeros stands behind the point.
fn is_whole(point: u128, whole: &[u8], fraction: &[u8]) -> bool
    ensures { IsTrue result ↔ (number_of (drop point (whole.now ++ fraction.now)) ≡ 0) }
{
    let left = point.saturating_sub(whole.len() as u128);
    are_zeros(split_at_most(whole, point).1) && are_zeros(split_at_most(fraction, left).1)
}

/// The first digits, `most` or all of them, and the others.
fn split_at_most(digits: &[u8], most: u128) -> (&[u8], &[u8])
    ensures first { result.0.now ≡ take most digits.now }
    ensures others { result.1.now ≡ drop most digits.now }
{
    if most < digits.len() as u128 {
        digits.split_at(most as usize)
    } else {
        digits.split_at(digits.len())
    }
}

/// The number with these digits behind it. `None` where it is past the limit.
fn append_digits(start: u64, digits: &[u8]) -> Option<u64>
    requires { start ≤ 10 ^ 18 }
    ensures some { IfSome result (λ n. (n ≡ number_after start digits.now) × (n ≤ 10 ^ 18)) }
    ensures none { IfNone result (10 ^ 18 < number_after start digits.now) }
{
    let mut number = start;
    for digit in digits {
        number = number * 10 + u64::from(digit.saturating_sub(b'0'));
        if number > MAX_NUMBER {
            return None;
        }
    }
    Some(number)
}

/// The number with this many zeros behind it. `None` where it is past the limit. A number above 0
/// is past it after a few zeros.
fn append_zeros(start: u64, count: u128) -> Option<u64>
    requires { start ≤ 10 ^ 18 }
    ensures some { IfSome result (λ n. (n ≡ start * 10 ^ count) × (n ≤ 10 ^ 18)) }
    ensures none { IfNone result (10 ^ 18 < start * 10 ^ count) }
{
    let mut number = start;
    for _ in 0..count {
        number *= 10;
        if number > MAX_NUMBER {
            return None;
        }
    }
    Some(number)
}

/// Whether the digits write the number 0.
#[tactic(auto, using(crate::proofs::Numbers::number_of_noughts))]
fn are_zeros(digits: &[u8]) -> bool
    ensures { IsTrue result ↔ (number_of digits.now ≡ 0) }
{
    for digit in digits {
        if *digit > b'0' {
            return false;
        }
    }
    true
}
