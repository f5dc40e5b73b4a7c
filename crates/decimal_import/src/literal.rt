//! Number literals: JSON's grammar.
ghost use Rattle.std.specs.Prelude.{◌≡◌, Some, None, IfSome, IfNone};
ghost use Rattle.decimal_import.specs.Literal.{literal_in_front, minus_in_front, whole_in_front, fraction_in_front, exponent_in_front, sign_in_front};
ghost use Rattle.decimal_import.specs.View.{literal_of, exponent_of};

use crate::digits::split_digits;

/// A number literal: its digits before and behind the point, and its exponent.
#[derive(Clone, Copy)]
pub(crate) struct Literal<'a> {
    pub(crate) is_negative: bool,
    pub(crate) whole: &'a [u8],
    pub(crate) fraction: &'a [u8],
    pub(crate) exponent: Option<Exponent<'a>>,
}

/// The exponent of a literal: its letter, its sign, and its digits.
#[derive(Clone, Copy)]
pub(crate) struct Exponent<'a> {
    pub(crate) letter: u8,
    pub(crate) sign: Option<u8>,
    pub(crate) digits: &'a [u8],
}

/// The longest number literal in front, and what follows it.
pub(crate) fn split_literal(bytes: &[u8]) -> Option<(Literal<'_>, &[u8])>
    ensures some { IfSome result (λ p. literal_in_front bytes.now
        ≡ Some (literal_of p.0, p.1.now)) }
    ensures none { IfNone result (literal_in_front bytes.now ≡ None) }
{
    let (is_negative, unsigned) = split_minus(bytes);
    let (whole, after_whole) = split_whole(unsigned);
    if whole.is_empty() {
        return None;
    }
    let (fraction, after_fraction) = split_fraction(after_whole);
    let (exponent, rest) = split_exponent(after_fraction);
    let literal = Literal {
        is_negative,
        whole,
        fraction,
        exponent,
    };
    Some((literal, rest))
}

/// Whether a minus stands in front, and what follows it.
fn split_minus(bytes: &[u8]) -> (bool, &[u8])
    ensures { (result.0, result.1.now) ≡ minus_in_front bytes.now }
{
    match bytes {
        [b'-', rest @ ..] => (true, rest),
        _ => (false, bytes),
    }
}

/// The digits before the point: a zero alone, or a run of digits.
fn split_whole(bytes: &[u8]) -> (&[u8], &[u8])
    ensures { (result.0.now, result.1.now) ≡ whole_in_front bytes.now }
{
    match bytes {
        [b'0', ..] => bytes.split_at(1),
        _ => split_digits(bytes),
    }
}

/// The digits behind a point.
fn split_fraction(bytes: &[u8]) -> (&[u8], &[u8])
    ensures { (result.0.now, result.1.now) ≡ fraction_in_front bytes.now }
{
    if let [b'.', behind_point @ ..] = bytes {
        let (digits, rest) = split_digits(behind_point);
        if !digits.is_empty() {
            return (digits, rest);
        }
    }
    bytes.split_at(0)
}

/// The sign of an exponent.
fn split_sign(bytes: &[u8]) -> (Option<u8>, &[u8])
    ensures { (result.0, result.1.now) ≡ sign_in_front bytes.now }
{
    match bytes {
        [sign @ (b'+' | b'-'), rest @ ..] => (Some(*sign), rest),
        _ => (None, bytes),
    }
}

/// The exponent.
fn split_exponent(bytes: &[u8]) -> (Option<Exponent<'_>>, &[u8])
    ensures { (exponent_of result.0, result.1.now) ≡ exponent_in_front bytes.now }
{
    if let [letter @ (b'e' | b'E'), behind_letter @ ..] = bytes {
        let (sign, behind_sign) = split_sign(behind_letter);
        let (digits, rest) = split_digits(behind_sign);
        if !digits.is_empty() {
            let exponent = Exponent {
                letter: *letter,
                sign,
                digits,
            };
            return (Some(exponent), rest);
        }
    }
    (None, bytes)
}
