//! Fractions in lowest terms.

ghost use Rattle.std.specs.Prelude.{◌≡◌, ◌^◌, ◌<◌, ◌≤◌, ◌<ℤ◌, ◌++◌, OnErr, OnOk, int_div, pos, unsigned_abs};
ghost use Rattle.std.specs.Int.{IsGcd};
ghost use Rattle.ev_text.specs.Scans.{IsPrefixOf};
ghost use Rattle.report_lines.specs.Fractions.{IsLowest, IsReduced, fraction_text};

use crate::words::push_numbered;
use ev_text::push_signed;
use ev_units::gcd;
use std::alloc::{AllocError, Global};

/// The fraction `p / q`, with `q` above 0.
#[derive(Clone, Copy, Debug, Drop, PartialEq, Eq)]
pub struct Fraction {
    pub p: i128,
    pub q: u128,
}

/// The fraction of a whole number and a positive one, both divided by their greatest common
/// divisor. It takes no memory.
pub fn lowest_terms(whole: i128, part: u128) -> Fraction
    requires some { 1 ≤ part }
    requires small { part < 2 ^ 127 }
    ensures value { IsReduced whole part result.p result.q }
    ensures lowest { IsLowest result.p result.q }
{
    let divisor = common_divisor(whole.unsigned_abs(), part);
    divided(whole, part, divisor)
}

/// The fraction of a number and a positive one, both divided by their greatest common divisor.
fn divided(whole: i128, part: u128, divisor: u128) -> Fraction
    requires greatest { IsGcd (unsigned_abs whole) part divisor }
    requires some { 1 ≤ part }
    requires small { divisor < 2 ^ 127 }
    requires divisor { 1 ≤ divisor }
    ensures value { IsReduced whole part result.p result.q }
    ensures lowest { IsLowest result.p result.q }
{
    Fraction {
        p: quotient(whole, divisor as i128),
        q: part / divisor,
    }
}

/// The quotient by a number above 0, rounded toward zero.
fn quotient(whole: i128, divisor: i128) -> i128
    requires { pos 0 <ℤ divisor }
    ensures { result ≡ int_div whole divisor }
{
    whole / divisor
}

/// The greatest common divisor of a number and of a positive one, which is no greater than this.
fn common_divisor(size: u128, part: u128) -> u128
    requires { 1 ≤ part }
    ensures greatest { IsGcd size part result }
    ensures some { 1 ≤ result }
    ensures within { result ≤ part }
{
    gcd(size, part)
}

/// Appends a fraction.
pub fn push_fraction(alloc: Global, out: &mut Vec<u8>, fraction: Fraction) -> Result<(), AllocError>
    ensures ok { OnOk result
        (out.new.items ≡ out.old.items ++ fraction_text fraction.p fraction.q) }
    ensures err { OnErr result (IsPrefixOf out.old.items out.new.items) }
{
    push_signed(alloc, out, fraction.p)?;
    push_numbered(alloc, out, b"/", fraction.q)
}
