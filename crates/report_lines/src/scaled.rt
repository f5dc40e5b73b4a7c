//! Scaled numbers over the denominator of an instance, which are never reduced.

ghost use Rattle.std.specs.Prelude.{◌≡◌, ◌++◌, OnErr, OnOk};
ghost use Rattle.ev_text.specs.Scans.{IsPrefixOf};
ghost use Rattle.report_lines.specs.Lines.{IsBoundOf, bounds_text, gap_of, over, scaled_line, scaled_text, time_line, time_text};

use crate::words::{push_infeasible, push_numbered, push_word};
use ev_text::push_whole;
use std::alloc::{AllocError, Global};

/// Appends a cost, a bound, and how far this is below the cost, a line each.
pub fn push_bounds(
    alloc: Global,
    out: &mut Vec<u8>,
    cost: Option<u128>,
    bound: Option<u128>,
    denominator: u64,
) -> Result<(), AllocError>
    requires { IsBoundOf cost bound }
    ensures ok { OnOk result (out.new.items ≡ out.old.items ++ bounds_text denominator cost bound) }
    ensures err { OnErr result (IsPrefixOf out.old.items out.new.items) }
{
    push_scaled_line(alloc, out, b"cost ", cost, denominator)?;
    push_scaled_line(alloc, out, b"bound ", bound, denominator)?;
    push_scaled_line(alloc, out, b"gap ", gap(cost, bound), denominator)
}

/// How far the bound is below the cost, where both stand.
fn gap(cost: Option<u128>, bound: Option<u128>) -> Option<u128>
    requires { IsBoundOf cost bound }
    ensures { result ≡ gap_of cost bound }
{
    match (cost, bound) {
        (Some(cost), Some(bound)) => Some(cost - bound),
        _ => None,
    }
}

/// Appends a line of a word and a scaled number over the denominator, or `none`.
pub fn push_scaled_line(
    alloc: Global,
    out: &mut Vec<u8>,
    word: &[u8],
    scaled: Option<u128>,
    denominator: u64,
) -> Result<(), AllocError>
    ensures ok { OnOk result
        (out.new.items ≡ out.old.items ++ scaled_line word.now denominator scaled) }
    ensures err { OnErr result (IsPrefixOf out.old.items out.new.items) }
{
    out.extend_from_slice(word)?;
    push_scaled(alloc, out, scaled, denominator)?;
    out.extend_from_slice(b"\n")
}

/// Appends a scaled number over the denominator, or `none`.
pub fn push_scaled(
    alloc: Global,
    out: &mut Vec<u8>,
    scaled: Option<u128>,
    denominator: u64,
) -> Result<(), AllocError>
    ensures ok { OnOk result (out.new.items ≡ out.old.items ++ scaled_text denominator scaled) }
    ensures err { OnErr result (IsPrefixOf out.old.items out.new.items) }
{
    match scaled {
        Some(scaled) => push_over(alloc, out, scaled, denominator),
        None => push_word(out, b"none"),
    }
}

/// Appends a number of scaled units over the denominator.
pub fn push_over(
    alloc: Global,
    out: &mut Vec<u8>,
    scaled: u128,
    denominator: u64,
) -> Result<(), AllocError>
    ensures ok { OnOk result (out.new.items ≡ out.old.items ++ over denominator scaled) }
    ensures err { OnErr result (IsPrefixOf out.old.items out.new.items) }
{
    push_whole(alloc, out, scaled)?;
    push_numbered(alloc, out, b"/", denominator as u128)
}

/// Appends the line of a scaled time. After an `Err` `out` is as before.
pub fn push_time(
    alloc: Global,
    out: &mut Vec<u8>,
    time: u64,
    denominator: u64,
) -> Result<(), AllocError>
    ensures ok { OnOk result (out.new.items ≡ out.old.items ++ time_text denominator time) }
    ensures err { OnErr result (out.new.items ≡ out.old.items) }
{
    let line = format!(in alloc; "time {time}/{denominator}\n")?;
    out.extend_from_slice(line.as_bytes())
}

/// Appends the line of a scaled time, or `infeasible` where there is none.
pub fn push_time_line(
    alloc: Global,
    out: &mut Vec<u8>,
    time: Option<u64>,
    denominator: u64,
) -> Result<(), AllocError>
    ensures ok { OnOk result (out.new.items ≡ out.old.items ++ time_line denominator time) }
    ensures err { OnErr result (IsPrefixOf out.old.items out.new.items) }
{
    match time {
        Some(time) => push_time(alloc, out, time, denominator),
        None => push_infeasible(out),
    }
}
