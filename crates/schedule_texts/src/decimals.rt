//! Times as texts, and texts in cells.

ghost use Rattle.std.specs.Prelude.{◌≡◌, ◌≤◌, ◌<◌, ◌%◌, ◌++◌, OnOk};
ghost use Rattle.schedule_texts.specs.Decimals.{cell, decimal_text, hundredths_text, left_cell, part_of, time_text};

use crate::labels::characters;
use report_lines::{push_numbered, push_over};
use std::alloc::{AllocError, Global};

/// Appends a scaled time: as it is, over the denominator, or as a decimal.
pub(crate) fn push_time(
    alloc: Global,
    out: &mut Vec<u8>,
    exact: bool,
    denominator: u64,
    scaled: u128,
) -> Result<(), AllocError>
    requires { 1 ≤ denominator }
    ensures { OnOk result (out.new.items ≡ out.old.items ++ time_text exact denominator scaled) }
{
    if exact {
        push_over(alloc, out, scaled, denominator)
    } else {
        push_decimal(alloc, out, denominator, scaled)
    }
}

/// Appends a scaled time as a decimal.
#[tactic(auto, using(crate::proofs::Sizes::whole_fits))]
pub(crate) fn push_decimal(
    alloc: Global,
    out: &mut Vec<u8>,
    denominator: u64,
    scaled: u128,
) -> Result<(), AllocError>
    requires { 1 ≤ denominator }
    ensures { OnOk result (out.new.items ≡ out.old.items ++ decimal_text denominator scaled) }
{
    let part = part_of(denominator, scaled);
    let whole = scaled / denominator as u128 + part / 100;
    push_hundredths(alloc, out, whole, part % 100)
}

/// The hundredths that are nearest to what a scaled time is above a whole one, from 0 to 100.
fn part_of(denominator: u64, scaled: u128) -> u128
    requires { 1 ≤ denominator }
    ensures { result ≡ part_of denominator scaled }
{
    let denominator = denominator as u128;
    (scaled % denominator * 200 + denominator) / (2 * denominator)
}

/// Appends a whole number and hundredths, of which there are fewer than 100.
pub(crate) fn push_hundredths(
    alloc: Global,
    out: &mut Vec<u8>,
    whole: u128,
    part: u128,
) -> Result<(), AllocError>
    ensures { OnOk result (out.new.items ≡ out.old.items ++ hundredths_text whole part) }
{
    push_numbered(alloc, out, b"", whole)?;
    push_numbered(alloc, out, if part < 10 { b".0" } else { b"." }, part)
}

/// Appends a text at the left end of so many places, behind two spaces; nothing where there are no
/// places.
pub(crate) fn push_left_cell(
    alloc: Global,
    out: &mut Vec<u8>,
    width: usize,
    text: &[u8],
) -> Result<(), AllocError>
    ensures { OnOk result (out.new.items ≡ out.old.items ++ left_cell width text.now) }
{
    if width == 0 {
        return Ok(());
    }
    let spaces = vec![in alloc; b' '; width.saturating_sub(characters(text))]?;
    out.extend_from_slice(b"  ")?;
    out.extend_from_slice(text)?;
    out.extend_from_slice(spaces.as_slice())
}

/// Appends a text at the right end of so many places, behind two spaces.
pub(crate) fn push_cell(
    alloc: Global,
    out: &mut Vec<u8>,
    width: usize,
    text: &[u8],
) -> Result<(), AllocError>
    ensures { OnOk result (out.new.items ≡ out.old.items ++ cell width text.now) }
{
    let spaces = vec![in alloc; b' '; width.saturating_sub(text.len())]?;
    out.extend_from_slice(b"  ")?;
    out.extend_from_slice(spaces.as_slice())?;
    out.extend_from_slice(text)
}
