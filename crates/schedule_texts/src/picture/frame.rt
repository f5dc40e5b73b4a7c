//! The lines of a panel that are no level of a vehicle.

ghost use Rattle.std.specs.Prelude.{◌≡◌, ◌<◌, ◌≤◌, ◌/◌, ◌^◌, ◌++◌, OnOk};
ghost use Rattle.schedule_texts.specs.Frames.{between_text, captions_text, frame_text, home_line, home_text, home_words_at, level_at, level_text, levels_text, limit_line, limit_text, lines_text, reserve_text, reserve_words_at, steps_text};
ghost use Rattle.schedule_texts.specs.Scales.{IsScale};

use crate::decimals::push_decimal;
use crate::picture::axis::step_above;
use crate::picture::scale::{Scale, x_at, y_at};
use report_lines::{push_numbered, push_word};
use std::alloc::{AllocError, Global};

/// The level of an empty battery at the left, and what the axes show.
const CAPTIONS: &[u8] = b"</text><text class='e' x='1100' y='2240'>0</text>\n\
<text class='e' x='1100' y='480'>units of charge</text>\n\
<text x='1200' y='2560'>time, in units of the instance</text>\n";

/// Appends the lines of levels, of a full battery, of the reserve, of the axis, of the level at
/// home and of the limit, where they are drawn, and what they are.
pub(crate) fn push_frame(alloc: Global, out: &mut Vec<u8>, scale: Scale) -> Result<(), AllocError>
    requires { IsScale scale }
    ensures { OnOk result (out.new.items ≡ out.old.items ++ frame_text scale) }
{
    push_between(alloc, out, scale)?;
    push_lines(alloc, out, scale.width, y_at(scale, scale.reserve))?;
    push_levels(alloc, out, scale.full)?;
    let right = scale.width as u128 + 1300;
    push_reserve(alloc, out, right, reserve_words_at(scale), scale.reserve)?;
    push_home(alloc, out, scale)?;
    push_limit(alloc, out, scale, scale.limit)?;
    Ok(())
}

/// Appends the levels between: multiples of 1, 2 or 5 times a power of ten.
fn push_between(alloc: Global, out: &mut Vec<u8>, scale: Scale) -> Result<(), AllocError>
    ensures { OnOk result (out.new.items ≡ out.old.items ++ between_text scale) }
{
    let step = step_above(scale.full as u128 / 5);
    push_steps(alloc, out, scale, step)
}

/// Appends the multiples of a step up to a full battery.
#[tactic(auto, using(crate::proofs::Sizes::step_within))]
fn push_steps(alloc: Global, out: &mut Vec<u8>, scale: Scale, step: u128) -> Result<(), AllocError>
    requires { 1 ≤ step }
    ensures { OnOk result
        (out.new.items ≡ out.old.items ++ steps_text scale step (scale.full / step)) }
{
    for number in 0..scale.full as u128 / step {
        push_level(alloc, out, scale, ((number + 1) * step) as u64)?;
    }
    Ok(())
}

/// Appends a level, unless it would touch that of a full battery.
fn push_level(alloc: Global, out: &mut Vec<u8>, scale: Scale, level: u64) -> Result<(), AllocError>
    ensures { OnOk result (out.new.items ≡ out.old.items ++ level_text scale level) }
{
    let y = y_at(scale, level);
    if y > 730 {
        push_level_at(alloc, out, y, scale.width, level)?;
    }
    Ok(())
}

/// Appends a level at a height, with a line of a width.
fn push_level_at(
    alloc: Global,
    out: &mut Vec<u8>,
    y: u128,
    width: u64,
    level: u64,
) -> Result<(), AllocError>
    requires { y ≤ 2200 }
    ensures { OnOk result (out.new.items ≡ out.old.items ++ level_at y width level) }
{
    push_numbered(alloc, out, b"<path class='g' d='M1200 ", y)?;
    push_numbered(alloc, out, b"h", width as u128)?;
    push_numbered(alloc, out, b"'/><text class='e' x='1100' y='", y + 40)?;
    push_numbered(alloc, out, b"'>", level as u128)?;
    push_word(out, b"</text>\n")?;
    Ok(())
}

/// Appends lines of a width, that of the reserve at a height.
fn push_lines(
    alloc: Global,
    out: &mut Vec<u8>,
    width: u64,
    reserve_at: u128,
) -> Result<(), AllocError>
    ensures { OnOk result (out.new.items ≡ out.old.items ++ lines_text width reserve_at) }
{
    push_numbered(alloc, out, b"<path class='f' d='M1200 600h", width as u128)?;
    push_numbered(alloc, out, b"'/><path class='r' d='M1200 ", reserve_at)?;
    push_numbered(alloc, out, b"h", width as u128)?;
    push_numbered(
        alloc,
        out,
        b"'/><path class='a' d='M1200 2200h",
        width as u128,
    )?;
    push_word(out, b"'/>\n")?;
    Ok(())
}

/// Appends the levels at the left, and what the axes show.
#[tactic(auto, unfolding(crate::specs::Frames::levels_text))]
fn push_levels(alloc: Global, out: &mut Vec<u8>, full: u64) -> Result<(), AllocError>
    ensures { OnOk result (out.new.items ≡ out.old.items ++ levels_text full) }
{
    push_numbered(
        alloc,
        out,
        b"<text class='e' x='1100' y='640'>full ",
        full as u128,
    )?;
    push_captions(out)
}

/// Appends what the axes show.
fn push_captions(out: &mut Vec<u8>) -> Result<(), AllocError>
    ensures { OnOk result (out.new.items ≡ out.old.items ++ captions_text) }
{
    push_word(out, CAPTIONS)
}

/// Where the words of the reserve stand: beside its line, and below the highest ones.
fn reserve_words_at(scale: Scale) -> u128
    ensures value { result ≡ reserve_words_at scale }
    ensures within { result ≤ 2240 }
{
    (y_at(scale, scale.reserve) + 40).max(770)
}

/// Appends the reserve at the right.
fn push_reserve(
    alloc: Global,
    out: &mut Vec<u8>,
    x: u128,
    y: u128,
    reserve: u64,
) -> Result<(), AllocError>
    ensures { OnOk result (out.new.items ≡ out.old.items ++ reserve_text x y reserve) }
{
    push_numbered(alloc, out, b"<text x='", x)?;
    push_numbered(alloc, out, b"' y='", y)?;
    push_numbered(alloc, out, b"'>reserve ", reserve as u128)?;
    push_word(out, b"</text>\n")?;
    Ok(())
}

/// Where the words of the level at home stand: beside its line, and above those of the reserve.
fn home_words_at(scale: Scale) -> u128
    ensures { result ≡ home_words_at scale }
{
    let beside = y_at(scale, scale.home) + 40;
    beside.min(reserve_words_at(scale).saturating_sub(130))
}

/// Appends the level at home, where it is above the reserve.
fn push_home(alloc: Global, out: &mut Vec<u8>, scale: Scale) -> Result<(), AllocError>
    ensures { OnOk result (out.new.items ≡ out.old.items ++ home_text scale) }
{
    if scale.reserve >= scale.home {
        return Ok(());
    }
    let y = y_at(scale, scale.home);
    push_home_line(alloc, out, y, scale.width, home_words_at(scale), scale.home)
}

/// Appends a line of a width at a height, and words beside it at another height.
fn push_home_line(
    alloc: Global,
    out: &mut Vec<u8>,
    y: u128,
    width: u64,
    words_at: u128,
    home: u64,
) -> Result<(), AllocError>
    ensures { OnOk result (out.new.items ≡ out.old.items ++ home_line y width words_at home) }
{
    push_numbered(alloc, out, b"<path class='o' d='M1200 ", y)?;
    push_numbered(alloc, out, b"h", width as u128)?;
    push_numbered(alloc, out, b"'/><text x='", width as u128 + 1300)?;
    push_numbered(alloc, out, b"' y='", words_at)?;
    push_numbered(alloc, out, b"'>home ", home as u128)?;
    push_word(out, b"</text>\n")?;
    Ok(())
}

/// Appends the limit, where it is drawn.
fn push_limit(
    alloc: Global,
    out: &mut Vec<u8>,
    scale: Scale,
    limit: Option<u64>,
) -> Result<(), AllocError>
    requires { IsScale scale }
    ensures { OnOk result (out.new.items ≡ out.old.items ++ limit_text scale limit) }
{
    let Some(limit) = limit else {
        return Ok(());
    };
    let x = x_at(scale, limit as u128);
    push_limit_line(alloc, out, x, scale.denominator, limit)
}

/// Appends a line at a time, and words below it.
fn push_limit_line(
    alloc: Global,
    out: &mut Vec<u8>,
    x: u128,
    denominator: u64,
    limit: u64,
) -> Result<(), AllocError>
    requires some { 1 ≤ denominator }
    requires small { x < 2 ^ 120 }
    ensures { OnOk result (out.new.items ≡ out.old.items ++ limit_line x denominator limit) }
{
    push_numbered(alloc, out, b"<path class='i' d='M", x)?;
    push_numbered(alloc, out, b" 600V2200'/><text class='e' x='", x + 60)?;
    push_word(out, b"' y='2560'>limit ")?;
    push_decimal(alloc, out, denominator, limit as u128)?;
    push_word(out, b"</text>\n")?;
    Ok(())
}
