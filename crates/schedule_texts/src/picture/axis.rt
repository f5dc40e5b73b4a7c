//! The axis of time.

ghost use Rattle.std.specs.Prelude.{◌≡◌, ◌+◌, ◌/◌, ◌<◌, ◌≤◌, ◌^◌, ◌++◌, OnOk};
ghost use Rattle.schedule_texts.specs.Axes.{axis_text, label_text, mark_open, mark_text, marks_text, step_above};
ghost use Rattle.schedule_texts.specs.Scales.{IsScale};

use crate::decimals::push_hundredths;
use crate::picture::scale::{Scale, mark_at};
use report_lines::{push_numbered, push_word};
use std::alloc::{AllocError, Global};

/// Appends the marks of the axis of time, each with its time, one a hundred pixels at most.
#[tactic(auto, using(crate::proofs::Sizes::span_small))]
pub(crate) fn push_axis(alloc: Global, out: &mut Vec<u8>, scale: Scale) -> Result<(), AllocError>
    requires { IsScale scale }
    ensures { OnOk result (out.new.items ≡ out.old.items ++ axis_text scale) }
{
    let span = scale.latest as u128 * 100 / scale.denominator as u128;
    let step = step_above(span / (scale.width as u128 / 1000));
    push_marks(alloc, out, scale, step, span)
}

/// Appends the marks at the multiples of a step up to a time in hundredths.
#[tactic(auto, using(crate::proofs::Sizes::mark_within))]
fn push_marks(
    alloc: Global,
    out: &mut Vec<u8>,
    scale: Scale,
    step: u128,
    span: u128,
) -> Result<(), AllocError>
    requires scale { IsScale scale }
    requires some { 1 ≤ step }
    requires small { span < 2 ^ 71 }
    ensures { OnOk result
        (out.new.items ≡ out.old.items ++ marks_text scale step (span / step + 1)) }
{
    for number in 0..span / step + 1 {
        push_mark(alloc, out, scale, step, number * step)?;
    }
    Ok(())
}

/// The first of 1, 2, 5, 10, 20, 50 and so on up to 10^20 that is above a number; 10^20 where none
/// is.
pub(crate) fn step_above(least: u128) -> u128
    ensures value { result ≡ step_above least }
    ensures some { 1 ≤ result }
{
    let mut power = 1;
    for _ in 0..20_u32 {
        if least < power {
            return power;
        }
        if least < 2 * power {
            return 2 * power;
        }
        if least < 5 * power {
            return 5 * power;
        }
        power *= 10;
    }
    power
}

/// Appends the mark of a time, in hundredths, with lines to it.
#[tactic(auto, using(crate::proofs::Sizes::mark_sizes))]
fn push_mark(
    alloc: Global,
    out: &mut Vec<u8>,
    scale: Scale,
    step: u128,
    hundredths: u128,
) -> Result<(), AllocError>
    requires scale { IsScale scale }
    requires small { hundredths < 2 ^ 71 }
    ensures { OnOk result (out.new.items ≡ out.old.items ++ mark_text scale step hundredths) }
{
    open_mark(alloc, out, mark_at(scale, hundredths))?;
    push_label(alloc, out, step, hundredths)?;
    push_word(out, b"</text>\n")
}

/// Appends the lines of a mark, and how the element of its label begins.
fn open_mark(alloc: Global, out: &mut Vec<u8>, x: u128) -> Result<(), AllocError>
    ensures { OnOk result (out.new.items ≡ out.old.items ++ mark_open x) }
{
    push_numbered(alloc, out, b"<path class='g' d='M", x)?;
    push_numbered(alloc, out, b" 600v1600'/><path class='a' d='M", x)?;
    push_numbered(alloc, out, b" 2200v50'/>\n<text class='c' x='", x)?;
    push_word(out, b"' y='2390'>")?;
    Ok(())
}

/// Appends a time in hundredths: whole where all marks are.
fn push_label(
    alloc: Global,
    out: &mut Vec<u8>,
    step: u128,
    hundredths: u128,
) -> Result<(), AllocError>
    ensures { OnOk result (out.new.items ≡ out.old.items ++ label_text step hundredths) }
{
    if step % 100 == 0 {
        push_numbered(alloc, out, b"", hundredths / 100)
    } else {
        push_hundredths(alloc, out, hundredths / 100, hundredths % 100)
    }
}
