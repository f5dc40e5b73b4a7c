//! The line that a level follows.

ghost use Rattle.std.specs.Prelude.{◌≡◌, ◌++◌, OnOk};
ghost use Rattle.ev_text.specs.Texts.{joined_texts};
ghost use Rattle.schedule_texts.specs.LevelLines.{bends_text, line_text, point_text, ring_at, ring_text};
ghost use Rattle.schedule_texts.specs.Scales.{IsScale};

use crate::picture::scale::{Scale, x_at, y_at};
use plan_schedule::Corner;
use report_lines::{push_numbered, push_word};
use std::alloc::{AllocError, Global};

/// Appends the line through the corners.
pub(crate) fn push_line(
    alloc: Global,
    out: &mut Vec<u8>,
    scale: Scale,
    line: &[Corner],
) -> Result<(), AllocError>
    requires { IsScale scale }
    ensures { OnOk result (out.new.items ≡ out.old.items ++ line_text scale line.now) }
{
    push_word(out, b"<polyline class='l' points='")?;
    push_points(alloc, out, scale, line)?;
    push_word(out, b"'/>\n")?;
    Ok(())
}

/// Appends the points of the corners.
fn push_points(
    alloc: Global,
    out: &mut Vec<u8>,
    scale: Scale,
    line: &[Corner],
) -> Result<(), AllocError>
    requires { IsScale scale }
    ensures { OnOk result
        (out.new.items ≡ out.old.items ++ joined_texts (point_text scale) line.now) }
{
    for corner in line {
        push_point(alloc, out, scale, corner)?;
    }
    Ok(())
}

/// Appends the point of a corner.
fn push_point(
    alloc: Global,
    out: &mut Vec<u8>,
    scale: Scale,
    corner: &Corner,
) -> Result<(), AllocError>
    requires { IsScale scale }
    ensures { OnOk result (out.new.items ≡ out.old.items ++ point_text scale corner.now) }
{
    let x = x_at(scale, corner.time as u128);
    let y = y_at(scale, corner.level);
    let point = format!(in alloc; "{x},{y} ")?;
    out.extend_from_slice(point.as_bytes())
}

/// Appends a small ring at each corner that is a breakpoint of a curve.
pub(crate) fn push_bends(
    alloc: Global,
    out: &mut Vec<u8>,
    scale: Scale,
    line: &[Corner],
) -> Result<(), AllocError>
    requires { IsScale scale }
    ensures { OnOk result (out.new.items ≡ out.old.items ++ bends_text scale line.now) }
{
    for corner in line {
        if corner.bend {
            push_ring(alloc, out, scale, corner)?;
        }
    }
    Ok(())
}

/// Appends a small ring at a corner.
fn push_ring(
    alloc: Global,
    out: &mut Vec<u8>,
    scale: Scale,
    corner: &Corner,
) -> Result<(), AllocError>
    requires { IsScale scale }
    ensures { OnOk result (out.new.items ≡ out.old.items ++ ring_text scale corner.now) }
{
    let x = x_at(scale, corner.time as u128);
    let y = y_at(scale, corner.level);
    push_ring_at(alloc, out, x, y)
}

/// Appends a small ring at a point.
fn push_ring_at(alloc: Global, out: &mut Vec<u8>, x: u128, y: u128) -> Result<(), AllocError>
    ensures { OnOk result (out.new.items ≡ out.old.items ++ ring_at x y) }
{
    push_numbered(alloc, out, b"<circle class='b' cx='", x)?;
    push_numbered(alloc, out, b"' cy='", y)?;
    push_word(out, b"' r='26'/>\n")?;
    Ok(())
}
