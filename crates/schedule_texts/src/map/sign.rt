//! The signs of vehicles at places.

ghost use Rattle.std.specs.Prelude.{◌≡◌, ◌<◌, ◌≤◌, ◌^◌, ◌++◌, IfSome, OnOk};
ghost use Rattle.schedule_texts.specs.Maps.{IsMapScale, IsSpot, charge_text, colour_at, colour_of, disc_text, ring_text, sign_by, sign_text, signs_text, told_text};

use crate::map::scale::{MapScale, Spot, spot_of};
use crate::picture::push_place;
use place_names::Place;
use plan_schedule::{PlaceKind, Visit};
use report_lines::{push_numbered, push_word};
use std::alloc::{AllocError, Global};

/// The colour of a vehicle, by its number: one of eight.
pub(crate) fn colour_of(number: usize) -> &'static [u8]
    ensures { result.now ≡ colour_of number }
{
    colour_at(number % 8)
}

/// One of eight colours.
fn colour_at(n: usize) -> &'static [u8]
    ensures { result.now ≡ colour_at n }
{
    if n == 0 {
        b"#0b5394"
    } else if n == 1 {
        b"#b45f06"
    } else if n == 2 {
        b"#38761d"
    } else if n == 3 {
        b"#990000"
    } else if n == 4 {
        b"#674ea7"
    } else if n == 5 {
        b"#134f5c"
    } else if n == 6 {
        b"#7f6000"
    } else {
        b"#a64d79"
    }
}

/// Appends the signs of the vehicle with this number at its visits.
pub(crate) fn push_signs(
    alloc: Global,
    out: &mut Vec<u8>,
    m: MapScale,
    places: &[Place],
    number: usize,
    visits: &[Visit],
) -> Result<(), AllocError>
    requires { IsMapScale m }
    ensures { OnOk result
        (out.new.items ≡ out.old.items ++ signs_text m places.now number 0 visits.now) }
{
    for (at, visit) in visits.iter().enumerate() {
        let spot = spot_of(m, places, visit.node);
        push_sign(alloc, out, places, number, at, visit, spot)?;
    }
    Ok(())
}

/// Appends the sign of a vehicle at a visit, where it stands somewhere.
fn push_sign(
    alloc: Global,
    out: &mut Vec<u8>,
    places: &[Place],
    number: usize,
    at: usize,
    visit: &Visit,
    spot: Option<Spot>,
) -> Result<(), AllocError>
    requires { IfSome spot IsSpot }
    ensures { OnOk result
        (out.new.items ≡ out.old.items ++ sign_text places.now number at visit.now spot) }
{
    let Some(Spot { x, y }) = spot else {
        return Ok(());
    };
    push_told(alloc, out, places, number, at, visit)?;
    push_sign_by(alloc, out, visit.kind, visit.charged, number, x, y)?;
    out.extend_from_slice(b"</g>\n")
}

/// Appends what a pointer at a sign is told.
fn push_told(
    alloc: Global,
    out: &mut Vec<u8>,
    places: &[Place],
    number: usize,
    at: usize,
    visit: &Visit,
) -> Result<(), AllocError>
    ensures { OnOk result
        (out.new.items ≡ out.old.items ++ told_text places.now number at visit.now) }
{
    push_numbered(alloc, out, b"<g><title>route ", number as u128)?;
    push_numbered(alloc, out, b", stop ", at as u128)?;
    push_place(alloc, out, places, visit)?;
    push_numbered(alloc, out, b", charged ", visit.charged as u128)?;
    push_word(out, b"</title>")?;
    Ok(())
}

/// Appends a sign by what a node is, and what is charged there.
fn push_sign_by(
    alloc: Global,
    out: &mut Vec<u8>,
    kind: PlaceKind,
    charged: u64,
    number: usize,
    x: u128,
    y: u128,
) -> Result<(), AllocError>
    requires { y < 2 ^ 81 }
    ensures { OnOk result
        (out.new.items ≡ out.old.items ++ sign_by kind charged number x y) }
{
    match kind {
        PlaceKind::Depot => Ok(()),
        PlaceKind::Customer => push_disc(alloc, out, number, x, y),
        PlaceKind::Station => {
            if charged > 0 {
                push_charge(alloc, out, number, x, y)
            } else {
                push_ring(alloc, out, number, x, y)
            }
        }
    }
}

/// Appends the number of a vehicle in a disc of its colour.
pub(crate) fn push_disc(
    alloc: Global,
    out: &mut Vec<u8>,
    number: usize,
    x: u128,
    y: u128,
) -> Result<(), AllocError>
    requires { y < 2 ^ 81 }
    ensures { OnOk result (out.new.items ≡ out.old.items ++ disc_text number x y) }
{
    push_word(out, b"<circle fill='")?;
    push_word(out, colour_of(number))?;
    push_numbered(alloc, out, b"' cx='", x)?;
    push_numbered(alloc, out, b"' cy='", y)?;
    push_numbered(alloc, out, b"' r='85'/><text class='q' x='", x)?;
    push_numbered(alloc, out, b"' y='", y + 38)?;
    push_numbered(alloc, out, b"'>", number as u128)?;
    push_word(out, b"</text>")?;
    Ok(())
}

/// Appends the number of a vehicle in a square, where it charges.
fn push_charge(
    alloc: Global,
    out: &mut Vec<u8>,
    number: usize,
    x: u128,
    y: u128,
) -> Result<(), AllocError>
    requires { y < 2 ^ 81 }
    ensures { OnOk result (out.new.items ≡ out.old.items ++ charge_text number x y) }
{
    push_word(out, b"<path class='s' stroke='")?;
    push_word(out, colour_of(number))?;
    push_numbered(alloc, out, b"' d='M", x)?;
    push_numbered(alloc, out, b" ", y)?;
    push_numbered(
        alloc,
        out,
        b"m-95 -95h190v190h-190z'/><text class='t' x='",
        x,
    )?;
    push_numbered(alloc, out, b"' y='", y + 38)?;
    push_numbered(alloc, out, b"'>", number as u128)?;
    push_word(out, b"</text>")?;
    Ok(())
}

/// Appends a ring, where a vehicle is at a station and doesn't charge.
fn push_ring(
    alloc: Global,
    out: &mut Vec<u8>,
    number: usize,
    x: u128,
    y: u128,
) -> Result<(), AllocError>
    ensures { OnOk result (out.new.items ≡ out.old.items ++ ring_text number x y) }
{
    push_word(out, b"<circle class='o' stroke='")?;
    push_word(out, colour_of(number))?;
    push_numbered(alloc, out, b"' cx='", x)?;
    push_numbered(alloc, out, b"' cy='", y)?;
    push_word(out, b"' r='60'/>")?;
    Ok(())
}
