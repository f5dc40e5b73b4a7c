//! The places of a map, and their names.

ghost use Rattle.std.specs.Prelude.{◌≡◌, ◌<◌, ◌^◌, ◌++◌, IfSome, OnOk};
ghost use Rattle.ev_text.specs.Texts.{joined_texts};
ghost use Rattle.schedule_texts.specs.Labels.{shortened, xml_text};
ghost use Rattle.schedule_texts.specs.Maps.{IsMapScale, depot_at, depot_mark, name_at_spot, named_spot, place_mark};

use crate::labels::{push_xml, shortened};
use crate::map::scale::{MapScale, Spot, spot_by};
use place_names::Place;
use report_lines::{push_numbered, push_word};
use std::alloc::{AllocError, Global};

/// Appends places and their names.
pub(crate) fn push_places(
    alloc: Global,
    out: &mut Vec<u8>,
    m: MapScale,
    places: &[Place],
) -> Result<(), AllocError>
    requires { IsMapScale m }
    ensures { OnOk result
        (out.new.items ≡ out.old.items ++ joined_texts (place_mark m) places.now) }
{
    for place in places {
        push_place_mark(alloc, out, m, place)?;
    }
    Ok(())
}

/// Appends a place and its name, where it stands somewhere.
fn push_place_mark(
    alloc: Global,
    out: &mut Vec<u8>,
    m: MapScale,
    place: &Place,
) -> Result<(), AllocError>
    requires { IsMapScale m }
    ensures { OnOk result (out.new.items ≡ out.old.items ++ place_mark m place.now) }
{
    let Some(Spot { x, y }) = spot_by(m, place.point) else {
        return Ok(());
    };
    let name = shortened(alloc, place.name.as_str().as_bytes())?;
    push_named_spot(alloc, out, name.as_slice(), x, y)
}

/// Appends a place and its name.
fn push_named_spot(
    alloc: Global,
    out: &mut Vec<u8>,
    name: &[u8],
    x: u128,
    y: u128,
) -> Result<(), AllocError>
    requires { x < 2 ^ 81 }
    ensures { OnOk result
        (out.new.items ≡ out.old.items ++ named_spot (xml_text name.now) x y) }
{
    push_numbered(alloc, out, b"<circle class='u' cx='", x)?;
    push_numbered(alloc, out, b"' cy='", y)?;
    push_numbered(alloc, out, b"' r='35'/><text class='m' x='", x + 130)?;
    push_numbered(alloc, out, b"' y='", y.saturating_sub(60))?;
    push_word(out, b"'>")?;
    push_xml(out, name)?;
    push_word(out, b"</text>\n")?;
    Ok(())
}

/// Appends the depot, where it stands somewhere.
pub(crate) fn push_depot(
    alloc: Global,
    out: &mut Vec<u8>,
    spot: Option<Spot>,
) -> Result<(), AllocError>
    ensures { OnOk result (out.new.items ≡ out.old.items ++ depot_mark spot) }
{
    let Some(Spot { x, y }) = spot else {
        return Ok(());
    };
    push_depot_at(alloc, out, x, y)
}

/// Appends the depot at a point.
fn push_depot_at(alloc: Global, out: &mut Vec<u8>, x: u128, y: u128) -> Result<(), AllocError>
    ensures { OnOk result (out.new.items ≡ out.old.items ++ depot_at x y) }
{
    push_numbered(alloc, out, b"<path class='d' d='M", x)?;
    push_numbered(alloc, out, b" ", y)?;
    push_word(out, b"m0 -110l110 110l-110 110l-110 -110z'/>\n")?;
    Ok(())
}
