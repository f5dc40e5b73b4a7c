//! Names as texts of a table and of a picture.

ghost use Rattle.std.specs.Prelude.{◌≡◌, ◌≤◌, ◌++◌, IfOk, OnOk, length, take};
ghost use Rattle.schedule_texts.specs.Labels.{characters, clip, is_first, label_of, name_words, number_by, shortened, widest, xml_byte, xml_text};

use place_names::{Place, name_at};
use plan_schedule::{PlaceKind, Visit};
use report_lines::push_numbered;
use std::alloc::{AllocError, Global};

/// How many characters a text in UTF-8 has.
pub(crate) fn characters(text: &[u8]) -> usize
    ensures value { result ≡ characters text.now }
    ensures few { result ≤ length text.now }
{
    let mut count = 0;
    for byte in text {
        if is_first(*byte) {
            count += 1;
        }
    }
    count
}

/// Whether a byte is the first one of a character.
fn is_first(byte: u8) -> bool
    ensures { result ≡ is_first byte }
{
    byte < 128 || byte > 191
}

/// The most characters of a name, and `least` at least.
pub(crate) fn widest(least: usize, places: &[Place]) -> usize
    ensures { result ≡ widest least places.now }
{
    let mut width = least;
    for place in places {
        width = width.max(characters(place.name.as_str().as_bytes()));
    }
    width
}

/// How many bytes the first so many characters of a text take.
fn clipped(most: usize, text: &[u8]) -> usize
    ensures value { take result text.now ≡ clip most text.now }
    ensures within { result ≤ length text.now }
{
    let mut left = most;
    for (at, byte) in text.iter().enumerate() {
        if is_first(*byte) {
            if left == 0 {
                return at;
            }
            left -= 1;
        }
    }
    text.len()
}

/// A text of 24 characters at most: of a longer one 23 and an ellipsis.
pub(crate) fn shortened(alloc: Global, text: &[u8]) -> Result<Vec<u8>, AllocError>
    ensures { IfOk result (λ short. short.items ≡ shortened text.now) }
{
    let mut short = Vec::new(alloc);
    if characters(text) > 24 {
        short.extend_from_slice(&text[..clipped(23, text)])?;
        short.extend_from_slice(&[226, 128, 166])?;
    } else {
        short.extend_from_slice(text)?;
    }
    Ok(short)
}

/// Appends a text as it is written in XML.
pub(crate) fn push_xml(out: &mut Vec<u8>, text: &[u8]) -> Result<(), AllocError>
    ensures { OnOk result (out.new.items ≡ out.old.items ++ xml_text text.now) }
{
    for byte in text {
        push_xml_byte(out, *byte)?;
    }
    Ok(())
}

/// Appends a byte of such a text: the marks of elements, attributes and entities are written as
/// entities.
fn push_xml_byte(out: &mut Vec<u8>, byte: u8) -> Result<(), AllocError>
    ensures { OnOk result (out.new.items ≡ out.old.items ++ xml_byte byte) }
{
    if byte == b'&' {
        out.extend_from_slice(b"&amp;")
    } else if byte == b'<' {
        out.extend_from_slice(b"&lt;")
    } else if byte == b'>' {
        out.extend_from_slice(b"&gt;")
    } else if byte == b'\'' {
        out.extend_from_slice(b"&#39;")
    } else if byte == b'"' {
        out.extend_from_slice(b"&#34;")
    } else {
        out.extend_from_slice(&[byte])
    }
}

/// Appends what stands beside a visit: the name of its node, shortened; where there are no names
/// `depot`, or `c` or `s` and the number of the node.
pub(crate) fn push_label(
    alloc: Global,
    out: &mut Vec<u8>,
    places: &[Place],
    visit: &Visit,
) -> Result<(), AllocError>
    ensures { OnOk result (out.new.items ≡ out.old.items ++ label_of places.now visit.now) }
{
    if places.is_empty() {
        return push_number_by(alloc, out, visit.kind, visit.node);
    }
    let name = shortened(alloc, name_at(places, visit.node).as_bytes())?;
    push_xml(out, name.as_slice())
}

/// Appends `depot`, or `c` or `s` and the number of a node.
fn push_number_by(
    alloc: Global,
    out: &mut Vec<u8>,
    kind: PlaceKind,
    node: usize,
) -> Result<(), AllocError>
    ensures { OnOk result (out.new.items ≡ out.old.items ++ number_by kind node) }
{
    match kind {
        PlaceKind::Depot => out.extend_from_slice(b"depot"),
        PlaceKind::Customer => push_numbered(alloc, out, b"c", node as u128),
        PlaceKind::Station => push_numbered(alloc, out, b"s", node as u128),
    }
}

/// Appends the whole name of a node behind a comma, where there are names.
pub(crate) fn push_name_words(
    out: &mut Vec<u8>,
    places: &[Place],
    node: usize,
) -> Result<(), AllocError>
    ensures { OnOk result (out.new.items ≡ out.old.items ++ name_words places.now node) }
{
    if places.is_empty() {
        return Ok(());
    }
    out.extend_from_slice(b", ")?;
    push_xml(out, name_at(places, node).as_bytes())
}
