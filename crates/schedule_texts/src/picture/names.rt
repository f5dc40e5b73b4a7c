//! The names of stops, slanted above a panel.

ghost use Rattle.std.specs.Prelude.{◌≡◌, ◌+◌, ◌-◌, ◌≤◌, ◌++◌, IfOk, OnOk, max};
ghost use Rattle.schedule_texts.specs.Names.{IsRoom, customers_in, is_customer, last_place, left_for, left_out, mark_text, name_if, name_place, name_text, names_text, names_within, room_behind, room_for, room_of, spent};
ghost use Rattle.schedule_texts.specs.Scales.{IsScale};

use crate::labels::push_label;
use crate::picture::scale::{Scale, x_at, y_at};
use place_names::Place;
use plan_schedule::{PlaceKind, Visit};
use report_lines::{push_numbered, push_word};
use std::alloc::{AllocError, Global};

/// What room there is for names.
#[derive(Clone, Copy)]
pub(crate) struct Room {
    /// From where on there is room.
    free: u128,
    /// How many names of stations and of the depot still come.
    others: u64,
    /// How many of customers.
    customers: u64,
}

/// Appends the names of the visits, from left to right; those for which there is no room are left
/// out.
pub(crate) fn push_names(
    alloc: Global,
    out: &mut Vec<u8>,
    scale: Scale,
    places: &[Place],
    visits: &[Visit],
) -> Result<(), AllocError>
    requires { IsScale scale }
    ensures { OnOk result (out.new.items
        ≡ out.old.items ++ names_text scale places.now (room_of scale visits.now) visits.now) }
{
    push_names_in(alloc, out, scale, places, room_of(scale, visits), visits)
}

/// Appends the names for which there is room.
fn push_names_in(
    alloc: Global,
    out: &mut Vec<u8>,
    scale: Scale,
    places: &[Place],
    room: Room,
    visits: &[Visit],
) -> Result<(), AllocError>
    requires scale { IsScale scale }
    requires room { IsRoom room }
    ensures { OnOk result (out.new.items
        ≡ out.old.items ++ names_text scale places.now room visits.now) }
{
    let mut left = room;
    for visit in visits {
        left = push_name(alloc, out, scale, places, left, visit)?;
    }
    Ok(())
}

/// How many names are left out.
pub(crate) fn left_out(scale: Scale, visits: &[Visit]) -> u64
    requires { IsScale scale }
    ensures { result ≡ left_out scale visits.now }
{
    let room = room_of(scale, visits);
    (visits.len() as u64).saturating_sub(room.others + room.customers)
}

/// The room for the names of visits: stations and the depot have theirs first.
fn room_of(scale: Scale, visits: &[Visit]) -> Room
    requires { IsScale scale }
    ensures value { result ≡ room_of scale visits.now }
    ensures room { IsRoom result }
{
    let customers = customers_in(visits);
    let others = (visits.len() as u64).saturating_sub(customers);
    room_for(scale.width / 150 + 1, others, customers)
}

/// The room for so many names.
fn room_for(within: u64, others: u64, customers: u64) -> Room
    requires { within ≤ 1000 }
    ensures value { result ≡ room_for within others customers }
    ensures room { IsRoom result }
{
    let others = others.min(within);
    Room {
        free: 0,
        others,
        customers: customers.min(within.saturating_sub(others)),
    }
}

/// How many of the visits are those of customers.
fn customers_in(visits: &[Visit]) -> u64
    ensures value { result ≡ customers_in 0 visits.now }
{
    let mut count = 0;
    for visit in visits {
        if is_customer(visit.kind) {
            count += 1;
        }
    }
    count
}

/// Whether a visit is that of a customer.
fn is_customer(kind: PlaceKind) -> bool
    ensures { result ≡ is_customer kind }
{
    match kind {
        PlaceKind::Customer => true,
        PlaceKind::Depot | PlaceKind::Station => false,
    }
}

/// How many more names of a kind there are.
fn left_for(room: Room, kind: PlaceKind) -> u64
    ensures { result ≡ left_for room kind }
{
    if is_customer(kind) {
        room.customers
    } else {
        room.others
    }
}

/// Where the name of a visit stands: above it, or as near as the names beside it leave room.
fn name_place(scale: Scale, room: Room, visit: &Visit) -> u128
    requires scale { IsScale scale }
    requires room { IsRoom room }
    ensures value { result ≡ name_place scale room visit.now }
    ensures small { result ≤ max room.free 60000 }
{
    let x = x_at(scale, visit.arrival as u128);
    room.free.max(x.min(last_place(scale, room)))
}

/// The place of a name that leaves room for those behind it.
fn last_place(scale: Scale, room: Room) -> u128
    requires scale { IsScale scale }
    requires room { IsRoom room }
    ensures { result ≡ last_place scale room }
{
    let behind = (room.others + room.customers).saturating_sub(1);
    u128::from((1200 + scale.width).saturating_sub(150 * behind))
}

/// The room behind a name.
fn spent(room: Room, place: u128, kind: PlaceKind) -> Room
    requires room { IsRoom room }
    requires some { 1 ≤ left_for room kind }
    requires small { place ≤ max room.free 60000 }
    ensures value { result ≡ spent room place kind }
    ensures room { IsRoom result }
{
    let free = place + 150;
    if is_customer(kind) {
        Room {
            free,
            customers: room.customers.saturating_sub(1),
            ..room
        }
    } else {
        Room {
            free,
            others: room.others.saturating_sub(1),
            ..room
        }
    }
}

/// Appends the name of a visit, where there is room for one of its kind, and answers the room
/// behind it.
fn push_name(
    alloc: Global,
    out: &mut Vec<u8>,
    scale: Scale,
    places: &[Place],
    room: Room,
    visit: &Visit,
) -> Result<Room, AllocError>
    requires scale { IsScale scale }
    requires room { IsRoom room }
    ensures text { OnOk result
        (out.new.items ≡ out.old.items ++ name_if scale places.now room visit.now) }
    ensures room { IfOk result (λ next. next ≡ room_behind scale room visit.now) }
    ensures is { IfOk result IsRoom }
{
    if left_for(room, visit.kind) == 0 {
        return Ok(room);
    }
    let place = name_place(scale, room, visit);
    push_name_at(alloc, out, scale, places, place, visit)?;
    Ok(spent(room, place, visit.kind))
}

/// Appends a line from a visit to its name, and the name.
fn push_name_at(
    alloc: Global,
    out: &mut Vec<u8>,
    scale: Scale,
    places: &[Place],
    place: u128,
    visit: &Visit,
) -> Result<(), AllocError>
    requires { IsScale scale }
    ensures { OnOk result
        (out.new.items ≡ out.old.items ++ name_text scale places.now place visit.now) }
{
    let x = x_at(scale, visit.arrival as u128);
    push_mark(alloc, out, x, y_at(scale, visit.level), place)?;
    push_label(alloc, out, places, visit)?;
    push_word(out, b"</text>\n")?;
    Ok(())
}

/// Appends a line from a point to where a name stands, and how the name's element begins.
fn push_mark(
    alloc: Global,
    out: &mut Vec<u8>,
    x: u128,
    y: u128,
    place: u128,
) -> Result<(), AllocError>
    ensures { OnOk result (out.new.items ≡ out.old.items ++ mark_text x y place) }
{
    push_numbered(alloc, out, b"<path class='n' d='M", x)?;
    push_numbered(alloc, out, b" ", y)?;
    push_numbered(alloc, out, b"V600L", place)?;
    push_numbered(
        alloc,
        out,
        b" 555'/><text class='m' transform='translate(",
        place,
    )?;
    push_word(out, b",540) rotate(-60)' y='40'>")?;
    Ok(())
}
