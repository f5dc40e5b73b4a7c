//! No number is past 10^9 where that limit stands.

ghost use Rattle.std.specs.Prelude.{◌≡◌, map};
ghost use Rattle.instance_reader.specs.Search.{look_along};
ghost use Rattle.instance_reader.specs.Sizes.{first_large, large, large_in, large_in_curve, large_in_rows};
ghost use Rattle.instance_reader.specs.Views.{contents_view, curve_view};

use crate::fields::{CurveEntry, Fields};
use crate::places::{Key, Part, Place};

/// The largest number that a matrix, a curve, a process time, a time to plug in or a level may be.
const MOST: u64 = 1_000_000_000;

/// The place of a number that is past the limit.
fn large(number: u64, place: Place) -> Option<Place>
    ensures { result ≡ large place number }
{
    (number > MOST).then_some(place)
}

/// The first of the numbers at a place that is past the limit.
fn large_in(numbers: &[u64], place: Place) -> Option<Place>
    ensures { result ≡ large_in place numbers.now }
{
    for (index, number) in numbers.iter().enumerate() {
        if *number > MOST {
            return Some(place.item(index));
        }
    }
    None
}

/// The same in the rows of a matrix.
fn large_in_rows(rows: &[Vec<u64>], place: Place) -> Option<Place>
    ensures { result ≡ large_in_rows place (map (λ row. row.items) rows.now) }
{
    for (index, row) in rows.iter().enumerate() {
        let found = large_in(row.as_slice(), place.item(index));
        if found.is_some() {
            return found;
        }
    }
    None
}

/// The same in the times, then in the charges of a curve, and then the time to plug in.
fn large_in_curve(curve: &CurveEntry, place: Place) -> Option<Place>
    ensures { result ≡ large_in_curve place (curve_view curve.now) }
{
    large_in(curve.times.as_slice(), place.part(Part::Time))
        .or(large_in(curve.charges.as_slice(), place.part(Part::Charge)))
        .or(large(curve.plug_time, place.part(Part::Plug)))
}

/// The same in curves.
fn large_in_curves(curves: &[CurveEntry], place: Place) -> Option<Place>
    ensures { result ≡ look_along large_in_curve place (map curve_view curves.now) }
{
    for (index, curve) in curves.iter().enumerate() {
        let found = large_in_curve(curve, place.item(index));
        if found.is_some() {
            return found;
        }
    }
    None
}

/// The first place, in the order of the fields, where a number is past the limit.
#[tactic(auto, unfolding(crate::specs::Sizes::first_large))]
pub(crate) fn first_large(fields: &Fields) -> Option<Place>
    ensures { result ≡ first_large (contents_view fields.now) }
{
    if fields.max_q > MOST {
        return Some(Place::at_key(Key::MaxQ));
    }
    if let Some(place) = large_in_curves(fields.curves.as_slice(), Place::at_key(Key::Breaks)) {
        return Some(place);
    }
    if let Some(place) = large_in(fields.process_times.as_slice(), Place::at_key(Key::Service)) {
        return Some(place);
    }
    if let Some(place) = large_in_rows(fields.energies.as_slice(), Place::at_key(Key::Energy)) {
        return Some(place);
    }
    if let Some(place) = large_in_rows(fields.times.as_slice(), Place::at_key(Key::Time)) {
        return Some(place);
    }
    if fields.min_q > MOST {
        return Some(Place::at_key(Key::MinQ));
    }
    large(fields.home_q, Place::at_key(Key::HomeQ))
}
