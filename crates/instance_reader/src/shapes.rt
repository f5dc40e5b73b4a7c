//! Lists and matrices have the right lengths.

ghost use Rattle.std.specs.Prelude.{◌≡◌, map, length};
ghost use Rattle.instance_reader.specs.Places.{at_key};
ghost use Rattle.instance_reader.specs.Search.{look_along};
ghost use Rattle.instance_reader.specs.Shapes.{first_wrong_shape, odd_row_in, uneven};
ghost use Rattle.instance_reader.specs.Views.{contents_view, curve_view};

use crate::fields::{CurveEntry, Fields};
use crate::places::{Key, Part, Place};

/// The most entries of `breakpoints_by_type`.
const MOST_TYPES: usize = 16;

/// The most nodes.
const MOST_NODES: usize = 400;

/// The first of the rows at a place that has another number of entries.
fn odd_row_in(rows: &[Vec<u64>], nodes: usize, place: Place) -> Option<Place>
    ensures { result ≡ odd_row_in nodes place (map (λ row. row.items) rows.now) }
{
    for (index, row) in rows.iter().enumerate() {
        if row.len() != nodes {
            return Some(place.item(index));
        }
    }
    None
}

/// The first curve that has not as many charges as times.
fn uneven_in(curves: &[CurveEntry], place: Place) -> Option<Place>
    ensures { result ≡ look_along uneven place (map curve_view curves.now) }
{
    for (index, curve) in curves.iter().enumerate() {
        if curve.times.len() != curve.charges.len() {
            return Some(place.item(index).part(Part::Charge));
        }
    }
    None
}

/// The first place, in the order of the fields, of a list or a matrix that has a wrong length.
#[tactic(auto, unfolding(crate::specs::Shapes::first_wrong_shape))]
pub(crate) fn first_wrong_shape(fields: &Fields) -> Option<Place>
    ensures { result ≡ first_wrong_shape (contents_view fields.now) }
{
    let nodes = fields.energies.len();
    if fields.curves.len() > MOST_TYPES {
        return Some(Place::at_key(Key::Breaks));
    }
    if let Some(place) = uneven_in(fields.curves.as_slice(), Place::at_key(Key::Breaks)) {
        return Some(place);
    }
    if fields.process_times.len() > nodes {
        return Some(Place::at_key(Key::Service));
    }
    if nodes == 0 || nodes > MOST_NODES {
        return Some(Place::at_key(Key::Energy));
    }
    if let Some(place) = odd_row_in(
        fields.energies.as_slice(),
        nodes,
        Place::at_key(Key::Energy),
    ) {
        return Some(place);
    }
    if fields.times.len() != nodes {
        return Some(Place::at_key(Key::Time));
    }
    odd_row_in(fields.times.as_slice(), nodes, Place::at_key(Key::Time))
}
