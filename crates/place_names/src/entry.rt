//! An entry of the list of places.

ghost use Rattle.std.specs.Prelude.{◌≡◌, None, Some, IfErr, IfOk};
ghost use Rattle.serde_json.specs.View.{view};
ghost use Rattle.place_names.specs.Entries.{EndsEntry, data_of, entry_fault, name_fault, name_in, place_in, point_fault, point_in};

use crate::characters::has_barred;
use crate::faults::{EntryEnded, EntryFault};
use crate::place::{Place, PlaceName, Point};
use serde_json::Value;
use std::alloc::Global;

/// The place of an entry, which has to say where it is if `points_needed`.
pub(crate) fn place(alloc: Global, entry: &Value, points_needed: bool) -> Result<Place, EntryEnded>
    ensures kind { IfOk result (λ _. entry_fault points_needed (view entry.now) ≡ None) }
    ensures value { IfOk result (λ place. place ≡ place_in (view entry.now)) }
    ensures err { IfErr result (EndsEntry (entry_fault points_needed (view entry.now))) }
{
    if !entry.is_object() {
        return Err(EntryEnded::Refused(EntryFault::NoObject));
    }
    let name = name(alloc, entry.get("name"))?;
    match point(entry.get("x"), entry.get("y"), points_needed) {
        Ok(point) => Ok(Place { name, point }),
        Err(fault) => Err(EntryEnded::Refused(fault)),
    }
}

/// The name of an entry.
fn name(alloc: Global, value: Option<&Value>) -> Result<PlaceName, EntryEnded>
    ensures kind { IfOk result (λ _. name_fault (data_of value.entry) ≡ None) }
    ensures value { IfOk result (λ name. name ≡ name_in (data_of value.entry)) }
    ensures err { IfErr result (EndsEntry (name_fault (data_of value.entry))) }
{
    let Some(text) = value.and_then(Value::as_str) else {
        return Err(EntryEnded::Refused(EntryFault::Name));
    };
    if has_barred(text.as_bytes()) {
        return Err(EntryEnded::Refused(EntryFault::Character));
    }
    Ok(PlaceName::new(alloc, text)?)
}

/// Where an entry is: both coordinates are whole numbers, or absent where they may be.
fn point(
    x: Option<&Value>,
    y: Option<&Value>,
    points_needed: bool,
) -> Result<Option<Point>, EntryFault>
    ensures kind { IfOk result
        (λ _. point_fault points_needed (data_of x.entry) (data_of y.entry) ≡ None) }
    ensures value { IfOk result
        (λ point. point ≡ point_in (data_of x.entry) (data_of y.entry)) }
    ensures err { IfErr result (λ fault.
        point_fault points_needed (data_of x.entry) (data_of y.entry) ≡ Some fault) }
{
    if x.is_none() && y.is_none() {
        return if points_needed {
            Err(EntryFault::X)
        } else {
            Ok(None)
        };
    }
    match (x.and_then(Value::as_u64), y.and_then(Value::as_u64)) {
        (Some(x), Some(y)) => Ok(Some(Point { x, y })),
        (Some(_), None) => Err(EntryFault::Y),
        (None, _) => Err(EntryFault::X),
    }
}
