//! Reads a file of places.

ghost use Rattle.std.specs.Prelude.{◌≡◌, IfErr, IfOk, None, length, map, option_map};
ghost use Rattle.serde_json.specs.View.{view};
ghost use Rattle.place_names.specs.Entries.{place_in};
ghost use Rattle.place_names.specs.Reading.{ArePlacesOf, Ends, EndsOn, count_fault, entries_fault, entries_in, fault_in, placed_fault, places_in};

use crate::entry::place;
use crate::faults::{EntryEnded, PlacesEnded, PlacesFault};
use crate::place::Place;
use serde_json::Value;
use std::alloc::Global;

/// The most bytes of a file of places: 2^26.
pub const MOST_BYTES: usize = 1 << 26;

/// Reads the places of an instance of so many nodes from the bytes of a JSON file.
///
/// The top value is an object with an array under `places`: an object for each node, in their
/// order, with a text under `name`, and maybe whole numbers under `x` and `y`, both or none; both
/// if `points_needed`. Other keys are passed over. No name has a control character, the end of a
/// line or of a paragraph, or U+FFFE or U+FFFF.
///
/// The answer is the places that the bytes mean, or the first broken rule, as [`PlacesFault`] lists
/// them; of entries the first that is no place.
pub fn read_places(
    alloc: Global,
    bytes: &[u8],
    nodes: usize,
    points_needed: bool,
) -> Result<Vec<Place>, PlacesEnded>
    ensures places { IfOk result
        (λ places. ArePlacesOf points_needed nodes bytes.now places.items) }
    ensures fault { IfErr result (Ends points_needed nodes bytes.now) }
{
    if bytes.len() > MOST_BYTES {
        return Err(PlacesEnded::Refused(PlacesFault::TooLong));
    }
    match Value::from_slice(alloc, bytes) {
        Ok(top) => read_value(alloc, &top, nodes, points_needed),
        Err(error) => {
            if error.is_memory() {
                Err(PlacesEnded::Memory)
            } else {
                Err(PlacesEnded::Refused(PlacesFault::NotJson))
            }
        }
    }
}

/// Reads places from the value of a file.
#[tactic(auto, using(crate::proofs::Values::values))]
fn read_value(
    alloc: Global,
    top: &Value,
    nodes: usize,
    points_needed: bool,
) -> Result<Vec<Place>, PlacesEnded>
    ensures kind { IfOk result (λ _. fault_in points_needed nodes (view top.now) ≡ None) }
    ensures value { IfOk result (λ places. places.items ≡ places_in (view top.now)) }
    ensures err { IfErr result (EndsOn (fault_in points_needed nodes (view top.now))) }
{
    let Some(entries) = entries(top) else {
        return Err(PlacesEnded::Refused(PlacesFault::NoList));
    };
    let places = places(alloc, entries, points_needed)?;
    counted(places, nodes)
}

/// The entries of the list of places.
#[tactic(auto, using(crate::proofs::Values::lists))]
fn entries(top: &Value) -> Option<&[Value]>
    ensures { option_map (λ s. map view s.now) result ≡ entries_in (view top.now) }
{
    match top.get("places").and_then(Value::as_array) {
        Some(entries) => Some(entries.as_slice()),
        None => None,
    }
}

/// The places, of which there has to be one a node.
fn counted(places: Vec<Place>, nodes: usize) -> Result<Vec<Place>, PlacesEnded>
    ensures kind { IfOk result (λ _. count_fault nodes (length places.items) ≡ None) }
    ensures value { IfOk result (λ kept. kept.items ≡ places.items) }
    ensures err { IfErr result (EndsOn (count_fault nodes (length places.items))) }
{
    let count = places.len();
    if count == nodes {
        Ok(places)
    } else {
        Err(PlacesEnded::Refused(PlacesFault::Count(count)))
    }
}

/// The places of entries.
fn places(alloc: Global, entries: &[Value], points_needed: bool) -> Result<Vec<Place>, PlacesEnded>
    ensures kind { IfOk result
        (λ _. entries_fault points_needed 0 (map view entries.now) ≡ None) }
    ensures value { IfOk result
        (λ places. places.items ≡ map place_in (map view entries.now)) }
    ensures err { IfErr result (EndsOn (entries_fault points_needed 0 (map view entries.now))) }
{
    let mut places = Vec::new(alloc);
    for (index, entry) in entries.iter().enumerate() {
        let place = place_at(alloc, entry, index, points_needed)?;
        places.push(place)?;
    }
    Ok(places)
}

/// The place of the entry with this number.
fn place_at(
    alloc: Global,
    entry: &Value,
    index: usize,
    points_needed: bool,
) -> Result<Place, PlacesEnded>
    ensures kind { IfOk result
        (λ _. placed_fault points_needed index (view entry.now) ≡ None) }
    ensures value { IfOk result (λ place. place ≡ place_in (view entry.now)) }
    ensures err { IfErr result (EndsOn (placed_fault points_needed index (view entry.now))) }
{
    match place(alloc, entry, points_needed) {
        Ok(place) => Ok(place),
        Err(EntryEnded::Refused(fault)) => {
            Err(PlacesEnded::Refused(PlacesFault::Entry(index, fault)))
        }
        Err(EntryEnded::Memory) => Err(PlacesEnded::Memory),
    }
}
