//! Each type is listed once, and each station's type is listed.

ghost use Rattle.std.specs.Prelude.{◌≡◌, None, [], is_some, map, IfOk, IfErr, IfSome};
ghost use Rattle.instance_reader.specs.Refusal.{RefusesAt};
ghost use Rattle.instance_reader.specs.Search.{first_along};
ghost use Rattle.instance_reader.specs.Types.{is_among, names_of, number_among, repeated_in, type_number, type_place, unlisted, wrong_type_in};
ghost use Rattle.instance_reader.specs.Views.{curve_view, name_view, names_in, station_view};

use crate::faults::PlaceFault;
use crate::fields::{CurveEntry, StationEntry, TypeName};
use crate::places::{Key, Part, Place};
use indexmap::IndexSet;
use std::alloc::{AllocFailed, Global};

/// The place of the type of an entry under a key.
fn type_place(key: Key, index: usize) -> Place
    ensures { result ≡ type_place key index }
{
    Place::at_key(key).item(index).part(Part::TypeName)
}

/// The types in the order of their entries, or the place of the first that is listed already.
fn number_names<'a>(
    alloc: Global,
    curves: &'a [CurveEntry],
) -> Result<IndexSet<&'a TypeName>, PlaceFault>
    ensures names { IfOk result
        (λ names. names_in names.keys ≡ names_of (map curve_view curves.now)) }
    ensures once { IfOk result
        (λ _. repeated_in 0 [] (names_of (map curve_view curves.now)) ≡ None) }
    ensures err { IfErr result
        (RefusesAt (repeated_in 0 [] (names_of (map curve_view curves.now)))) }
{
    let mut names = IndexSet::new(alloc);
    for (index, curve) in curves.iter().enumerate() {
        match names.insert(&curve.type_name) {
            Ok(true) => {}
            Ok(false) => {
                return Err(PlaceFault::At {
                    place: type_place(Key::Breaks, index),
                });
            }
            Err(AllocFailed { .. }) => return Err(PlaceFault::Memory),
        }
    }
    Ok(names)
}

/// The number of a type, if it is listed.
fn number_of<'a>(names: &IndexSet<&'a TypeName>, name: &'a TypeName) -> Option<usize>
    ensures listed { is_some result ≡ is_among (name_view name.now) (names_in names.now.keys) }
    ensures number { IfSome result
        (λ number. number ≡ number_among (names_in names.now.keys) (name_view name.now)) }
{
    names.get_index_of(&name)
}

/// The number of each station's type, or the place of the first type that isn't listed.
fn type_numbers<'a>(
    alloc: Global,
    names: &IndexSet<&'a TypeName>,
    stations: &'a [StationEntry],
) -> Result<Vec<usize>, PlaceFault>
    ensures listed { IfOk result
        (λ _. first_along (unlisted (names_in names.now.keys)) 0 (map station_view stations.now)
        ≡ None) }
    ensures value { IfOk result
        (λ v. v.items ≡ map (λ s. number_among (names_in names.now.keys) s.type_name)
        (map station_view stations.now)) }
    ensures err { IfErr result
        (RefusesAt
        (first_along (unlisted (names_in names.now.keys)) 0 (map station_view stations.now))) }
{
    let mut numbers = Vec::new(alloc);
    for (index, station) in stations.iter().enumerate() {
        let Some(number) = number_of(names, &station.type_name) else {
            return Err(PlaceFault::At {
                place: type_place(Key::Css, index),
            });
        };
        numbers.push(number)?;
    }
    Ok(numbers)
}

/// The number of each station's curve, or the first place of a type that is listed already, and
/// then of a station's type that isn't listed.
#[tactic(auto, using(crate::proofs::SearchLemmas::several))]
pub(crate) fn station_types<'a>(
    alloc: Global,
    curves: &'a [CurveEntry],
    stations: &'a [StationEntry],
) -> Result<Vec<usize>, PlaceFault>
    ensures types { IfOk result
        (λ _. wrong_type_in (map curve_view curves.now) (map station_view stations.now) ≡ None) }
    ensures value { IfOk result
        (λ v. v.items
        ≡ map (type_number (map curve_view curves.now)) (map station_view stations.now)) }
    ensures err { IfErr result
        (RefusesAt (wrong_type_in (map curve_view curves.now) (map station_view stations.now))) }
{
    let names = number_names(alloc, curves)?;
    type_numbers(alloc, &names, stations)
}
