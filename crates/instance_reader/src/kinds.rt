//! Takes the fields out of a value, or names the first place where a value of another kind stands.

ghost use Rattle.std.specs.Prelude.{◌≡◌, None, Some, map, option_and_then, option_map, IfOk, IfErr};
ghost use Rattle.serde_json.specs.View.{view};
ghost use Rattle.instance_reader.specs.Contents.{contents_of, curve_in, items_in, limit_in, name_in, number_in, numbers_in, rows_in, station_in};
ghost use Rattle.instance_reader.specs.Kinds.{first_wrong_kind, in_array, no_curve, no_limit, no_station, no_type, not_rows, not_whole, not_whole_if_there, not_wholes};
ghost use Rattle.instance_reader.specs.Refusal.{RefusesAt};
ghost use Rattle.instance_reader.specs.Search.{look_along};
ghost use Rattle.instance_reader.specs.Values.{array_of, type_value};
ghost use Rattle.instance_reader.specs.Views.{contents_view, curve_view, data_of, name_view, station_view};

use crate::faults::PlaceFault;
use crate::fields::{CurveEntry, Fields, StationEntry, TypeName};
use crate::places::{Key, Part, Place};
use serde_json::Value;
use std::alloc::{AllocError, Global};

/// A whole number.
fn whole(value: Option<&Value>, place: Place) -> Result<u64, PlaceFault>
    ensures kind { IfOk result (λ _. not_whole place (data_of value.entry) ≡ None) }
    ensures value { IfOk result (λ n. n ≡ number_in (data_of value.entry)) }
    ensures err { IfErr result (RefusesAt (not_whole place (data_of value.entry))) }
{
    match value.and_then(Value::as_u64) {
        Some(number) => Ok(number),
        None => Err(PlaceFault::At { place }),
    }
}

/// A whole number, which is 0 where the value is absent.
fn whole_or_zero(value: Option<&Value>, place: Place) -> Result<u64, PlaceFault>
    ensures kind { IfOk result (λ _. not_whole_if_there place (data_of value.entry) ≡ None) }
    ensures value { IfOk result (λ n. n ≡ number_in (data_of value.entry)) }
    ensures err { IfErr result (RefusesAt (not_whole_if_there place (data_of value.entry))) }
{
    match value {
        None => Ok(0),
        Some(value) => whole(Some(value), place),
    }
}

/// A limit: none where the value is absent or null.
fn limit(value: Option<&Value>, place: Place) -> Result<Option<u64>, PlaceFault>
    ensures kind { IfOk result (λ _. no_limit place (data_of value.entry) ≡ None) }
    ensures value { IfOk result (λ o. o ≡ limit_in (data_of value.entry)) }
    ensures err { IfErr result (RefusesAt (no_limit place (data_of value.entry))) }
{
    match value {
        None => Ok(None),
        Some(value) => {
            if value.is_null() {
                return Ok(None);
            }
            match value.as_u64() {
                Some(number) => Ok(Some(number)),
                None => Err(PlaceFault::At { place }),
            }
        }
    }
}

/// The items of an array.
#[tactic(auto, using(crate::proofs::ValuesLemmas::values_lemmas))]
fn items(value: Option<&Value>) -> Option<&[Value]>
    ensures { option_map (λ s. map view s.now) result
        ≡ option_and_then array_of (data_of value.entry) }
{
    match value.and_then(Value::as_array) {
        Some(items) => Some(items.as_slice()),
        None => None,
    }
}

/// The whole numbers of a list.
fn whole_items(alloc: Global, items: &[Value], place: Place) -> Result<Vec<u64>, PlaceFault>
    ensures kind { IfOk result
        (λ _. look_along (λ at d. not_whole at (Some d)) place (map view items.now) ≡ None) }
    ensures value { IfOk result
        (λ v. v.items ≡ map (λ d. number_in (Some d)) (map view items.now)) }
    ensures err { IfErr result
        (RefusesAt (look_along (λ at d. not_whole at (Some d)) place (map view items.now))) }
{
    let mut numbers = Vec::new(alloc);
    for (index, item) in items.iter().enumerate() {
        let Some(number) = item.as_u64() else {
            return Err(PlaceFault::At {
                place: place.item(index),
            });
        };
        numbers.push(number)?;
    }
    Ok(numbers)
}

/// An array of whole numbers.
fn wholes(alloc: Global, value: Option<&Value>, place: Place) -> Result<Vec<u64>, PlaceFault>
    ensures kind { IfOk result (λ _. not_wholes place (data_of value.entry) ≡ None) }
    ensures value { IfOk result (λ v. v.items ≡ numbers_in (data_of value.entry)) }
    ensures err { IfErr result (RefusesAt (not_wholes place (data_of value.entry))) }
{
    match items(value) {
        Some(items) => whole_items(alloc, items, place),
        None => Err(PlaceFault::At { place }),
    }
}

/// The rows of a list.
fn row_items(alloc: Global, items: &[Value], place: Place) -> Result<Vec<Vec<u64>>, PlaceFault>
    ensures kind { IfOk result
        (λ _. look_along (λ at d. not_wholes at (Some d)) place (map view items.now) ≡ None) }
    ensures value { IfOk result
        (λ v. map (λ row. row.items) v.items
        ≡ map (λ d. numbers_in (Some d)) (map view items.now)) }
    ensures err { IfErr result
        (RefusesAt (look_along (λ at d. not_wholes at (Some d)) place (map view items.now))) }
{
    let mut rows = Vec::new(alloc);
    for (index, item) in items.iter().enumerate() {
        let row = wholes(alloc, Some(item), place.item(index))?;
        rows.push(row)?;
    }
    Ok(rows)
}

/// An array of arrays of whole numbers.
fn rows(alloc: Global, value: Option<&Value>, place: Place) -> Result<Vec<Vec<u64>>, PlaceFault>
    ensures kind { IfOk result (λ _. not_rows place (data_of value.entry) ≡ None) }
    ensures value { IfOk result
        (λ v. map (λ row. row.items) v.items ≡ rows_in (data_of value.entry)) }
    ensures err { IfErr result (RefusesAt (not_rows place (data_of value.entry))) }
{
    match items(value) {
        Some(items) => row_items(alloc, items, place),
        None => Err(PlaceFault::At { place }),
    }
}

/// A type: a text or a whole number.
fn type_name(alloc: Global, value: Option<&Value>, place: Place) -> Result<TypeName, PlaceFault>
    ensures kind { IfOk result (λ _. no_type place (data_of value.entry) ≡ None) }
    ensures value { IfOk result (λ name. name_view name ≡ name_in (data_of value.entry)) }
    ensures err { IfErr result (RefusesAt (no_type place (data_of value.entry))) }
{
    match value {
        Some(Value::String(text)) => match String::from_str(alloc, text.as_str()) {
            Ok(text) => Ok(TypeName::Text(text)),
            Err(AllocError) => Err(PlaceFault::Memory),
        },
        Some(value) => match value.as_u64() {
            Some(number) => Ok(TypeName::Whole(number)),
            None => Err(PlaceFault::At { place }),
        },
        None => Err(PlaceFault::At { place }),
    }
}

/// The type of an entry stands under `cs_type`, or under `type` where `cs_type` is absent.
fn type_of(entry: &Value) -> Option<&Value>
    ensures { data_of result ≡ type_value (view entry.now) }
{
    match entry.get("cs_type") {
        Some(value) => Some(value),
        None => entry.get("type"),
    }
}

/// An entry of `css`.
#[tactic(auto, using(crate::proofs::SearchLemmas::several))]
fn station(alloc: Global, entry: &Value, place: Place) -> Result<StationEntry, PlaceFault>
    ensures kind { IfOk result (λ _. no_station place (view entry.now) ≡ None) }
    ensures value { IfOk result (λ s. station_view s ≡ station_in (view entry.now)) }
    ensures err { IfErr result (RefusesAt (no_station place (view entry.now))) }
{
    if !entry.is_object() {
        return Err(PlaceFault::At { place });
    }
    let node = whole(entry.get(Part::NodeId.name()), place.part(Part::NodeId))?;
    let type_name = type_name(alloc, type_of(entry), place.part(Part::TypeName))?;
    Ok(StationEntry { node, type_name })
}

/// An entry of `breakpoints_by_type`.
#[tactic(auto, using(crate::proofs::SearchLemmas::several))]
fn curve(alloc: Global, entry: &Value, place: Place) -> Result<CurveEntry, PlaceFault>
    ensures kind { IfOk result (λ _. no_curve place (view entry.now) ≡ None) }
    ensures value { IfOk result (λ c. curve_view c ≡ curve_in (view entry.now)) }
    ensures err { IfErr result (RefusesAt (no_curve place (view entry.now))) }
{
    if !entry.is_object() {
        return Err(PlaceFault::At { place });
    }
    let type_name = type_name(alloc, type_of(entry), place.part(Part::TypeName))?;
    let times = wholes(alloc, entry.get(Part::Time.name()), place.part(Part::Time))?;
    let charges = wholes(
        alloc,
        entry.get(Part::Charge.name()),
        place.part(Part::Charge),
    )?;
    let plug_time = whole_or_zero(entry.get(Part::Plug.name()), place.part(Part::Plug))?;
    Ok(CurveEntry {
        type_name,
        times,
        charges,
        plug_time,
    })
}

/// The stations of a list.
fn station_items(
    alloc: Global,
    items: &[Value],
    place: Place,
) -> Result<Vec<StationEntry>, PlaceFault>
    ensures kind { IfOk result (λ _. look_along no_station place (map view items.now) ≡ None) }
    ensures value { IfOk result
        (λ v. map station_view v.items ≡ map station_in (map view items.now)) }
    ensures err { IfErr result (RefusesAt (look_along no_station place (map view items.now))) }
{
    let mut stations = Vec::new(alloc);
    for (index, item) in items.iter().enumerate() {
        let station = station(alloc, item, place.item(index))?;
        stations.push(station)?;
    }
    Ok(stations)
}

/// The curves of a list.
fn curve_items(alloc: Global, items: &[Value], place: Place) -> Result<Vec<CurveEntry>, PlaceFault>
    ensures kind { IfOk result (λ _. look_along no_curve place (map view items.now) ≡ None) }
    ensures value { IfOk result (λ v. map curve_view v.items ≡ map curve_in (map view items.now)) }
    ensures err { IfErr result (RefusesAt (look_along no_curve place (map view items.now))) }
{
    let mut curves = Vec::new(alloc);
    for (index, item) in items.iter().enumerate() {
        let curve = curve(alloc, item, place.item(index))?;
        curves.push(curve)?;
    }
    Ok(curves)
}

/// The stations of `css`.
fn stations(
    alloc: Global,
    value: Option<&Value>,
    place: Place,
) -> Result<Vec<StationEntry>, PlaceFault>
    ensures kind { IfOk result (λ _. in_array no_station place (data_of value.entry) ≡ None) }
    ensures value { IfOk result
        (λ v. map station_view v.items ≡ map station_in (items_in (data_of value.entry))) }
    ensures err { IfErr result (RefusesAt (in_array no_station place (data_of value.entry))) }
{
    match items(value) {
        Some(items) => station_items(alloc, items, place),
        None => Err(PlaceFault::At { place }),
    }
}

/// The curves of `breakpoints_by_type`.
fn curves(alloc: Global, value: Option<&Value>, place: Place) -> Result<Vec<CurveEntry>, PlaceFault>
    ensures kind { IfOk result (λ _. in_array no_curve place (data_of value.entry) ≡ None) }
    ensures value { IfOk result
        (λ v. map curve_view v.items ≡ map curve_in (items_in (data_of value.entry))) }
    ensures err { IfErr result (RefusesAt (in_array no_curve place (data_of value.entry))) }
{
    match items(value) {
        Some(items) => curve_items(alloc, items, place),
        None => Err(PlaceFault::At { place }),
    }
}

/// All fields of the top value, each of its kind.
pub(crate) fn fields(alloc: Global, top: &Value) -> Result<Fields, PlaceFault>
    ensures kind { IfOk result (λ _. first_wrong_kind (view top.now) ≡ None) }
    ensures value { IfOk result (λ f. contents_view f ≡ contents_of (view top.now)) }
    ensures err { IfErr result (RefusesAt (first_wrong_kind (view top.now))) }
{
    Ok(Fields {
        max_q: whole(top.get(Key::MaxQ.name()), Place::at_key(Key::MaxQ))?,
        stations: stations(alloc, top.get(Key::Css.name()), Place::at_key(Key::Css))?,
        curves: curves(
            alloc,
            top.get(Key::Breaks.name()),
            Place::at_key(Key::Breaks),
        )?,
        process_times: wholes(
            alloc,
            top.get(Key::Service.name()),
            Place::at_key(Key::Service),
        )?,
        energies: rows(
            alloc,
            top.get(Key::Energy.name()),
            Place::at_key(Key::Energy),
        )?,
        times: rows(alloc, top.get(Key::Time.name()), Place::at_key(Key::Time))?,
        t_max: limit(top.get(Key::TMax.name()), Place::at_key(Key::TMax))?,
        max_t: limit(top.get(Key::MaxT.name()), Place::at_key(Key::MaxT))?,
        min_q: whole_or_zero(top.get(Key::MinQ.name()), Place::at_key(Key::MinQ))?,
        home_q: whole_or_zero(top.get(Key::HomeQ.name()), Place::at_key(Key::HomeQ))?,
    })
}
