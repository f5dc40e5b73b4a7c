//! The curve at each node: that of its station's type.

ghost use Rattle.std.specs.Prelude.{◌≡◌, ◌<◌, None, map, option_map, length, slice_index, All, IfOk, IfErr, IfSome};
ghost use Rattle.instance_reader.specs.Faults.{station_fault};
ghost use Rattle.instance_reader.specs.Meaning.{AreCurveNumbers, plug_time_of_number};
ghost use Rattle.instance_reader.specs.Refusal.{Refuses};
ghost use Rattle.instance_reader.specs.Views.{contents_view, curve_view};

use crate::faults::{PlaceFault, ReadFault};
use crate::fields::{CurveEntry, Fields};
use crate::nodes::station_numbers;
use crate::types::station_types;
use std::alloc::{AllocError, Global};

/// The numbers of the curves by node, where the stations' numbers are given by node and the curves'
/// numbers by station.
fn by_node(
    alloc: Global,
    stations: &[Option<usize>],
    types: &[usize],
) -> Result<Vec<Option<usize>>, AllocError>
    requires { All (λ o. IfSome o (λ station. station < length types.now)) stations.now }
    ensures { IfOk result (λ v. v.items ≡ map (option_map (slice_index types.now)) stations.now) }
{
    let mut numbers = Vec::new(alloc);
    for station in stations {
        match station {
            Some(station) => numbers.push(Some(types[*station]))?,
            None => numbers.push(None)?,
        }
    }
    Ok(numbers)
}

/// The time to plug in where the number of the curve is this; 0 where there is no curve.
#[tactic(auto, using(crate::proofs::StationsLemmas::plug_time_here))]
fn plug_time(curves: &[CurveEntry], number: Option<usize>) -> u64
    requires { IfSome number (λ n. n < length curves.now) }
    ensures { result ≡ plug_time_of_number (map curve_view curves.now) number }
{
    match number {
        Some(number) => curves[number].plug_time,
        None => 0,
    }
}

/// The time to plug in at each node, by the number of its curve; 0 where it has none.
pub(crate) fn plug_times(
    alloc: Global,
    curves: &[CurveEntry],
    curve_numbers: &[Option<usize>],
) -> Result<Vec<u64>, AllocError>
    requires { All (λ o. IfSome o (λ number. number < length curves.now)) curve_numbers.now }
    ensures { IfOk result
        (λ v. v.items ≡ map (plug_time_of_number (map curve_view curves.now)) curve_numbers.now) }
{
    let mut times = Vec::new(alloc);
    for number in curve_numbers {
        times.push(plug_time(curves, *number))?;
    }
    Ok(times)
}

/// The number of the curve at each node, or the first broken rule on stations.
pub(crate) fn curve_numbers(alloc: Global, fields: &Fields) -> Result<Vec<Option<usize>>, ReadFault>
    ensures good { IfOk result (λ _. station_fault (contents_view fields.now) ≡ None) }
    ensures value { IfOk result (λ v. AreCurveNumbers (contents_view fields.now) v.items) }
    ensures err { IfErr result (Refuses (station_fault (contents_view fields.now))) }
{
    let stations = match station_numbers(alloc, fields.stations.as_slice(), fields.energies.len()) {
        Ok(stations) => stations,
        Err(PlaceFault::At { place }) => return Err(ReadFault::Node { place }),
        Err(PlaceFault::Memory) => return Err(ReadFault::Memory),
    };
    let types = match station_types(alloc, fields.curves.as_slice(), fields.stations.as_slice()) {
        Ok(types) => types,
        Err(PlaceFault::At { place }) => return Err(ReadFault::TypeName { place }),
        Err(PlaceFault::Memory) => return Err(ReadFault::Memory),
    };
    match by_node(alloc, stations.as_slice(), types.as_slice()) {
        Ok(numbers) => Ok(numbers),
        Err(AllocError) => Err(ReadFault::Memory),
    }
}
