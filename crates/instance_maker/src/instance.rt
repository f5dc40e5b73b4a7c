//! The JSON value of a made instance.
ghost use Rattle.std.specs.Prelude.{◌≡◌, ◌+◌, ◌++◌, ◌<◌, map, replicate, IfOk, OnOk};
ghost use Rattle.serde_json.specs.View.{view};
ghost use Rattle.instance_maker.specs.Locations.{distance_between, locations_of};
ghost use Rattle.instance_maker.specs.MadeInstance.{array_of, whole, curve_value, curves_value, station_value, stations_value, distances_value, process_times_value, made_value};

use super::generator::MODULUS;
use super::plane::{Location, draw_locations};
use serde_json::{Map, Value, put};
use std::alloc::{AllocError, Global};

/// What a full battery holds.
const BATTERY: u64 = 1600;

/// The time that a customer is served for.
const SERVICE: u64 = 5;

/// The charges of the breakpoints of each curve.
const CHARGES: [u64; 4] = [0, 1360, 1520, 1600];

/// The times of the breakpoints of a fast station.
const FAST_TIMES: [u64; 4] = [0, 310, 390, 510];

/// The times of the breakpoints of a slow station.
const SLOW_TIMES: [u64; 4] = [0, 1260, 1540, 2040];

/// An array of whole numbers.
fn whole_numbers(alloc: Global, numbers: &[u64]) -> Result<Value, AllocError>
    ensures { IfOk result (λ value. view value ≡ array_of (map whole numbers.now)) }
{
    let mut items = Vec::new(alloc);
    for number in numbers {
        items.push(Value::from(*number))?;
    }
    Ok(Value::from(items))
}

/// The charging curve of a station type.
fn curve(alloc: Global, kind: &str, times: &[u64]) -> Result<Value, AllocError>
    ensures { IfOk result (λ value. view value ≡ curve_value kind.now times.now) }
{
    let mut members = Map::new(alloc);
    put(
        &mut members,
        alloc,
        "charge",
        whole_numbers(alloc, &CHARGES)?,
    )?;
    put(
        &mut members,
        alloc,
        "cs_type",
        Value::try_from_str(alloc, kind)?,
    )?;
    put(&mut members, alloc, "time", whole_numbers(alloc, times)?)?;
    Ok(Value::from(members))
}

/// The charging curves of both station types.
fn curves(alloc: Global) -> Result<Value, AllocError>
    ensures { IfOk result (λ value. view value ≡ curves_value) }
{
    let mut items = Vec::new(alloc);
    items.push(curve(alloc, "fast", &FAST_TIMES)?)?;
    items.push(curve(alloc, "slow", &SLOW_TIMES)?)?;
    Ok(Value::from(items))
}

/// The entry of the station with this number at this node: even numbers are fast, odd ones slow.
fn station(alloc: Global, number: u64, node: u64) -> Result<Value, AllocError>
    ensures { IfOk result (λ value. view value ≡ station_value number node) }
{
    let kind = if number % 2 == 0 { "fast" } else { "slow" };
    let mut members = Map::new(alloc);
    put(
        &mut members,
        alloc,
        "cs_type",
        Value::try_from_str(alloc, kind)?,
    )?;
    put(&mut members, alloc, "node_id", Value::from(node))?;
    Ok(Value::from(members))
}

/// The entries of all stations.
fn station_entries(alloc: Global, customers: u32, stations: u32) -> Result<Value, AllocError>
    ensures { IfOk result (λ value. view value ≡ stations_value customers stations) }
{
    let mut items = Vec::new(alloc);
    for number in 0..stations {
        let number = u64::from(number);
        items.push(station(alloc, number, 1 + u64::from(customers) + number)?)?;
    }
    Ok(Value::from(items))
}

/// The distances from a location to each location.
fn distances_from(
    alloc: Global,
    from: &Location,
    locations: &[Location],
) -> Result<Value, AllocError>
    ensures { IfOk result (λ value. view value
        ≡ array_of (map (λ to. whole (distance_between from.now to)) locations.now)) }
{
    let mut items = Vec::new(alloc);
    for to in locations {
        items.push(Value::from(from.distance_to(to)))?;
    }
    Ok(Value::from(items))
}

/// The matrix of the distances from each location to each location.
fn distances(alloc: Global, locations: &[Location]) -> Result<Value, AllocError>
    ensures { IfOk result (λ value. view value ≡ distances_value locations.now) }
{
    let mut rows = Vec::new(alloc);
    for from in locations {
        rows.push(distances_from(alloc, from, locations)?)?;
    }
    Ok(Value::from(rows))
}

/// Adds a whole number so many times.
fn push_times(items: &mut Vec<Value>, number: u64, times: u32) -> Result<(), AllocError>
    ensures { OnOk result (map view items.new.items
        ≡ map view items.old.items ++ replicate times (whole number)) }
{
    for _ in 0..times {
        items.push(Value::from(number))?;
    }
    Ok(())
}

/// The process times of the depot, the customers and the stations.
fn process_times(alloc: Global, customers: u32, stations: u32) -> Result<Value, AllocError>
    ensures { IfOk result (λ value. view value ≡ process_times_value customers stations) }
{
    let mut items = Vec::new(alloc);
    push_times(&mut items, 0, 1)?;
    push_times(&mut items, SERVICE, customers)?;
    push_times(&mut items, 0, stations)?;
    Ok(Value::from(items))
}

/// The value of the made instance.
#[tactic(auto, unfolding(crate::specs::MadeInstance::made_value))]
pub(crate) fn instance_value(
    alloc: Global,
    seed: u64,
    customers: u32,
    stations: u32,
) -> Result<Value, AllocError>
    requires { seed < MODULUS }
    ensures { IfOk result (λ value. view value ≡ made_value seed customers stations) }
{
    let nodes = 1 + u64::from(customers) + u64::from(stations);
    let locations = draw_locations(alloc, seed, nodes)?;
    let mut members = Map::new(alloc);
    put(&mut members, alloc, "breakpoints_by_type", curves(alloc)?)?;
    put(
        &mut members,
        alloc,
        "css",
        station_entries(alloc, customers, stations)?,
    )?;
    put(
        &mut members,
        alloc,
        "energy_matrix",
        distances(alloc, locations.as_slice())?,
    )?;
    put(&mut members, alloc, "max_q", Value::from(BATTERY))?;
    put(
        &mut members,
        alloc,
        "process_times",
        process_times(alloc, customers, stations)?,
    )?;
    put(
        &mut members,
        alloc,
        "time_matrix",
        distances(alloc, locations.as_slice())?,
    )?;
    Ok(Value::from(members))
}
