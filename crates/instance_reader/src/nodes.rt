//! Each station is at a node of the instance, and at another one than the other stations.

ghost use Rattle.std.specs.Prelude.{◌≡◌, ◌||◌, None, [], is_some, length, map, nat_lt, not, slice_index_or, IfOk, IfErr};
ghost use Rattle.instance_reader.specs.Nodes.{AreStationNumbers, node_place, wrong_node_in};
ghost use Rattle.instance_reader.specs.Refusal.{RefusesAt};
ghost use Rattle.instance_reader.specs.Views.{station_view};

use crate::faults::PlaceFault;
use crate::fields::StationEntry;
use crate::places::{Key, Part, Place};
use std::alloc::Global;

/// The place of the node of an entry of `css`.
fn node_place(index: usize) -> Place
    ensures { result ≡ node_place index }
{
    Place::at_key(Key::Css).item(index).part(Part::NodeId)
}

/// The node isn't one of the instance, or has a station already.
fn is_wrong(numbers: &[Option<usize>], node: usize) -> bool
    ensures { result ≡ (not (nat_lt node (length numbers.now))
        || is_some (slice_index_or numbers.now node None)) }
{
    node >= numbers.len() || numbers[node].is_some()
}

/// The number of the station at each node, or the place of the first node that isn't below `nodes`
/// or has a station already.
pub(crate) fn station_numbers(
    alloc: Global,
    stations: &[StationEntry],
    nodes: usize,
) -> Result<Vec<Option<usize>>, PlaceFault>
    ensures node { IfOk result
        (λ _. wrong_node_in nodes 0 [] (map station_view stations.now) ≡ None) }
    ensures value { IfOk result
        (λ v. AreStationNumbers (map station_view stations.now) nodes v.items) }
    ensures err { IfErr result
        (RefusesAt (wrong_node_in nodes 0 [] (map station_view stations.now))) }
{
    let mut numbers = vec![in alloc; None; nodes]?;
    for (index, station) in stations.iter().enumerate() {
        let node = station.node as usize;
        if is_wrong(&numbers, node) {
            return Err(PlaceFault::At {
                place: node_place(index),
            });
        }
        numbers[node] = Some(index);
    }
    Ok(numbers)
}
