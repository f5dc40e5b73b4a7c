//! The nodes that have a curve.

ghost use Rattle.std.specs.Prelude.{◌≡◌, ◌≤◌, IfOk, length};
ghost use Rattle.ev_model.specs.Network.{IsNetwork, most_nodes};
ghost use Rattle.level_table.specs.Stations.{stations};

use instance_reader::Instance;
use std::alloc::{AllocError, Global};

/// How many nodes have a curve. It takes no memory.
pub(crate) fn station_count(inst: &Instance) -> usize
    ensures value { result ≡ length (stations inst.now) }
    ensures few { result ≤ most_nodes }
{
    let mut count = 0;
    for node in 0..inst.nodes() {
        if inst.curve_at(node).is_some() {
            count += 1;
        }
    }
    count
}

/// The nodes that have a curve, in rising order.
pub(crate) fn stations_of(alloc: Global, inst: &Instance) -> Result<Vec<usize>, AllocError>
    ensures nodes { IfOk result (λ v. v.items ≡ stations inst.now) }
    ensures network { IsNetwork inst.now }
{
    let mut stations = Vec::new(alloc);
    for node in 0..inst.nodes() {
        if inst.curve_at(node).is_some() {
            stations.push(node)?;
        }
    }
    Ok(stations)
}
