//! The nodes that have a curve.

ghost use Rattle.std.specs.Prelude.{◌≡◌, IfOk};
ghost use Rattle.ev_model.specs.Network.{IsNetwork};
ghost use Rattle.route_steps.specs.Stations.{stations};

use instance_reader::Instance;
use std::alloc::{AllocError, Global};

/// The nodes that have a curve, in rising order.
pub fn station_nodes(alloc: Global, inst: &Instance) -> Result<Vec<usize>, AllocError>
    ensures nodes { IfOk result (λ v. v.items ≡ stations inst.now) }
    ensures network { IsNetwork inst.now }
{
    let mut nodes = Vec::new(alloc);
    for node in 0..inst.nodes() {
        if inst.curve_at(node).is_some() {
            nodes.push(node)?;
        }
    }
    Ok(nodes)
}
