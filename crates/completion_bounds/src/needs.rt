//! With which level a vehicle can go on from a node.

ghost use Rattle.std.specs.Prelude.{◌<◌};
ghost use Rattle.ev_model.specs.Network.{node_count};

use instance_reader::Instance;
use std::alloc::{AllocError, Global};

/// The least level with which a vehicle can go on from each node: to a station or home, over
/// customers. It needs none at a station or at the depot.
pub(crate) fn levels_needed(alloc: Global, inst: &Instance) -> Result<Vec<u64>, AllocError> {
    let mut needs = vec![in alloc; u64::MAX; inst.nodes()]?;
    for node in 0..inst.nodes() {
        if is_end(inst, node) {
            put(&mut needs, node, 0);
        }
    }
    for _ in 0..inst.nodes() {
        if !lower_all(inst, &mut needs) {
            break;
        }
    }
    Ok(needs)
}

/// Whether a way may end at a node: at a station, or at the depot.
fn is_end(inst: &Instance, node: usize) -> bool
    requires { node < node_count inst.now }
{
    node == 0 || inst.curve_at(node).is_some()
}

/// Puts a level.
fn put(needs: &mut Vec<u64>, node: usize, level: u64) {
    if let Some(need) = needs.get_mut(node) {
        *need = level;
    }
}

/// Lowers the level of each node to that of going on by one arc. Whether one falls.
fn lower_all(inst: &Instance, needs: &mut Vec<u64>) -> bool {
    let mut is_lower = false;
    for node in 0..inst.nodes() {
        let own = needs.get(node).copied().unwrap_or(0);
        let least = least_by_arc(inst, needs, node, own);
        if least < own {
            put(needs, node, least);
            is_lower = true;
        }
    }
    is_lower
}

/// The least level with which a vehicle can go on by one arc, at most `most`.
fn least_by_arc(inst: &Instance, needs: &[u64], from: usize, most: u64) -> u64
    requires { from < node_count inst.now }
{
    let mut least = most;
    for (to, need) in needs.iter().enumerate() {
        if to < inst.nodes() {
            least = least.min(level_before(inst, from, to, *need));
        }
    }
    least
}

/// The level before an arc, by the level that its end needs, the reserve, and that at home.
fn level_before(inst: &Instance, from: usize, to: usize, need: u64) -> u64
    requires left { from < node_count inst.now }
    requires reached { to < node_count inst.now }
{
    let mut least = need.max(inst.min_q());
    if to == 0 {
        least = least.max(inst.home_q());
    }
    inst.energy(from, to).saturating_add(least)
}
