//! Which customer no vehicle reaches, where there is no plan of a fleet.

use ev_outside::{FileShelf, Shelf};
use frvcp_labels::solve_route;
use instance_reader::{Instance, MOST_BYTES, read_instance};
use plain_words::{Instances, JobNames, are_regular};
use route_plan::read_route;
use std::alloc::{AllocError, Global};
use std::rt::Files;

/// What is said where there is no plan of a fleet, of the instances that can be read again: nothing
/// of those that are no regular files, since a pipe gives its bytes once.
pub fn told_reach<R: Files>(
    alloc: Global,
    files: &R,
    names: &JobNames<'_>,
) -> Result<Option<String>, AllocError> {
    if !are_regular(files, names.instances) {
        return Ok(None);
    }
    let mut shelf = FileShelf::new(alloc, files);
    out_of_reach(alloc, &mut shelf, names.instances, names.limit)
}

/// What is said where there is no plan of a fleet: a customer whom no route of its own serves, by a
/// vehicle of any kind, the first in order of nodes. There is one, since routes of their own for
/// all customers are such a plan. `None` where the instances can't be read again.
pub fn out_of_reach<S: Shelf>(
    alloc: Global,
    shelf: &mut S,
    instances: Instances<'_>,
    limit: Option<u64>,
) -> Result<Option<String>, AllocError> {
    let Some(kinds) = read_again(alloc, shelf, instances, limit)? else {
        return Ok(None);
    };
    match unreached(alloc, kinds.as_slice())? {
        Some(node) => {
            let files = instances.one_of(alloc)?;
            Ok(Some(format!(in alloc;
                "{files}: no route of its own serves customer {node} within the limit"
            )?))
        }
        None => Ok(None),
    }
}

/// The instances of files, where all of them can be read.
fn read_again<S: Shelf>(
    alloc: Global,
    shelf: &mut S,
    instances: Instances<'_>,
    limit: Option<u64>,
) -> Result<Option<Vec<Instance>>, AllocError> {
    let mut kinds = Vec::new(alloc);
    for at in 0..instances.count() {
        let Some(file) = instances.at(at) else {
            return Ok(None);
        };
        match instance_of(alloc, shelf, file, limit) {
            Some(inst) => kinds.push(inst)?,
            None => return Ok(None),
        }
    }
    Ok(Some(kinds))
}

/// The first customer whom no route of its own serves by any of these kinds of vehicles.
fn unreached(alloc: Global, kinds: &[Instance]) -> Result<Option<usize>, AllocError> {
    let Some(first) = kinds.first() else {
        return Ok(None);
    };
    for node in first.customers() {
        if !is_served_by_any(alloc, kinds, *node)? {
            return Ok(Some(*node));
        }
    }
    Ok(None)
}

/// Whether some kind of vehicles serves the customer at a node by a route of its own.
fn is_served_by_any(alloc: Global, kinds: &[Instance], node: usize) -> Result<bool, AllocError> {
    for inst in kinds {
        if is_served_alone(alloc, inst, node)? {
            return Ok(true);
        }
    }
    Ok(false)
}

/// The instance of a file, with the limit of the words where they give one.
fn instance_of<S: Shelf>(
    alloc: Global,
    shelf: &mut S,
    file: &str,
    limit: Option<u64>,
) -> Option<Instance> {
    let mut bytes = Vec::new(alloc);
    shelf.read(file, MOST_BYTES, &mut bytes).ok()?;
    let inst = read_instance(alloc, bytes.as_slice()).ok()?;
    match limit {
        Some(limit) => inst.with_limit(limit).ok(),
        None => Some(inst),
    }
}

/// Whether the customer at a node can be served by a route of its own.
fn is_served_alone(alloc: Global, inst: &Instance, node: usize) -> Result<bool, AllocError> {
    let word = format!(in alloc; "0,{node},0")?;
    match read_route(alloc, word.as_str(), inst) {
        Ok(route) => Ok(solve_route(alloc, inst, route.as_slice(), inst.max_q())?.is_some()),
        Err(_) => Ok(true),
    }
}
