//! The word of a route.

ghost use Rattle.std.specs.Prelude.{◌≡◌, ◌≢◌, ◌<◌, ◌≤◌, [], ◌∷◌, ◌++◌, Ok, Err, IfErr, IfOk, OnErr, OnOk, length};
ghost use Rattle.ev_model.specs.Network.{node_count};
ghost use Rattle.ev_model.specs.Route.{IsRoute};
ghost use Rattle.ev_text.specs.Scans.{rest_of};
ghost use Rattle.route_plan.specs.RouteRules.{first_again, first_inner_depot, first_unknown, has_ends, route_fault, route_in};
ghost use Rattle.route_plan.specs.RouteWords.{read_comma, read_next, read_node, nodes_in, SpellsRoute};

use ev_text::Scan;
use instance_reader::Instance;
use std::alloc::{AllocFailed, Global};

/// The first broken rule of the word of a route. `at` of `Text` is a byte of the word, elsewhere it
/// is a position in the route; both are counted from 0.
#[derive(Clone, Copy, Debug, Drop, PartialEq, Eq)]
pub enum RouteFault {
    /// A number or a comma was expected at this byte. A number past 10^9 or with a leading zero is
    /// none.
    Text { at: usize },
    /// There are more than 400 nodes.
    TooLong,
    /// The node isn't in the instance.
    Unknown { at: usize },
    /// There are fewer than two nodes, or the first or the last isn't the depot.
    Ends,
    /// The depot stands between the ends.
    InnerDepot { at: usize },
    /// The node equals the one before it.
    Again { at: usize },
    /// Memory was refused.
    Memory,
}

/// The greatest number of a node.
const GREATEST_NODE: u128 = 1_000_000_000;

/// The most nodes of a route.
const MOST_NODES: usize = 400;

/// The route of a word: decimal numbers joined by single commas, from the depot to the depot. A
/// station may stand in a route, and a customer may stand there more than once.
///
/// The first broken rule is answered, as [`RouteFault`] lists them.
pub fn read_route(alloc: Global, word: &str, inst: &Instance) -> Result<Vec<usize>, RouteFault>
    ensures ok { IfOk result (λ nodes. route_in (node_count inst.now) word.now ≡ Ok nodes.items) }
    ensures route { IfOk result (λ nodes. IsRoute inst.now nodes.items) }
    ensures spelled { IfOk result (λ nodes. SpellsRoute word.now nodes.items) }
    ensures fault { IfErr result (λ fault. fault ≢ RouteFault.Memory →
        route_in (node_count inst.now) word.now ≡ Err fault) }
{
    let nodes = read_nodes(alloc, word.as_bytes())?;
    match first_fault(nodes.as_slice(), inst.nodes()) {
        Some(fault) => Err(fault),
        None => Ok(nodes),
    }
}

/// The nodes of a word.
fn read_nodes(alloc: Global, word: &[u8]) -> Result<Vec<usize>, RouteFault>
    ensures ok { IfOk result (λ nodes. nodes_in word.now ≡ Ok nodes.items) }
    ensures fault { IfErr result (λ fault. fault ≢ RouteFault.Memory →
        nodes_in word.now ≡ Err fault) }
{
    let mut scan = Scan::new(word);
    let mut nodes = Vec::new(alloc);
    let first = take_node(&mut scan)?;
    push_node(&mut nodes, first)?;
    while !scan.is_end() {
        let next = take_next(&mut scan)?;
        push_node(&mut nodes, next)?;
    }
    Ok(nodes)
}

/// Takes the number of a node.
fn take_node(scan: &mut Scan<'_>) -> Result<usize, RouteFault>
    ensures ok { IfOk result (λ node. read_node scan.old ≡ Ok (node, scan.new)) }
    ensures fault { IfErr result (λ fault. read_node scan.old ≡ Err fault) }
    ensures no_longer { OnOk result (length (rest_of scan.new) ≤ length (rest_of scan.old)) }
{
    let at = scan.place();
    match scan.whole(GREATEST_NODE) {
        Ok(node) => Ok(node as usize),
        Err(_) => Err(RouteFault::Text { at }),
    }
}

/// Takes a comma.
fn take_comma(scan: &mut Scan<'_>) -> Result<(), RouteFault>
    ensures ok { OnOk result (read_comma scan.old ≡ Ok scan.new) }
    ensures fault { IfErr result (λ fault. read_comma scan.old ≡ Err fault) }
    ensures shorter { OnOk result (length (rest_of scan.new) < length (rest_of scan.old)) }
{
    let at = scan.place();
    match scan.word(b",") {
        Ok(()) => Ok(()),
        Err(_) => Err(RouteFault::Text { at }),
    }
}

/// Takes a comma and the number of the next node.
fn take_next(scan: &mut Scan<'_>) -> Result<usize, RouteFault>
    ensures ok { IfOk result (λ node. read_next scan.old ≡ Ok (node, scan.new)) }
    ensures fault { IfErr result (λ fault. read_next scan.old ≡ Err fault) }
    ensures shorter { OnOk result (length (rest_of scan.new) < length (rest_of scan.old)) }
{
    take_comma(scan)?;
    take_node(scan)
}

/// Appends a node.
fn push_node(nodes: &mut Vec<usize>, node: usize) -> Result<(), RouteFault>
    ensures ok { OnOk result (nodes.new.items ≡ nodes.old.items ++ node ∷ []) }
    ensures memory { IfErr result (λ fault. fault ≡ RouteFault.Memory) }
{
    match nodes.push(node) {
        Ok(()) => Ok(()),
        Err(AllocFailed { .. }) => Err(RouteFault::Memory),
    }
}

/// The first broken rule of the nodes of a route, in a network of `count` nodes.
fn first_fault(nodes: &[usize], count: usize) -> Option<RouteFault>
    ensures { result ≡ route_fault count nodes.now }
{
    if nodes.len() > MOST_NODES {
        return Some(RouteFault::TooLong);
    }
    if let Some(at) = unknown(nodes, count) {
        return Some(RouteFault::Unknown { at });
    }
    if !ends(nodes) {
        return Some(RouteFault::Ends);
    }
    if let Some(at) = inner_depot(nodes) {
        return Some(RouteFault::InnerDepot { at });
    }
    match again(nodes) {
        Some(at) => Some(RouteFault::Again { at }),
        None => None,
    }
}

/// The first position whose node isn't below `count`.
fn unknown(nodes: &[usize], count: usize) -> Option<usize>
    ensures { result ≡ first_unknown count 0 nodes.now }
{
    for (at, node) in nodes.iter().enumerate() {
        if *node >= count {
            return Some(at);
        }
    }
    None
}

/// Whether there are at least two nodes and the first and the last are the depot.
fn ends(nodes: &[usize]) -> bool
    ensures { result ≡ has_ends nodes.now }
{
    match nodes {
        [] | [_] => false,
        [first, ..] => *first == 0 && nodes[nodes.len() - 1] == 0,
    }
}

/// The first position of the depot between the ends.
fn inner_depot(nodes: &[usize]) -> Option<usize>
    ensures { result ≡ first_inner_depot nodes.now }
{
    for at in 1..nodes.len().saturating_sub(1) {
        if nodes[at] == 0 {
            return Some(at);
        }
    }
    None
}

/// The first position whose node equals the one before.
fn again(nodes: &[usize]) -> Option<usize>
    ensures { result ≡ first_again 1 nodes.now }
{
    for at in 0..nodes.len().saturating_sub(1) {
        if nodes[at + 1] == nodes[at] {
            return Some(at + 1);
        }
    }
    None
}
