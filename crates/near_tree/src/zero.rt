//! The tree that each instance has, which shows that no fleet plan costs less than 0.

ghost use Rattle.std.specs.Prelude.{◌≡◌, ◌∷◌, ◌<◌, ◌≤◌, [], All, IfOk, length, map, pos};
ghost use Rattle.customer_sets.specs.SetBelow.{IsSetBelow};
ghost use Rattle.ev_model.specs.Network.{node_count};
ghost use Rattle.instance_reader.specs.Instance.{customer_nodes};
ghost use Rattle.near_tree.specs.OneLeaf.{last_at};
ghost use Rattle.near_tree.specs.Preorder.{last_of, leaf_label};
ghost use Rattle.near_tree.specs.Ranges.{LastFits, SectionLabelFits};
ghost use Rattle.near_tree.specs.Zero.{HasKeptMemory, IsZeroSection, IsZeroTree, singles, zero_label, zero_labels};

use crate::{LastServed, LeafSection, SectionLabel, TreeNode, TreeProof};
use customer_sets::LargeSet;
use ev_list::Listed;
use instance_reader::Instance;
use piece_fn::PieceFn;
use std::alloc::{AllocError, Global};

/// A tree of one leaf with the bound 0, which every instance accepts: no customer earns anything,
/// and at each node stands a label with a full battery at once.
///
/// It is what is left to be said where nothing better is known. The only `Err` is want of memory.
pub fn zero_tree(alloc: Global, inst: &Instance) -> Result<TreeProof, AllocError>
    ensures { IfOk result (IsZeroTree inst.now) }
{
    // That there is a node is told by this call.
    let _nodes = inst.nodes();
    let section = zero_section(alloc, inst)?;
    let mut nodes = Vec::new(alloc);
    nodes.push(TreeNode::Leaf(section))?;
    Ok(TreeProof {
        bound: Some(0),
        nodes: Listed::from_vec(nodes),
    })
}

/// The section at which nothing is earned.
fn zero_section(alloc: Global, inst: &Instance) -> Result<LeafSection, AllocError>
    ensures { IfOk result (IsZeroSection inst.now) }
{
    // How many nodes an instance has at most is told by this call.
    let _nodes = inst.nodes();
    let prices = no_prices(alloc, inst)?;
    let sets = own_sets(alloc, inst)?;
    let labels = full_labels(alloc, inst)?;
    Ok(LeafSection {
        weight: 1,
        prices: Listed::from_vec(prices),
        sets: Listed::from_vec(sets),
        entry_prices: Listed::new(alloc),
        labels: Listed::from_vec(labels),
    })
}

/// A price of 0 for each customer.
fn no_prices(alloc: Global, inst: &Instance) -> Result<Vec<i128>, AllocError>
    ensures one { IfOk result (λ prices.
        length prices.items ≡ length (customer_nodes inst.now)) }
    ensures none { IfOk result (λ prices. All (λ p. p ≡ pos 0) prices.items) }
{
    let mut prices = Vec::new(alloc);
    for _number in 0..inst.customers().len() {
        prices.push(0)?;
    }
    Ok(prices)
}

/// For each customer the set of the customer alone.
fn own_sets(alloc: Global, inst: &Instance) -> Result<Vec<LargeSet>, AllocError>
    ensures sets { IfOk result (λ sets.
        sets.items ≡ singles (length (customer_nodes inst.now))) }
    ensures kept { IfOk result (λ sets. All (IsSetBelow 448) sets.items) }
{
    // How many nodes an instance has at most is told by this call.
    let _nodes = inst.nodes();
    let mut sets = Vec::new(alloc);
    for number in 0..inst.customers().len() {
        sets.push(own_set(number))?;
    }
    Ok(sets)
}

/// The set of a customer alone.
fn own_set(number: usize) -> LargeSet
    requires { number < 448 }
    ensures value { result ≡ number ∷ [] }
    ensures kept { IsSetBelow 448 result }
{
    let set = LargeSet::empty().with(number);
    // That it is a set is told by this call.
    let _members = set.len();
    set
}

/// For each node a label with a full battery at once.
fn full_labels(alloc: Global, inst: &Instance) -> Result<Vec<SectionLabel>, AllocError>
    ensures labels { IfOk result (λ labels.
        map leaf_label labels.items ≡ zero_labels inst.now (node_count inst.now)) }
    ensures fit { IfOk result (λ labels. All (SectionLabelFits inst.now) labels.items) }
    ensures kept { IfOk result (λ labels. All HasKeptMemory labels.items) }
{
    let mut labels = Vec::new(alloc);
    for node in 0..inst.nodes() {
        labels.push(full_label(alloc, inst, node))?;
    }
    Ok(labels)
}

/// A label with a full battery at once.
fn full_label(alloc: Global, inst: &Instance, node: usize) -> SectionLabel
    requires { node < node_count inst.now }
    ensures label { leaf_label result ≡ zero_label inst.now node }
    ensures fits { SectionLabelFits inst.now result }
    ensures kept { HasKeptMemory result }
{
    let memory = LargeSet::empty();
    // That it is a set is told by this call.
    let _members = memory.len();
    SectionLabel {
        node,
        last: last_at(inst, node),
        memory,
        earned: 0,
        value: PieceFn::point(alloc, inst.max_q(), 0),
    }
}

/// Whom a vehicle at a node served last: at a customer's node that customer, at a station anybody,
/// and nobody yet at a depot that is none.
fn last_at(inst: &Instance, node: usize) -> LastServed
    requires { node < node_count inst.now }
    ensures last { last_of result ≡ last_at inst.now node }
    ensures fits { LastFits inst.now node result }
{
    match inst.customer_number(node) {
        Some(number) => LastServed::Customer(number),
        None => match inst.curve_at(node) {
            Some(_) => LastServed::Anybody,
            None => LastServed::Nobody,
        },
    }
}
