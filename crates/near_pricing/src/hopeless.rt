//! The labels of the entries of a table.

ghost use Rattle.std.specs.Prelude.{◌≡◌, ◌<◌, ◌≤◌, IfOk, OnOk, length};
ghost use Rattle.std.specs.List.{All};
ghost use Rattle.ev_model.specs.Network.{node_count};
ghost use Rattle.instance_reader.specs.Instance.{customer_nodes, most_customers};
ghost use Rattle.near_proof.specs.Ranges.{AreAmong, NearLabelFits};

use crate::value::value_after;
use completion_bounds::{Completion, HomeEarnings};
use customer_sets::CustSet;
use instance_reader::Instance;
use near_proof::NearLabel;
use std::alloc::{AllocError, Global};

/// The most that a label has earned.
const MOST_EARNED: u128 = 1 << 96;

/// States at a node from which no way home earns.
#[derive(Clone, Copy)]
struct States {
    node: usize,
    /// Whom each of them remembers.
    memory: CustSet,
    /// The least time of each, less what its level is worth.
    least: i128,
    /// The most that a way home earns from there.
    rest: i128,
}

impl States {
    fn new(node: usize, memory: CustSet, least: i128, rest: i128) -> States
        ensures node { result.node ≡ node }
        ensures memory { result.memory ≡ memory }
    {
        States {
            node,
            memory,
            least,
            rest,
        }
    }

    /// Whether those of the layer above, which begin earlier, have a label that covers these, by
    /// what ways home earn there. Where a label begins before time 0 at low levels, it covers none
    /// there that has earned something.
    fn are_told(&self, earlier: i128, above: Option<i128>) -> bool {
        let Some(rest) = above else {
            return false;
        };
        let begin = earlier.max(rest);
        rest == self.rest && (begin >= 0 || begin == self.least.max(rest))
    }
}

/// Labels that cover the states that a table leaves out, as far as the limit lets them be. The
/// table is that of the instance, with the limit as its horizon and a weight of 0 or 1.
pub(crate) fn hopeless_labels(
    alloc: Global,
    inst: &Instance,
    table: &Completion,
) -> Result<Vec<NearLabel>, AllocError>
    requires few { length (customer_nodes inst.now) ≤ most_customers }
    ensures { IfOk result (λ labels. All (NearLabelFits inst.now) labels.items) }
{
    let mut labels = Vec::new(alloc);
    for node in 0..inst.nodes() {
        push_labels_at(alloc, &mut labels, inst, table, node)?;
    }
    Ok(labels)
}

/// Appends the labels at a node.
fn push_labels_at(
    alloc: Global,
    labels: &mut Vec<NearLabel>,
    inst: &Instance,
    table: &Completion,
    node: usize,
) -> Result<(), AllocError>
    requires few { length (customer_nodes inst.now) ≤ most_customers }
    requires node { node < node_count inst.now }
    requires labels { All (NearLabelFits inst.now) labels.old.items }
    ensures { OnOk result (All (NearLabelFits inst.now) labels.new.items) }
{
    let layers = table.rests(node).len();
    for layer in 0..layers {
        push_labels_in(alloc, labels, inst, table, node, layer)?;
    }
    Ok(())
}

/// Appends the labels of a layer at a node.
fn push_labels_in(
    alloc: Global,
    labels: &mut Vec<NearLabel>,
    inst: &Instance,
    table: &Completion,
    node: usize,
    layer: usize,
) -> Result<(), AllocError>
    requires few { length (customer_nodes inst.now) ≤ most_customers }
    requires node { node < node_count inst.now }
    requires labels { All (NearLabelFits inst.now) labels.old.items }
    ensures { OnOk result (All (NearLabelFits inst.now) labels.new.items) }
{
    let rests = table.rests(node);
    let Some(rest) = rests.get(layer) else {
        return Ok(());
    };
    let above = match layer.checked_add(1) {
        Some(next) => rests.get(next),
        None => None,
    };
    let own = own_memory(inst, node);
    let least = earliest(inst, table, layer as u64);
    let best = States::new(node, own, least, rest.best);
    push_untold(alloc, labels, inst, table, best, layer, best_of(above))?;
    if !has_second(rest) {
        return Ok(());
    }
    let memory = with_known(inst, own, rest.first);
    let second = States::new(node, memory, least, rest.second);
    push_untold(
        alloc,
        labels,
        inst,
        table,
        second,
        layer,
        second_above(rest, above),
    )
}

/// Appends the label of states of a layer, unless that of the layer above covers them, by what ways
/// home earn there.
fn push_untold(
    alloc: Global,
    labels: &mut Vec<NearLabel>,
    inst: &Instance,
    table: &Completion,
    states: States,
    layer: usize,
    above: Option<i128>,
) -> Result<(), AllocError>
    requires node { states.node < node_count inst.now }
    requires memory { AreAmong (length (customer_nodes inst.now)) states.memory }
    requires labels { All (NearLabelFits inst.now) labels.old.items }
    ensures { OnOk result (All (NearLabelFits inst.now) labels.new.items) }
{
    let next = (layer as u64).saturating_add(1);
    if states.are_told(earliest(inst, table, next), above) {
        return Ok(());
    }
    push_label(alloc, labels, inst, table, states)
}

/// What the layer above says of all ways.
fn best_of(above: Option<&HomeEarnings>) -> Option<i128> {
    match above {
        Some(above) => Some(above.best),
        None => None,
    }
}

/// The least time in a layer, less what the level is worth: not less than that of the start.
fn earliest(inst: &Instance, table: &Completion, layer: u64) -> i128 {
    let worth = i128::from(table.rate()).saturating_mul(i128::from(inst.max_q()));
    table.least_time(layer).max(worth.saturating_neg())
}

/// Whether ways that begin with another customer than the first one earn less.
fn has_second(rest: &HomeEarnings) -> bool {
    rest.first.is_some() && rest.second < rest.best
}

/// What the layer above says of ways that begin with another customer than the first one, where it
/// has the same first one.
fn second_above(rest: &HomeEarnings, above: Option<&HomeEarnings>) -> Option<i128> {
    let above = above?;
    if above.first == rest.first {
        Some(above.second)
    } else {
        None
    }
}

/// Whom each vehicle at a node remembers: the customer there.
fn own_memory(inst: &Instance, node: usize) -> CustSet
    requires few { length (customer_nodes inst.now) ≤ most_customers }
    requires node { node < node_count inst.now }
    ensures { AreAmong (length (customer_nodes inst.now)) result }
{
    with_known(inst, CustSet::empty(), inst.customer_number(node))
}

/// A set with a customer, if there is one.
fn with_known(inst: &Instance, set: CustSet, customer: Option<usize>) -> CustSet
    requires few { length (customer_nodes inst.now) ≤ most_customers }
    requires set { AreAmong (length (customer_nodes inst.now)) set }
    ensures { AreAmong (length (customer_nodes inst.now)) result }
{
    match customer {
        Some(number) => {
            if number < inst.customers().len() {
                set.with(number)
            } else {
                set
            }
        }
        None => set,
    }
}

/// Appends the label of states, unless the limit lets none of them be.
fn push_label(
    alloc: Global,
    labels: &mut Vec<NearLabel>,
    inst: &Instance,
    table: &Completion,
    states: States,
) -> Result<(), AllocError>
    requires node { states.node < node_count inst.now }
    requires memory { AreAmong (length (customer_nodes inst.now)) states.memory }
    requires labels { All (NearLabelFits inst.now) labels.old.items }
    ensures { OnOk result (All (NearLabelFits inst.now) labels.new.items) }
{
    let Some((time, earned)) = time_and_earned(table.weight(), states.least, states.rest) else {
        return Ok(());
    };
    let Some(value) = value_after(alloc, inst, table.rate(), time)? else {
        return Ok(());
    };
    labels.push(NearLabel {
        node: states.node,
        memory: states.memory,
        count: 0,
        earned: earned.min(MOST_EARNED),
        value,
    })?;
    Ok(())
}

/// The least time beside what the level is worth, and what a label has earned there, so that ways
/// home that earn `rest` at the most don't pay.
fn time_and_earned(weight: u64, least: i128, rest: i128) -> Option<(i128, u128)> {
    if weight == 0 {
        return u128::try_from(rest.checked_neg()?).ok().map(|e| (least, e));
    }
    let time = least.max(rest);
    let earned = time.checked_sub(rest)?;
    Some((time, u128::try_from(earned).unwrap_or(0)))
}
