//! The arcs on from a node, as the table takes them.

ghost use Rattle.std.specs.Prelude.{◌<◌};
ghost use Rattle.ev_model.specs.Network.{node_count};

use crate::terms::Terms;
use std::alloc::{AllocError, Global};

/// Where an arc leads.
#[derive(Clone, Copy, Debug, PartialEq, Eq)]
pub enum End {
    Home,
    Station,
    /// To the customer with a number.
    Customer(usize),
}

/// An arc.
#[derive(Clone, Copy)]
pub struct Leg {
    /// The node at its end.
    pub to: usize,
    pub end: End,
    /// By so many layers the budget falls at the least.
    pub(crate) down: u64,
    /// What serving the customer at its end earns, less the arc's cost times the weight.
    pub(crate) gain: i128,
    /// Whether the customer at its end remembers the one at its beginning.
    pub(crate) is_remembered: bool,
}

/// The arcs on from a node.
#[derive(Drop)]
pub struct Legs {
    /// The number of the customer at the node.
    pub customer: Option<usize>,
    pub(crate) is_station: bool,
    pub all: Vec<Leg>,
}

/// What the arcs cost, and how many layers that are.
#[derive(Clone, Copy)]
pub(crate) struct Costs<'a> {
    pub(crate) all: &'a [Vec<u64>],
    /// What a unit of level is worth.
    pub(crate) rate: u64,
    /// The budget of a layer.
    pub(crate) step: u64,
}

/// The arcs on from each node, by node.
pub(crate) fn all_legs(
    alloc: Global,
    terms: &Terms<'_>,
    costs: Costs<'_>,
) -> Result<Vec<Legs>, AllocError> {
    let mut all = Vec::new(alloc);
    for (node, row) in costs.all.iter().enumerate() {
        if node < terms.inst.nodes() {
            all.push(Legs {
                customer: terms.inst.customer_number(node),
                is_station: terms.inst.curve_at(node).is_some(),
                all: legs_from(alloc, terms, costs, node, row)?,
            })?;
        }
    }
    Ok(all)
}

/// The arcs on from a node, by what they cost.
fn legs_from(
    alloc: Global,
    terms: &Terms<'_>,
    costs: Costs<'_>,
    node: usize,
    row: &[u64],
) -> Result<Vec<Leg>, AllocError>
    requires { node < node_count terms.now.inst.now }
{
    let mut legs = Vec::new(alloc);
    if may_go_home(terms, node) {
        let level = terms.inst.min_q().max(terms.inst.home_q());
        let worth = costs.rate.saturating_mul(level);
        let arc = row.first().copied().unwrap_or(u64::MAX);
        legs.push(leg_of(terms, costs, arc.saturating_add(worth), 0, End::Home))?;
    }
    for (to, cost) in row.iter().enumerate() {
        if to < terms.inst.nodes() && to != node {
            if let Some(end) = end_at(terms, node, to) {
                let mut next = leg_of(terms, costs, *cost, to, end);
                next.is_remembered = is_remembered(terms, node, end);
                legs.push(next)?;
            }
        }
    }
    Ok(legs)
}

/// Whether a way home may go on from a node by the arc home. Who was served last isn't known at a
/// station.
fn may_go_home(terms: &Terms<'_>, node: usize) -> bool
    requires { node < node_count terms.now.inst.now }
{
    if node == 0 {
        return false;
    }
    match terms.inst.customer_number(node) {
        Some(customer) => terms.may_end(customer),
        None => true,
    }
}

/// Where the arc between two nodes leads, if a way may take it.
fn end_at(terms: &Terms<'_>, from: usize, to: usize) -> Option<End>
    requires left { from < node_count terms.now.inst.now }
    requires reached { to < node_count terms.now.inst.now }
{
    if terms.inst.curve_at(to).is_some() {
        return Some(End::Station);
    }
    let customer = terms.inst.customer_number(to)?;
    if terms.inst.curve_at(from).is_none() {
        let last = terms.inst.customer_number(from);
        if !terms.may_follow(last, customer) {
            return None;
        }
    }
    Some(End::Customer(customer))
}

/// Whether the customer at the end of an arc remembers the one at the node where it begins.
fn is_remembered(terms: &Terms<'_>, node: usize, end: End) -> bool
    requires { node < node_count terms.now.inst.now }
{
    let Some(own) = terms.inst.customer_number(node) else {
        return false;
    };
    match end {
        End::Customer(customer) => terms.remembers(customer, own),
        End::Home | End::Station => true,
    }
}

/// An arc that costs so much.
fn leg_of(terms: &Terms<'_>, costs: Costs<'_>, cost: u64, to: usize, end: End) -> Leg {
    let mut price = 0;
    if let End::Customer(customer) = end {
        price = terms.price(customer);
    }
    let paid = u128::from(terms.weight) * u128::from(cost);
    Leg {
        to,
        end,
        down: cost.checked_div(costs.step).unwrap_or(u64::MAX),
        gain: price.saturating_sub(i128::try_from(paid).unwrap_or(i128::MAX)),
        is_remembered: true,
    }
}
