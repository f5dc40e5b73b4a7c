//! Where the steps from a label lead.

ghost use Rattle.std.specs.Prelude.{◌≡◌, ◌<◌, ℕ, IfNone, IfSome, List, length};
ghost use Rattle.ev_model.specs.Network.{node_count};
ghost use Rattle.instance_reader.specs.Instance.{customer_nodes};
ghost use Rattle.near_pricing.specs.Placed.{CanStep, IsPlaced, IsServedAt};
ghost use Rattle.label_search.specs.Steps.{Leads};
ghost use Rattle.near_pricing.specs.Labels.{near_space, with_value};

use crate::asked::Question;
use customer_sets::CustSet;
use near_proof::{NearLabel, remembered};

/// Where a step leads: what is common to the labels behind it.
#[derive(Clone, Copy, Drop)]
pub(crate) struct Target {
    /// The customers that are remembered.
    pub(crate) memory: CustSet,
    /// How many services there were.
    pub(crate) count: usize,
    /// What was earned by them.
    pub(crate) earned: u128,
}

/// Where the step from a label to a node leads, if one may be made: to a station, or to a customer
/// who isn't remembered, after fewer services than there are customers. It takes no memory.
pub(crate) fn target_at(pricing: &Question<'_>, from: &NearLabel, node: usize) -> Option<Target>
    requires label { IsPlaced pricing.now.network from.now }
    requires node { node < node_count pricing.now.network }
    ensures leads { IfSome result (λ t. (value : List (ℕ × ℕ)) →
        Leads (near_space pricing.now) from.now (with_value t node value)) }
    ensures none { IfNone result (CanStep pricing.now.network from.now node → ⊥) }
{
    if node == from.node {
        return None;
    }
    let inst = pricing.instance();
    if inst.curve_at(node).is_some() {
        return Some(Target {
            memory: from.memory,
            count: from.count,
            earned: from.earned,
        });
    }
    let Some(customer) = inst.customer_number(node) else {
        return None;
    };
    if from.memory.has(customer) {
        return None;
    }
    if from.count >= inst.customers().len() {
        return None;
    }
    Some(after_service(pricing, from, customer))
}

/// What is common to the labels after serving a customer.
fn after_service(pricing: &Question<'_>, from: &NearLabel, customer: usize) -> Target
    requires label { IsPlaced pricing.now.network from.now }
    requires known { customer < length (customer_nodes pricing.now.network) }
    requires fewer { from.now.count < length (customer_nodes pricing.now.network) }
    ensures { IsServedAt pricing.now from.now customer result }
{
    let terms = pricing.terms();
    Target {
        memory: remembered(from.memory, terms.sets[customer], customer),
        count: from.count + 1,
        earned: from.earned + u128::from(terms.prices[customer]),
    }
}
