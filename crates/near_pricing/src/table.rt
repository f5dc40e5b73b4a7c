//! The table of what near routes can still earn.

ghost use Rattle.std.specs.Prelude.{◌<◌};
ghost use Rattle.ev_model.specs.Network.{node_count};

use crate::asked::Question;
use completion_bounds::{Completion, Terms};
use customer_sets::CustSet;
use instance_reader::{Instance, MOST_CUSTOMERS};
use near_proof::NearLabel;
use std::alloc::{AllocError, Global};

/// About so many layers has the table.
const LAYERS: u64 = 100;

/// The table of a question. A search leaves out what can't earn by it; no promise rests on it.
pub(crate) fn completion_of(
    alloc: Global,
    pricing: &Question<'_>,
) -> Result<Completion, AllocError> {
    let terms = pricing.terms();
    let mut prices = Vec::new(alloc);
    for price in terms.prices {
        prices.push(i128::from(*price))?;
    }
    table_of(alloc, pricing.instance(), terms.weight, &prices, terms.sets)
}

/// The table of an instance by a weight, prices and near sets.
fn table_of<'a>(
    alloc: Global,
    inst: &'a Instance,
    weight: u64,
    prices: &'a [i128],
    sets: &'a [CustSet],
) -> Result<Completion, AllocError> {
    let terms = Terms {
        inst,
        weight,
        prices,
        sets,
        turns: None,
        horizon: inst.scaled_limit(),
        layers: LAYERS,
    };
    Completion::new(alloc, &terms)
}

/// Whether no way home earns from behind the arc from a label with a budget to a customer, by the
/// table, whoever else is remembered there. It spares most steps the look at who is.
pub(crate) fn is_left_out(
    pricing: &Question<'_>,
    table: &Completion,
    from: &NearLabel,
    node: usize,
    budget: u64,
) -> bool
    requires { node < node_count pricing.now.network }
{
    let Some(customer) = pricing.instance().customer_number(node) else {
        return false;
    };
    if customer >= MOST_CUSTOMERS {
        return false;
    }
    let price = pricing.terms().prices.get(customer).copied().unwrap_or(0);
    let earned = from.earned.saturating_add(u128::from(price));
    let memory = CustSet::empty().with(customer);
    table.leaves_out(budget, from.node, node, memory, signed(earned))
}

/// A number with a sign, the greatest one at the most.
pub(crate) fn signed(number: u128) -> i128 {
    i128::try_from(number).unwrap_or(i128::MAX)
}
