//! The pricing problem of a node: its routes that earn, or closed labels.

ghost use Rattle.std.specs.Prelude.{◌≡◌, ◌≤◌, ◌^◌, IfOk, length, unsigned_abs};
ghost use Rattle.std.specs.List.{All};
ghost use Rattle.instance_reader.specs.Instance.{customer_nodes, most_customers};
ghost use Rattle.price_loop.specs.Problems.{IsEarned};
ghost use Rattle.column_pool.specs.Nodes.{node_problem};

use crate::route::{NodeRoute, timed, timed_all};
use customer_sets::Pairs;
use instance_reader::Instance;
use piece_fn::Label;
use price_loop::Earned;
use pricing::{Priced, PricedRoute, Prices, price};
use std::alloc::{AllocError, Global};

/// Routes that keep the pairs and earn more by the prices than they take, or closed labels, which
/// show that there is none.
pub(crate) fn earn(
    alloc: Global,
    inst: &Instance,
    pairs: &Pairs,
    weight: u64,
    prices: &[i128],
) -> Result<Earned<NodeRoute, Vec<Label>>, AllocError>
    requires few { length (customer_nodes inst.now) ≤ most_customers }
    requires pairs { pairs.now.customers ≡ length (customer_nodes inst.now) }
    requires weight { weight ≤ 2 ^ 40 }
    requires one_price { length prices.now ≡ length (customer_nodes inst.now) }
    requires small { All (λ price. unsigned_abs price ≤ 2 ^ 84) prices.now }
    ensures { IfOk result (IsEarned (node_problem inst.now pairs.now) weight prices.now) }
{
    let nodes = inst.nodes();
    prove!(1 <= nodes);
    let prices = prices_of(alloc, weight, prices)?;
    match price(alloc, inst, pairs, &prices)? {
        Priced::Closed { labels } => Ok(Earned::Closed { closing: labels }),
        Priced::Better {
            plan,
            order,
            further,
        } => {
            let first = timed(inst, PricedRoute { plan, order });
            let further = timed_all(alloc, inst, further)?;
            Ok(Earned::Better { first, further })
        }
    }
}

/// The weight and the prices as pricing takes them.
fn prices_of(alloc: Global, weight: u64, prices: &[i128]) -> Result<Prices, AllocError>
    ensures weight { IfOk result (λ asked. asked.weight ≡ weight) }
    ensures of { IfOk result (λ asked. asked.of.items ≡ prices.now) }
{
    let mut of = Vec::with_capacity(alloc, prices.len())?;
    of.extend_from_slice(prices)?;
    Ok(Prices { weight, of })
}
