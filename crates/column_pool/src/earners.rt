//! Who finds a node's routes that earn.

ghost use Rattle.std.specs.Prelude.{◌≡◌, ◌≤◌, IfOk, length};
ghost use Rattle.instance_reader.specs.Instance.{customer_nodes, most_customers};
ghost use Rattle.route_pool.specs.Pool.{IsPool};

use crate::pricing_problem::earn;
use crate::route::{NodeRoute, routes_at, set_of, worth};
use customer_sets::{CustSet, Pairs};
use instance_reader::Instance;
use piece_fn::Label;
use price_loop::{Earned, Earners};
use route_pool::{ColumnPool, earning, kept_places};
use std::alloc::{AllocError, Global};
use std::marker::Model;

/// The routes that keep a node's pairs: those of a pool are at hand, further ones are priced.
/// Contracts see the node.
#[derive(Drop)]
pub(crate) struct NodeEarners<'a> {
    inst: &'a Instance,
    pairs: &'a Pairs,
    pool: &'a ColumnPool,
    /// The places in the pool of the routes that keep the pairs.
    places: Vec<usize>,
}

impl<'a> Model for NodeEarners<'a> {
    ghost use Rattle.column_pool.specs.Nodes.{Node};
    ghost use Rattle.column_pool.specs.EarnersInside.{IsEarnersOf, node_of};

    ghost Value = { Node };

    ghost view = { node_of };

    ghost invariant = { IsEarnersOf };
}

impl<'a> NodeEarners<'a> {
    /// The routes that keep the pairs.
    pub(crate) fn new(
        alloc: Global,
        inst: &'a Instance,
        pairs: &'a Pairs,
        pool: &'a ColumnPool,
    ) -> Result<NodeEarners<'a>, AllocError>
        requires few { length (customer_nodes inst.now) ≤ most_customers }
        requires pairs { pairs.now.customers ≡ length (customer_nodes inst.now) }
        requires pool { IsPool inst.now pool.now }
        ensures { IfOk result (λ earners. earners ≡ record {
          network = inst.now;
          pairs = pairs.now;
        }) }
    {
        let places = kept_places(alloc, inst, pairs, pool)?;
        Ok(NodeEarners {
            inst,
            pairs,
            pool,
            places,
        })
    }
}

impl Earners for NodeEarners<'_> {
    type Route = NodeRoute;

    type Closing = Vec<Label>;

    ghost use Rattle.column_pool.specs.Nodes.{node_problem};

    ghost problem = { λ node. node_problem node.network node.pairs };

    fn customers(&self) -> usize {
        self.inst.customers().len()
    }

    fn set(&self, route: &NodeRoute) -> CustSet {
        set_of(self.inst, route.order.as_slice())
    }

    fn cost(&self, route: &NodeRoute) -> u64 {
        route.time
    }

    fn worth(&self, route: &NodeRoute, of: &[u64]) -> u128 {
        worth(self.inst, of, route.order.as_slice())
    }

    fn at_hand(
        &self,
        alloc: Global,
        weight: u64,
        prices: &[i128],
    ) -> Result<Vec<NodeRoute>, AllocError> {
        let places = earning(alloc, self.inst, self.pool, &self.places, weight, prices)?;
        routes_at(alloc, self.inst, self.pairs, self.pool, &places)
    }

    fn earn(
        &self,
        alloc: Global,
        weight: u64,
        prices: &[i128],
    ) -> Result<Earned<NodeRoute, Vec<Label>>, AllocError> {
        earn(alloc, self.inst, self.pairs, weight, prices)
    }

    ghost once = { λ node route is. is.once };
}
