//! The bound of a node whose pairs are decided: at most one order of customers is left that serves
//! a customer, so that the fleet plan of the node is found customer by customer.

ghost use Rattle.std.specs.Prelude.{◌≡◌, ◌+◌, ◌++◌, ◌∷◌, ◌<◌, ◌≤◌, [], IfOk, IfSome, length, true};
ghost use Rattle.customer_sets.specs.Pairs.{IsDecided};
ghost use Rattle.ev_model.specs.Network.{is_customer, node_count};
ghost use Rattle.fleet_model.specs.Places.{customer_number};
ghost use Rattle.instance_reader.specs.Instance.{customer_nodes, most_customers};
ghost use Rattle.column_pool.specs.Bounds.{IsBoundOfDecided, IsNodeBound};
ghost use Rattle.column_pool.specs.Chains.{AreChains, HasChains, IsChainThrough, is_served, lone_price, serves};
ghost use Rattle.route_pool.specs.Pool.{IsGrown, IsPool};

use crate::bound::NodeBound;
use crate::section::section_of;
use bound_certificate::{Section, Share};
use customer_sets::Pairs;
use ev_list::Listed;
use frvcp_labels::solve_route;
use instance_reader::Instance;
use pricing::{Priced, Prices, price};
use route_plan::RoutePlan;
use route_pool::ColumnPool;
use std::alloc::{AllocError, Global};

/// What serves a customer.
#[derive(Drop)]
enum Chain {
    /// A fastest plan of the only order that does, with this order.
    Route { order: Vec<usize>, plan: RoutePlan },
    /// No route that keeps the pairs does.
    None { section: Section },
}

/// The chains that serve the first customers, and the prices of these customers: the first customer
/// of a chain, by number, pays for its time.
#[derive(Drop)]
struct Chains {
    shares: Vec<Share>,
    prices: Vec<i128>,
}

/// The bound of a node whose pairs are decided, in the ranges of certificates: the cost of the
/// fleet plan of its chains, or that there is none. The chains go into the pool. The only `Err` is
/// want of memory.
pub(crate) fn bound_of_decided(
    alloc: Global,
    inst: &Instance,
    pairs: &Pairs,
    pool: &mut ColumnPool,
) -> Result<NodeBound, AllocError>
    requires few { length (customer_nodes inst.now) ≤ most_customers }
    requires pairs { pairs.now.customers ≡ length (customer_nodes inst.now) }
    requires pool { IsPool inst.now pool.old }
    requires decided { IsDecided pairs.now }
    ensures bound { IfOk result (IsNodeBound inst.now pairs.now) }
    ensures decided { IfOk result (IsBoundOfDecided inst.now pairs.now) }
    ensures pool { IsPool inst.now pool.new }
    ensures grown { IsGrown inst.now pool.old pool.new }
{
    let mut chains = Chains {
        shares: Vec::new(alloc),
        prices: Vec::new(alloc),
    };
    for (number, node) in inst.customers().iter().enumerate() {
        if let Some(section) = chains.serve(alloc, inst, pairs, pool, number, *node)? {
            return Ok(NodeBound::Empty { section });
        }
    }
    chains.into_bound(alloc, inst, pairs)
}

impl Chains {
    /// Adds what serves the next customer, or answers that there is nothing that does.
    fn serve(
        &mut self,
        alloc: Global,
        inst: &Instance,
        pairs: &Pairs,
        pool: &mut ColumnPool,
        number: usize,
        node: usize,
    ) -> Result<Option<Section>, AllocError>
        requires few { length (customer_nodes inst.now) ≤ most_customers }
        requires pairs { pairs.now.customers ≡ length (customer_nodes inst.now) }
        requires pool { IsPool inst.now pool.old }
        requires decided { IsDecided pairs.now }
        requires known { node < node_count inst.now }
        requires customer { is_customer inst.now node ≡ true }
        requires number { number ≡ customer_number inst.now node }
        requires chains { AreChains inst.now pairs.now number self.old.shares.items
            self.old.prices.items }
        ensures chains { IfOk result (HasChains inst.now pairs.now (number + 1)
            self.new.shares.items self.new.prices.items) }
        ensures pool { IsPool inst.now pool.new }
        ensures grown { IsGrown inst.now pool.old pool.new }
    {
        if is_served(&self.shares, node) {
            self.prices.push(0)?;
            return Ok(None);
        }
        match chain_through(alloc, inst, pairs, number, node)? {
            Chain::None { section } => Ok(Some(section)),
            Chain::Route { order, plan } => {
                let pooled = plan.copy(alloc)?;
                pool.put(alloc, inst, &order, pooled)?;
                self.prices.push(i128::from(plan.full_time(inst)))?;
                self.shares.push(Share { share: 1, plan })?;
                Ok(None)
            }
        }
    }

    /// The bound at the chains of all customers.
    fn into_bound(
        self,
        alloc: Global,
        inst: &Instance,
        pairs: &Pairs,
    ) -> Result<NodeBound, AllocError>
        requires few { length (customer_nodes inst.now) ≤ most_customers }
        requires pairs { pairs.now.customers ≡ length (customer_nodes inst.now) }
        requires decided { IsDecided pairs.now }
        requires chains { AreChains inst.now pairs.now (length (customer_nodes inst.now))
            self.shares.items self.prices.items }
        ensures bound { IfOk result (IsNodeBound inst.now pairs.now) }
        ensures decided { IfOk result (IsBoundOfDecided inst.now pairs.now) }
    {
        let _nodes = inst.nodes();
        let Chains { shares, prices } = self;
        let prices = Prices {
            weight: 1,
            of: prices,
        };
        match price(alloc, inst, pairs, &prices)? {
            Priced::Better { .. } => unreachable!(),
            Priced::Closed { labels } => Ok(NodeBound::Exact {
                section: section_of(pairs, prices, labels),
                over: 1,
                shares: Listed::from_vec(shares),
            }),
        }
    }
}

/// Whether one of the plans serves the customer at the node.
fn is_served(shares: &[Share], node: usize) -> bool
    ensures { result ≡ is_served node shares.now }
{
    shares.iter().any(|share| serves(&share.plan, node))
}

/// Whether the plan serves the customer at the node.
fn serves(plan: &RoutePlan, node: usize) -> bool
    ensures { result ≡ serves node plan.now.stops }
{
    let stops = plan.stops.as_slice();
    stops.iter().any(|stop| !stop.via && stop.node == node)
}

/// The chain through a customer, whose number and node are given. At a price for him alone, and
/// time for nothing, each route that serves him earns.
fn chain_through(
    alloc: Global,
    inst: &Instance,
    pairs: &Pairs,
    number: usize,
    node: usize,
) -> Result<Chain, AllocError>
    requires few { length (customer_nodes inst.now) ≤ most_customers }
    requires pairs { pairs.now.customers ≡ length (customer_nodes inst.now) }
    requires known { node < node_count inst.now }
    requires customer { is_customer inst.now node ≡ true }
    requires number { number ≡ customer_number inst.now node }
    ensures { IfOk result (IsChainThrough inst.now pairs.now node) }
{
    let prices = Prices {
        weight: 0,
        of: lone_price(alloc, inst.customers().len(), number)?,
    };
    match price(alloc, inst, pairs, &prices)? {
        Priced::Closed { labels } => Ok(Chain::None {
            section: section_of(pairs, prices, labels),
        }),
        Priced::Better { order, .. } => {
            let route = route_over(alloc, &order)?;
            let Some(plan) = solve_route(alloc, inst, &route, inst.max_q())? else {
                unreachable!();
            };
            Ok(Chain::Route { order, plan })
        }
    }
}

/// A price of 1 for one of so many customers, by number, and of 0 for the others.
fn lone_price(alloc: Global, customers: usize, number: usize) -> Result<Vec<i128>, AllocError>
    requires { number < customers }
    ensures { IfOk result (λ prices. prices.items ≡ lone_price customers number) }
{
    let mut prices = vec![in alloc; 0i128; customers]?;
    prices[number] = 1;
    Ok(prices)
}

/// The route from the depot over the nodes to the depot.
fn route_over(alloc: Global, order: &[usize]) -> Result<Vec<usize>, AllocError>
    ensures { IfOk result (λ route. route.items ≡ 0 ∷ order.now ++ 0 ∷ []) }
{
    let mut route = Vec::new(alloc);
    route.push(0)?;
    route.extend_from_slice(order)?;
    route.push(0)?;
    Ok(route)
}
