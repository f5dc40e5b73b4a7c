//! Routes by the order of their customers.

ghost use Rattle.std.specs.Prelude.{◌≡◌, ◌<◌, ◌↔◌, [], IfOk, IfSome, is_some, IsSome, length, OnErr, OnOk, Some};
ghost use Rattle.ev_model.specs.Feasible.{IsFeasible};
ghost use Rattle.ev_model.specs.Network.{Network};
ghost use Rattle.route_plan.specs.declared.plan.RoutePlan.{RoutePlan};
ghost use Rattle.route_pool.specs.Placed.{IsRouteAt};
ghost use Rattle.route_pool.specs.Pool.{AreApart, full_time, held, IsColumn, IsPool, IsPut, kept, orders_after, orders_of};

use crate::pooled::Pooled;
use indexmap::IndexMap;
use instance_reader::Instance;
use route_plan::RoutePlan;
use std::alloc::{AllocError, Global};
use std::marker::Model;

/// Routes by the order of their customers: for each order at most one, with a plan. They stand in
/// the order in which their orders were first seen.
///
/// Contracts see the list of the routes.
#[derive(Drop)]
pub struct ColumnPool {
    routes: IndexMap<Vec<usize>, Pooled>,
    /// The places of the routes with which a table may begin. Nothing rests on them.
    recent: Vec<usize>,
}

impl Model for ColumnPool {
    ghost use Rattle.std.specs.Prelude.{List, map};
    ghost use Rattle.pricing.specs.declared.priced.PricedRoute.{PricedRoute};
    ghost use Rattle.route_pool.specs.Pool.{route_of_entry};

    ghost Value = { List PricedRoute };

    ghost view = { λ p. map route_of_entry p.routes.entries };
}

impl ColumnPool {
    /// A pool without routes. It takes no memory.
    pub fn new(alloc: Global) -> ColumnPool
        ensures { result ≡ [] }
    {
        ColumnPool {
            routes: IndexMap::new(alloc),
            recent: Vec::new(alloc),
        }
    }

    /// Puts in a plan that serves the customers at the nodes of `order` in this order.
    ///
    /// Afterwards the pool has the plan for this order where it had none of this order or a slower
    /// one, and else the one that it had; all other routes stay. After a refusal the pool is as
    /// before.
    pub fn put(
        &mut self,
        alloc: Global,
        inst: &Instance,
        order: &[usize],
        plan: RoutePlan,
    ) -> Result<(), AllocError>
        requires column { IsColumn inst.now order.now plan.stops }
        requires pool { IsPool inst.now self.old }
        ensures put { OnOk result (IsPut inst.now order.now plan.stops self.old self.new) }
        ensures pool { IsPool inst.now self.new }
        ensures apart { AreApart self.new }
        ensures first_seen { OnOk result (orders_of self.new ≡ orders_after self.old order.now) }
        ensures unchanged { OnErr result (self.new ≡ self.old) }
    {
        let time = plan.full_time(inst);
        if let Some(before) = self.routes.get_mut(order) {
            keep_faster(inst, before, Pooled { plan, time });
            return Ok(());
        }
        let order = copy_of(alloc, order)?;
        self.routes.insert(order, Pooled { plan, time })?;
        Ok(())
    }

    /// Whether there is a route of the order. It takes no memory.
    pub fn has(&self, order: &[usize]) -> bool
        ensures { result ≡ is_some (held self.now order.now) }
    {
        self.routes.contains_key(order)
    }

    /// How many routes there are. It takes no memory.
    pub fn len(&self) -> usize
        ensures { result ≡ length self.now }
    {
        self.routes.len()
    }

    /// The nodes of the customers of the route at a place, in order, and its plan. It takes no
    /// memory.
    pub fn route_at(&self, at: usize) -> Option<(&[usize], &RoutePlan)>
        ensures found { IsSome result ↔ (at < length self.now) }
        ensures placed { IfSome result (λ r. IsRouteAt self.now at r.0.now r.1.now) }
        ensures column { (g : Network) → IsPool g self.now →
            IfSome result (λ r. IsColumn g r.0.now r.1.now.stops) }
    {
        match self.route(at) {
            Some((order, pooled)) => Some((order.as_slice(), &pooled.plan)),
            None => None,
        }
    }

    /// The order, and what there is for it, at a place. It takes no memory.
    pub fn route(&self, at: usize) -> Option<(&Vec<usize>, &Pooled)>
        ensures found { IsSome result ↔ (at < length self.now) }
        ensures placed { IfSome result (λ r. IsRouteAt self.now at r.0.now.items r.1.now.plan) }
        ensures column { (g : Network) → IsPool g self.now →
            IfSome result (λ r. IsColumn g r.0.now.items r.1.now.plan.stops) }
    {
        self.routes.get_index(at)
    }

    /// The place of the route of an order. It takes no memory.
    pub fn place(&self, order: &[usize]) -> Option<usize>
        ensures found { is_some result ≡ is_some (held self.now order.now) }
        ensures placed { IfSome result (λ at.
            (plan : RoutePlan) × IsRouteAt self.now at order.now plan) }
    {
        self.routes.get_index_of(order)
    }

    /// The places of the routes that were in the basis of the optimum that was found last, as far
    /// as they were noted. It takes no memory.
    pub fn recent(&self) -> &[usize] {
        &self.recent
    }

    /// Notes the places of the routes in a basis. It takes no memory.
    pub fn note_recent(&mut self, recent: Vec<usize>)
        ensures { self.new ≡ self.old }
    {
        self.recent = recent;
    }
}

/// A vector of the nodes.
fn copy_of(alloc: Global, order: &[usize]) -> Result<Vec<usize>, AllocError>
    ensures { IfOk result (λ copy. copy.items ≡ order.now) }
{
    let mut copy = Vec::with_capacity(alloc, order.len())?;
    copy.extend_from_slice(order)?;
    Ok(copy)
}

/// Puts a plan in place of the one before where it is faster.
fn keep_faster(inst: &Instance, before: &mut Pooled, other: Pooled)
    requires before { IsFeasible inst.now 1 inst.now.capacity before.old.plan.stops }
    requires other { IsFeasible inst.now 1 inst.now.capacity other.plan.stops }
    ensures { before.new.plan.stops ≡ kept inst.now other.plan.stops (Some before.old.plan.stops) }
{
    if other.plan.full_time(inst) < before.plan.full_time(inst) {
        *before = other;
    }
}
