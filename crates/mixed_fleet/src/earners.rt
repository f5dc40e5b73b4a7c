//! Routes of vehicles of some kind that earn, or labels that show that there is none.

ghost use Rattle.std.specs.Prelude.{◌≡◌, ◌<◌, [], IfOk, length, map, OnOk};
ghost use Rattle.std.specs.List.{All};
ghost use Rattle.price_loop.specs.Columns.{set_of};
ghost use Rattle.price_loop.specs.Problems.{worth};
ghost use Rattle.mixed_fleet.specs.Fleets.{AreFleetKinds};
ghost use Rattle.mixed_fleet.specs.Gathered.{IsGathered};
ghost use Rattle.mixed_fleet.specs.Problem.{AreOpen, IsEarnedBy, MayBeAsked};
ghost use Rattle.route_pool.specs.Pool.{IsPool};
ghost use Rattle.mixed_fleet.specs.Searched.{searched_of};

use crate::searched::{Searched, as_searched};
use crate::seeking::seek_from;
use customer_sets::{CustSet, Pairs};
use ev_list::Listed;
use instance_reader::Instance;
use piece_fn::Label;
use price_loop::{Earned, Earners};
use pricing::{Priced, PricedRoute, Prices, price};
use std::alloc::{AllocError, Global};
use std::cell::Cell;
use std::marker::Model;

/// Finds routes of all kinds. Contracts see the networks of the kinds.
#[derive(Drop)]
pub(crate) struct KindsEarners<'a> {
    kinds: &'a [Instance],
    /// The kind whose routes were found last, where any were. They are sought in it first.
    last: Cell<usize>,
}

impl<'a> Model for KindsEarners<'a> {
    ghost use Rattle.std.specs.Prelude.{List};
    ghost use Rattle.ev_model.specs.Network.{Network};
    ghost use Rattle.mixed_fleet.specs.Fleets.{AreFleetKinds};

    ghost Value = { List Network };

    ghost view = { λ s. s.kinds.now };

    ghost invariant = { λ s. AreFleetKinds s.kinds.now };
}

impl<'a> KindsEarners<'a> {
    /// Those of these kinds.
    pub(crate) fn new(kinds: &'a [Instance]) -> KindsEarners<'a>
        requires { AreFleetKinds kinds.now }
        ensures { result ≡ kinds.now }
    {
        KindsEarners {
            kinds,
            last: Cell::new(kinds.len()),
        }
    }
}

impl<'a> Earners for KindsEarners<'a> {
    type Route = Searched;

    type Closing = Listed<Listed<Label>>;

    ghost use Rattle.mixed_fleet.specs.Problem.{problem_of};
    ghost use Rattle.mixed_fleet.specs.Once.{served_once};

    ghost problem = { problem_of };

    fn customers(&self) -> usize {
        self.kinds[0].customers().len()
    }

    fn set(&self, route: &Searched) -> CustSet {
        let _kinds = self.kinds;
        set_of(route.numbers.as_slice())
    }

    fn cost(&self, route: &Searched) -> u64 {
        route.time
    }

    fn worth(&self, route: &Searched, of: &[u64]) -> u128 {
        let _kinds = self.kinds;
        worth(route.numbers.as_slice(), of)
    }

    fn at_hand(
        &self,
        alloc: Global,
        _weight: u64,
        _prices: &[i128],
    ) -> Result<Vec<Searched>, AllocError> {
        Ok(Vec::new(alloc))
    }

    fn earn(
        &self,
        alloc: Global,
        weight: u64,
        prices: &[i128],
    ) -> Result<Earned<Searched, Listed<Listed<Label>>>, AllocError> {
        let kinds = self.kinds;
        let pairs = Pairs::new(prices.len());
        let mut sought = seek_from(alloc, kinds, self.last.get(), &pairs, weight, prices)?;
        if let Some(first) = sought.pop() {
            self.last.set(first.route.kind);
            return Ok(Earned::Better {
                first,
                further: sought,
            });
        }
        // That no route earns is shown by lists of labels, which take long.
        let mut found = Vec::new(alloc);
        let mut lists = Vec::with_capacity(alloc, kinds.len())?;
        for kind in 0..kinds.len() {
            let earned = earn_by(alloc, kinds, kind, &pairs, weight, prices)?;
            gather(&mut found, &mut lists, earned)?;
        }
        match found.pop() {
            Some(first) => Ok(Earned::Better {
                first,
                further: found,
            }),
            None => Ok(Earned::Closed {
                closing: Listed::from_vec(lists),
            }),
        }
    }

    ghost once = { served_once };
}

/// The set of the customers with these numbers.
fn set_of(numbers: &[usize]) -> CustSet
    requires { All (λ c. c < 128) numbers.now }
    ensures { result ≡ set_of [] numbers.now }
{
    let mut set = CustSet::empty();
    for number in numbers {
        set = set.with(*number);
    }
    set
}

/// What the customers with these numbers are worth at prices by number.
fn worth(numbers: &[usize], of: &[u64]) -> u128
    requires { All (λ c. c < length of.now) numbers.now }
    ensures { result ≡ worth of.now numbers.now }
{
    let mut sum = 0;
    for number in numbers {
        sum += u128::from(of[*number]);
    }
    sum
}

/// Routes of vehicles of one kind that earn, or labels that show that there is none.
fn earn_by(
    alloc: Global,
    kinds: &[Instance],
    kind: usize,
    pairs: &Pairs,
    weight: u64,
    prices: &[i128],
) -> Result<Earned<Searched, Listed<Label>>, AllocError>
    requires fleet { AreFleetKinds kinds.now }
    requires kind { kind < length kinds.now }
    requires open { AreOpen kinds.now pairs.now }
    requires asked { MayBeAsked kinds.now weight prices.now }
    ensures { IfOk result (IsEarnedBy kinds.now kind weight prices.now) }
{
    let inst = &kinds[kind];
    let asked = asked(alloc, weight, prices)?;
    match price(alloc, inst, pairs, &asked)? {
        Priced::Closed { labels } => Ok(Earned::Closed {
            closing: Listed::from_vec(labels),
        }),
        Priced::Better {
            plan,
            order,
            further,
        } => Ok(Earned::Better {
            first: as_searched(alloc, inst, kind, &order, plan)?,
            further: all_searched(alloc, inst, kind, &further)?,
        }),
    }
}

/// Puts the routes of one kind, or its labels, behind those of the kinds before.
fn gather(
    found: &mut Vec<Searched>,
    lists: &mut Vec<Listed<Label>>,
    earned: Earned<Searched, Listed<Label>>,
) -> Result<(), AllocError>
    ensures { OnOk result (IsGathered earned
        found.old.items lists.old.items found.new.items lists.new.items) }
{
    match earned {
        Earned::Closed { closing } => lists.push(closing)?,
        Earned::Better { first, mut further } => {
            found.push(first)?;
            found.append(&mut further)?;
        }
    }
    Ok(())
}

/// What pricing is asked.
pub(crate) fn asked(alloc: Global, weight: u64, prices: &[i128]) -> Result<Prices, AllocError>
    ensures weight { IfOk result (λ asked. asked.weight ≡ weight) }
    ensures of { IfOk result (λ asked. asked.of.items ≡ prices.now) }
{
    let mut of = Vec::with_capacity(alloc, prices.len())?;
    of.extend_from_slice(prices)?;
    Ok(Prices { weight, of })
}

/// The routes that pricing found for a kind, as they are searched for.
pub(crate) fn all_searched(
    alloc: Global,
    inst: &Instance,
    kind: usize,
    routes: &[PricedRoute],
) -> Result<Vec<Searched>, AllocError>
    requires { IsPool inst.now routes.now }
    ensures { IfOk result (λ found. found.items
        ≡ map (λ r. searched_of inst.now kind r.order.items r.plan) routes.now) }
{
    let mut found = Vec::with_capacity(alloc, routes.len())?;
    for route in routes {
        let plan = route.plan.copy(alloc)?;
        found.push(as_searched(alloc, inst, kind, &route.order, plan)?)?;
    }
    Ok(found)
}
