//! Rising prices: fixed customer by customer, each at the greatest at which no route earns.

ghost use Rattle.std.specs.Prelude.{◌≡◌, ◌+◌, ◌<◌, ◌≤◌, ◌^◌, All, IfNone, IfOk, IfSome, false, length, map, pos, replicate, set, true, unsigned_abs};
ghost use Rattle.price_loop.specs.Problems.{worth};
ghost use Rattle.price_loop.specs.Rising.{AreFixed, ArePayable, CostLess, HasExcess, IsNowhere, IsRisen, StandsNowhere};

use crate::earners::{Earned, Earners};
use crate::watcher::{Nobody, RoundWatcher, rising_progress};
use std::alloc::{AllocError, Global};

/// What comes of raising the prices of customers one by one.
#[derive(Drop)]
pub enum Risen<C: Drop> {
    /// The rising prices, and what shows that no route earns at them, at weight 1.
    Priced {
        prices: Vec<i128>,
        closing: C,
    },
    /// A customer stands on no route. At weight 0 and a price of 1 for him alone none earns.
    Nowhere {
        customer: usize,
        prices: Vec<i128>,
        closing: C,
    },
}

/// The rising prices, where each route costs less than `top`.
///
/// The only `Err` is want of memory.
pub fn rise<E: Earners>(
    alloc: Global,
    earners: &E,
    top: u64,
) -> Result<Risen<E::Closing>, AllocError>
    requires { CostLess (E.problem earners.now) top }
    ensures { IfOk result (IsRisen (E.problem earners.now)) }
{
    rise_watched(alloc, earners, top, &mut Nobody {})
}

/// The same as [`rise`], where a watcher is told behind each customer how far the prices are.
pub fn rise_watched<E: Earners, W: RoundWatcher>(
    alloc: Global,
    earners: &E,
    top: u64,
    watcher: &mut W,
) -> Result<Risen<E::Closing>, AllocError>
    requires { CostLess (E.problem earners.now) top }
    ensures { IfOk result (IsRisen (E.problem earners.now)) }
{
    let customers = earners.customers();
    let mut of = no_prices(alloc, customers)?;
    for customer in 0..customers {
        if !fix(alloc, earners, top, &mut of, customer)? {
            return nowhere(alloc, earners, customer);
        }
        watcher.watch_rising(rising_progress(&of, customer + 1));
    }
    let (prices, closing) = closed_at(alloc, earners, 1, &of)?;
    Ok(Risen::Priced { prices, closing })
}

/// A price of 0 for each of so many customers.
fn no_prices(alloc: Global, customers: usize) -> Result<Vec<u64>, AllocError>
    ensures { IfOk result (λ of. of.items ≡ replicate customers 0) }
{
    vec![in alloc; 0; customers]
}

/// The answer for a customer who stands on no route.
fn nowhere<E: Earners>(
    alloc: Global,
    earners: &E,
    customer: usize,
) -> Result<Risen<E::Closing>, AllocError>
    requires customer { customer < (E.problem earners.now).customers }
    requires nowhere { StandsNowhere (E.problem earners.now) customer }
    ensures { IfOk result (IsRisen (E.problem earners.now)) }
{
    let mut of = no_prices(alloc, earners.customers())?;
    of[customer] = 1;
    let (prices, closing) = closed_at(alloc, earners, 0, &of)?;
    Ok(Risen::Nowhere {
        customer,
        prices,
        closing,
    })
}

/// The prices as a search takes them, and what shows that no route earns at them.
fn closed_at<E: Earners>(
    alloc: Global,
    earners: &E,
    weight: u64,
    of: &[u64],
) -> Result<(Vec<i128>, E::Closing), AllocError>
    requires weight { weight ≤ 1 }
    requires one_price { length of.now ≡ (E.problem earners.now).customers }
    requires payable { ArePayable (E.problem earners.now) weight of.now }
    ensures prices { IfOk result (λ end. end.0.items ≡ map pos of.now) }
    ensures small { IfOk result (λ end.
        All (λ price. unsigned_abs price ≤ 2 ^ 84) end.0.items) }
    ensures closes { IfOk result (λ end.
        (E.problem earners.now).closes weight end.0.items end.1) }
{
    let prices = whole_prices(alloc, of)?;
    match earners.earn(alloc, weight, &prices)? {
        Earned::Closed { closing } => Ok((prices, closing)),
        Earned::Better { .. } => unreachable!(),
    }
}

/// Fixes the price of a customer, where those of the customers before are fixed. Answers whether
/// the customer stands on a route; where he stands on none, the price isn't fixed.
fn fix<E: Earners>(
    alloc: Global,
    earners: &E,
    top: u64,
    of: &mut [u64],
    customer: usize,
) -> Result<bool, AllocError>
    requires top { CostLess (E.problem earners.now) top }
    requires customer { customer < (E.problem earners.now).customers }
    requires before { AreFixed (E.problem earners.now) of.old customer }
    ensures fixed { IfOk result (λ found. found ≡ true →
        AreFixed (E.problem earners.now) of.new (customer + 1)) }
    ensures nowhere { IfOk result (λ found. found ≡ false →
        StandsNowhere (E.problem earners.now) customer) }
{
    let mut price = top;
    let mut found = false;
    of[customer] = price;
    while let Some(excess) = excess_found(alloc, earners, of)? {
        price = lower(price, excess);
        of[customer] = price;
        found = true;
    }
    Ok(found)
}

/// A price that is lower by the excess.
fn lower(price: u64, excess: u128) -> u64
    requires { excess ≤ price }
    ensures { result + excess ≡ price }
{
    (u128::from(price) - excess) as u64
}

/// The greatest excess among the routes that a search finds at the prices; `None` where none earns.
fn excess_found<E: Earners>(
    alloc: Global,
    earners: &E,
    of: &[u64],
) -> Result<Option<u128>, AllocError>
    requires one_price { length of.now ≡ (E.problem earners.now).customers }
    ensures some { IfOk result (λ found. IfSome found (HasExcess (E.problem earners.now) of.now)) }
    ensures none { IfOk result (λ found. IfNone found
        (ArePayable (E.problem earners.now) 1 of.now)) }
{
    let prices = whole_prices(alloc, of)?;
    match earners.earn(alloc, 1, &prices)? {
        Earned::Closed { .. } => Ok(None),
        Earned::Better { first, further } => {
            let mut most = excess(earners, of, &first);
            for route in &further {
                let other = excess(earners, of, route);
                if most < other {
                    most = other;
                }
            }
            Ok(Some(most))
        }
    }
}

/// How much more than its cost a route is worth.
fn excess<E: Earners>(earners: &E, of: &[u64], route: &E::Route) -> u128
    requires route { (E.problem earners.now).is_route route.now }
    requires one_price { length of.now ≡ (E.problem earners.now).customers }
    requires earns { (E.problem earners.now).cost route.now
        < worth of.now ((E.problem earners.now).served route.now) }
    ensures some { 0 < result }
    ensures more { (E.problem earners.now).cost route.now + result
        ≡ worth of.now ((E.problem earners.now).served route.now) }
{
    earners.worth(route, of) - u128::from(earners.cost(route))
}

/// The prices as a search takes them.
fn whole_prices(alloc: Global, of: &[u64]) -> Result<Vec<i128>, AllocError>
    ensures of { IfOk result (λ prices. prices.items ≡ map pos of.now) }
    ensures small { IfOk result (λ prices.
        All (λ price. unsigned_abs price ≤ 2 ^ 84) prices.items) }
{
    let mut prices = Vec::with_capacity(alloc, of.len())?;
    for price in of {
        prices.push(i128::from(*price))?;
    }
    Ok(prices)
}
