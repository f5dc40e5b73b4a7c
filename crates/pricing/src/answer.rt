//! The answer of pricing.

ghost use Rattle.std.specs.Prelude.{◌≡◌, ◌<◌, ◌≤◌, ◌^◌, [], All, IfOk, length, unsigned_abs};
ghost use Rattle.instance_reader.specs.Instance.{customer_nodes, most_customers};
ghost use Rattle.label_search.specs.Answers.{AreClosed};
ghost use Rattle.pricing.specs.Answers.{IsBetterRoute, IsPriced};
ghost use Rattle.pricing.specs.Labels.{route_space};

use crate::completion::table_of;
use crate::labels::RouteLabels;
use crate::priced::{Priced, PricedRoute, Prices};
use completion_bounds::Completion;
use customer_sets::Pairs;
use instance_reader::Instance;
use label_search::{Care, Closing, close};
use piece_fn::Label;
use std::alloc::{AllocError, Global};

/// Routes that earn more by the prices of their customers than they take, or a closed list of
/// labels, which shows that there is none.
///
/// `prices` has the weight of a unit of scaled time, and one price per customer, by number. A route
/// keeps the pairs, starts from a full battery, and serves each of its customers once. The labels
/// of a closed list are closed under the pairs, the weight and the prices, and in range. Which of
/// several routes or lists is answered isn't promised.
///
/// First a quick search compares labels whatever customers they have served; where it finds no
/// route an exact one follows. Both leave out what can't earn, by a table. Where neither finds a
/// route, an exact search that leaves nothing out makes the list. Each takes the label of least
/// time next. The list is tested before it is answered; what the test finds wanting is added, and
/// the search goes on. The only `Err` is want of memory.
pub fn price(
    alloc: Global,
    inst: &Instance,
    pairs: &Pairs,
    prices: &Prices,
) -> Result<Priced, AllocError>
    requires few { length (customer_nodes inst.now) ≤ most_customers }
    requires pairs { pairs.now.customers ≡ length (customer_nodes inst.now) }
    requires weight { prices.now.weight ≤ 2 ^ 40 }
    requires one_price { length prices.now.of.items ≡ length (customer_nodes inst.now) }
    requires small_prices { All (λ price. unsigned_abs price ≤ 2 ^ 84) prices.now.of.items }
    ensures { IfOk result (IsPriced (record {
      network = inst.now;
      pairs = pairs.now;
      weight = prices.now.weight;
      prices = prices.now.of.items;
      labels = [];
    })) }
{
    let of = prices.of.as_slice();
    let labels = RouteLabels::new(alloc, inst, pairs, prices.weight, of)?;
    let routes = sought(alloc, &labels)?;
    if !routes.is_empty() {
        return Ok(better_of(&labels, routes));
    }
    closed(alloc, &labels)
}

/// Routes that earn more by the prices of their customers than they take, as `price` finds them,
/// but no list where none is found: no route says nothing.
///
/// It takes a part of the time that `price` takes where nothing earns. The only `Err` is want of
/// memory.
pub fn seek(
    alloc: Global,
    inst: &Instance,
    pairs: &Pairs,
    prices: &Prices,
) -> Result<Vec<PricedRoute>, AllocError>
    requires few { length (customer_nodes inst.now) ≤ most_customers }
    requires pairs { pairs.now.customers ≡ length (customer_nodes inst.now) }
    requires weight { prices.now.weight ≤ 2 ^ 40 }
    requires one_price { length prices.now.of.items ≡ length (customer_nodes inst.now) }
    requires small_prices { All (λ price. unsigned_abs price ≤ 2 ^ 84) prices.now.of.items }
    ensures { IfOk result (λ routes. All (IsBetterRoute (record {
      network = inst.now;
      pairs = pairs.now;
      weight = prices.now.weight;
      prices = prices.now.of.items;
      labels = [];
    })) routes.items) }
{
    let of = prices.of.as_slice();
    let labels = RouteLabels::new(alloc, inst, pairs, prices.weight, of)?;
    sought(alloc, &labels)
}

/// Routes that earn: those of a quick search, or of an exact one where it finds none. Both
/// leave out what can't earn, by a table.
fn sought(alloc: Global, labels: &RouteLabels<'_>) -> Result<Vec<PricedRoute>, AllocError>
    ensures { IfOk result (λ routes. All (IsBetterRoute labels.now) routes.items) }
{
    let table = table_of(alloc, labels.question())?;
    let quick = label_search::seek(alloc, labels, &table, Care::Quick)?;
    if !quick.is_empty() {
        return Ok(quick);
    }
    label_search::seek(alloc, labels, &table, Care::Exact)
}

/// The answer of the exact search that leaves nothing out.
fn closed(alloc: Global, labels: &RouteLabels<'_>) -> Result<Priced, AllocError>
    ensures { IfOk result (IsPriced labels.now) }
{
    match close(alloc, labels, &Completion::none(alloc), Care::Exact)? {
        Closing::Better { routes } => Ok(better_of(labels, routes)),
        Closing::Closed { labels: list } => Ok(closed_by(labels, list)),
    }
}

/// The answer with labels that are closed.
fn closed_by(labels: &RouteLabels<'_>, list: Vec<Label>) -> Priced
    requires { AreClosed (route_space labels.now) list.items }
    ensures { IsPriced labels.now result }
{
    let _ = labels;
    Priced::Closed { labels: list }
}

/// The answer with routes that earn.
fn better_of(labels: &RouteLabels<'_>, mut routes: Vec<PricedRoute>) -> Priced
    requires earn { All (IsBetterRoute labels.now) routes.items }
    requires some { 0 < length routes.items }
    ensures { IsPriced labels.now result }
{
    let _ = labels;
    let Some(last) = routes.pop() else {
        unreachable!();
    };
    let PricedRoute { plan, order } = last;
    Priced::Better {
        plan,
        order,
        further: routes,
    }
}
