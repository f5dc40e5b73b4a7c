//! The answer of pricing.

ghost use Rattle.std.specs.Prelude.{◌≡◌, ◌<◌, ◌≤◌, ◌+◌, ◌^◌, IfOk, length};
ghost use Rattle.std.specs.List.{All};
ghost use Rattle.instance_reader.specs.Instance.{customer_nodes, most_customers};
ghost use Rattle.label_search.specs.Steps.{IsListed};
ghost use Rattle.near_proof.specs.Closed.{AreClosed};
ghost use Rattle.near_proof.specs.Ranges.{NearLabelFits, SetsFit};
ghost use Rattle.near_pricing.specs.Answers.{IsNearPriced};
ghost use Rattle.near_pricing.specs.Labels.{IsBetterPlan, near_space};

use crate::asked::Question;
use crate::hopeless::hopeless_labels;
use crate::listing::{closed_with, list_all};
use crate::priced::{NearPriced, Prices};
use crate::table::completion_of;
use completion_bounds::Completion;
use customer_sets::CustSet;
use ev_list::Listed;
use instance_reader::Instance;
use label_search::{Care, Closing, close, seek, seek_labels};
use near_proof::{NearLabel, NearTerms};
use route_plan::RoutePlan;
use std::alloc::{AllocError, Global};

/// A list is mended so often at the most, where a table tells what can still earn.
const MOST_MENDS: usize = 100;

/// Without a table only the count ends many ways, and labels of count 0 are seldom closed: a list
/// is mended so often at the most.
const FEW_MENDS: usize = 3;

/// A near route that earns more by the prices of its services, each as often as it is made, than
/// it takes, times the weight; or labels that are closed, which shows that there is none.
///
/// `sets` has a near set for each customer, by number, which has the customer itself: whom a
/// vehicle that serves the customer goes on to remember. `prices` has the weight of a unit of
/// scaled time, 0 or 1, and a price for each customer, by number, of at most 10^18 + 1. Which of
/// several routes or lists is answered isn't promised.
///
/// First a quick search compares labels whoever is remembered; where it finds no route an exact one
/// follows. Both leave out what can't earn, by a table. Where neither finds a route, the labels of
/// the exact one and those that stand for what the table left out are listed, tested, and mended a
/// little. Where that doesn't close them, a search that leaves nothing out follows; what a test of
/// its labels finds wanting is added, and the search goes on. The only `Err` is want of memory.
pub fn near_price(
    alloc: Global,
    inst: &Instance,
    sets: &[CustSet],
    prices: &Prices,
) -> Result<NearPriced, AllocError>
    requires few { length (customer_nodes inst.now) ≤ most_customers }
    requires sets { SetsFit (length (customer_nodes inst.now)) sets.now }
    requires weight { prices.now.weight ≤ 1 }
    requires one_price { length prices.now.of ≡ length (customer_nodes inst.now) }
    requires small { All (λ price. price ≤ 10 ^ 18 + 1) prices.now.of }
    ensures { IfOk result (IsNearPriced inst.now (record {
      weight = prices.now.weight;
      prices = prices.now.of;
      sets = sets.now;
    })) }
{
    let terms = NearTerms {
        weight: prices.weight,
        prices: prices.of.as_slice(),
        sets,
    };
    let pricing = Question::new(inst, terms);
    let table = completion_of(alloc, &pricing)?;
    priced_by(alloc, &pricing, &table)
}

/// The answer with what a table leaves out.
fn priced_by(
    alloc: Global,
    pricing: &Question<'_>,
    table: &Completion,
) -> Result<NearPriced, AllocError>
    ensures { IfOk result (IsNearPriced pricing.now.network pricing.now.terms) }
{
    let quick = seek(alloc, pricing, table, Care::Quick)?;
    if !quick.is_empty() {
        return Ok(better_of(pricing, quick));
    }
    let exact = seek_labels(alloc, pricing, table, Care::Exact)?;
    if !exact.routes.is_empty() {
        return Ok(better_of(pricing, exact.routes));
    }
    closed_after(alloc, pricing, table, exact.labels)
}

/// The answer once an exact search, which took these labels, has found no route.
fn closed_after(
    alloc: Global,
    pricing: &Question<'_>,
    table: &Completion,
    exact: Vec<NearLabel>,
) -> Result<NearPriced, AllocError>
    requires { All (IsListed (near_space pricing.now)) exact.items }
    ensures { IfOk result (IsNearPriced pricing.now.network pricing.now.terms) }
{
    let mut labels = hopeless_labels(alloc, pricing.instance(), table)?;
    list_all(pricing, &mut labels, exact)?;
    match closed_with(alloc, pricing, labels, most_mends(table))? {
        Some(labels) => Ok(closed_by(pricing, labels)),
        None => certain(alloc, pricing),
    }
}

/// How often a list is mended at the most.
fn most_mends(table: &Completion) -> usize {
    if table.legs().is_empty() {
        FEW_MENDS
    } else {
        MOST_MENDS
    }
}

/// The answer of the search whose labels are all real, and make each other needless only where
/// they cover each other's states.
fn certain(alloc: Global, pricing: &Question<'_>) -> Result<NearPriced, AllocError>
    ensures { IfOk result (IsNearPriced pricing.now.network pricing.now.terms) }
{
    match close(alloc, pricing, &Completion::none(alloc), Care::Certain)? {
        Closing::Better { routes } => Ok(better_of(pricing, routes)),
        Closing::Closed { labels } => Ok(closed_by(pricing, labels)),
    }
}

/// The labels, which are closed.
fn closed_by(pricing: &Question<'_>, labels: Vec<NearLabel>) -> NearPriced
    requires closed { AreClosed pricing.now.network pricing.now.terms labels.items }
    requires fit { All (NearLabelFits pricing.now.network) labels.items }
    ensures { IsNearPriced pricing.now.network pricing.now.terms result }
{
    let _ = pricing;
    NearPriced::Closed {
        labels: Listed::from_vec(labels),
    }
}

/// The last of the routes that a search found, which is the best.
fn better_of(pricing: &Question<'_>, mut routes: Vec<RoutePlan>) -> NearPriced
    requires routes { All (IsBetterPlan pricing.now) routes.items }
    requires some { 0 < length routes.items }
    ensures { IsNearPriced pricing.now.network pricing.now.terms result }
{
    let _ = pricing;
    let Some(plan) = routes.pop() else {
        unreachable!();
    };
    NearPriced::Better { plan }
}
