//! Whether listed routes with shares cover each customer evenly, at the cost of the prices.

ghost use Rattle.std.specs.Prelude.{◌≡◌, ◌^◌, ◌<◌, ◌≤◌, length};
ghost use Rattle.std.specs.List.{All};
ghost use Rattle.bound_certificate.specs.Ranges.{IsPrice};
ghost use Rattle.certificate_parts.specs.Ranges.{IsWeight};
ghost use Rattle.certificate_check.specs.Routes.{IsRouteAmong};
ghost use Rattle.certificate_check.specs.Shares.{TellsCost, TellsCover, TellsEven, listed_cost, shares_at};

use crate::bound::price_total;
use crate::product::is_same_product;
use master_table::ListedRoute;

/// A listed route with its share.
#[derive(Clone, Copy, Debug, PartialEq, Eq)]
pub struct SharedRoute {
    pub share: u64,
    pub route: ListedRoute,
}

/// Whether the shares of each customer add up to `over`, and all of them cost, over `over`, the sum
/// of the prices over a weight of time above 0. It takes no memory.
pub fn cover_exactly(
    customers: usize,
    weight: u64,
    prices: &[i128],
    over: u64,
    shares: &[SharedRoute],
) -> bool
    requires few { customers ≤ 128 }
    requires few_prices { length prices.now ≤ 128 }
    requires small { All IsPrice prices.now }
    requires over { IsWeight over }
    requires routes { All (λ x. IsRouteAmong customers x.route) shares.now }
    ensures { TellsCover customers weight prices.now over shares.now result }
{
    if !are_even(customers, over, shares) {
        return false;
    }
    cost_the_prices(weight, prices, over, shares)
}

/// Whether the shares of each customer add up to the weight of all.
fn are_even(customers: usize, over: u64, shares: &[SharedRoute]) -> bool
    requires { customers ≤ 128 }
    ensures { TellsEven customers over shares.now result }
{
    for customer in 0..customers {
        if shares_at(customer, shares) != over as u128 {
            return false;
        }
    }
    true
}

/// The sum of the shares of the routes that serve a customer.
fn shares_at(customer: usize, shares: &[SharedRoute]) -> u128
    requires { customer < 128 }
    ensures { result ≡ shares_at customer shares.now }
{
    let mut sum = 0u128;
    for share in shares {
        if share.route.set.has(customer) {
            sum += share.share as u128;
        }
    }
    sum
}

/// Whether the shares, over the weight of all, cost the sum of the prices over a weight of time
/// above 0.
fn cost_the_prices(weight: u64, prices: &[i128], over: u64, shares: &[SharedRoute]) -> bool
    requires few { length prices.now ≤ 128 }
    requires small { All IsPrice prices.now }
    requires over { 1 ≤ over }
    requires cost { listed_cost shares.now < 2 ^ 110 }
    ensures { TellsCost weight prices.now over shares.now result }
{
    let sum = price_total(prices);
    if weight == 0 || sum < 0 {
        return false;
    }
    is_same_product((listed_cost(shares), weight), (sum.unsigned_abs(), over))
}

/// The sum of share times time.
fn listed_cost(shares: &[SharedRoute]) -> u128
    requires { listed_cost shares.now < 2 ^ 110 }
    ensures { result ≡ listed_cost shares.now }
{
    let mut cost = 0u128;
    for share in shares {
        cost += share.share as u128 * share.route.time as u128;
    }
    cost
}
