//! What near routes are priced on, and by which prices.

ghost use Rattle.std.specs.Prelude.{◌≡◌, ◌<◌, IfOk, length, replicate, set};
ghost use Rattle.ng_pricing.specs.Fixing.{alone};

use customer_sets::CustSet;
use ev_list::Listed;
use instance_reader::Instance;
use near_pricing::Prices;
use near_proof::NearLabel;
use std::alloc::{AllocError, Global};

/// An instance with the near set of each customer, by number.
#[derive(Clone, Copy)]
pub(crate) struct Setting<'a> {
    pub(crate) inst: &'a Instance,
    pub(crate) sets: &'a [CustSet],
}

/// Labels that are closed, and the prices at which they are, by the customers' numbers.
#[derive(Drop)]
pub(crate) struct ClosedAt {
    pub(crate) prices: Listed<u64>,
    pub(crate) labels: Listed<NearLabel>,
}

/// The same prices.
pub(crate) fn copy_of(alloc: Global, prices: &[u64]) -> Result<Vec<u64>, AllocError>
    ensures { IfOk result (λ of. of.items ≡ prices.now) }
{
    let mut of = Vec::with_capacity(alloc, prices.len())?;
    of.extend_from_slice(prices)?;
    Ok(of)
}

/// The prices at weight 1.
pub(crate) fn prices_at(alloc: Global, prices: &[u64]) -> Result<Prices, AllocError>
    ensures { IfOk result (λ asked. asked ≡ record { weight = 1; of = prices.now }) }
{
    let of = copy_of(alloc, prices)?;
    Ok(Prices {
        weight: 1,
        of: Listed::from_vec(of),
    })
}

/// The prices at weight 1, with another price for one customer.
pub(crate) fn prices_with(
    alloc: Global,
    prices: &[u64],
    customer: usize,
    price: u64,
) -> Result<Prices, AllocError>
    requires { customer < length prices.now }
    ensures { IfOk result (λ asked.
        asked ≡ record { weight = 1; of = set prices.now customer price }) }
{
    let mut of = copy_of(alloc, prices)?;
    of[customer] = price;
    Ok(Prices {
        weight: 1,
        of: Listed::from_vec(of),
    })
}

/// The price 1 for one of so many customers and 0 for the others, at weight 0.
pub(crate) fn price_alone(
    alloc: Global,
    customers: usize,
    customer: usize,
) -> Result<Prices, AllocError>
    requires { customer < customers }
    ensures { IfOk result (λ asked. asked ≡ record { weight = 0; of = alone customers customer }) }
{
    let mut of = no_prices(alloc, customers)?;
    of[customer] = 1;
    Ok(Prices {
        weight: 0,
        of: Listed::from_vec(of),
    })
}

/// A price of 0 for each of so many customers.
pub(crate) fn no_prices(alloc: Global, customers: usize) -> Result<Vec<u64>, AllocError>
    ensures { IfOk result (λ of. of.items ≡ replicate customers 0) }
{
    vec![in alloc; 0; customers]
}
