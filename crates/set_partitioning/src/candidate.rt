//! What may be taken.

ghost use Rattle.std.specs.Prelude.{◌≡◌, ◌<◌, [], pos, ◌*ℤ◌};
ghost use Rattle.std.specs.Int.{saturate_signed, w128};
ghost use Rattle.customer_sets.specs.CustSet.{with_customer};
ghost use Rattle.set_partitioning.specs.Prices.{less, price_at, room_of};

use customer_sets::CustSet;

/// What may be taken: a route, or whatever else serves customers.
#[derive(Clone, Copy)]
pub struct Candidate {
    /// Whom it serves.
    pub served: CustSet,
    /// By how much it costs more than those whom it serves are worth.
    pub excess: i128,
}

impl Candidate {
    /// What serves nobody yet, at its cost times the weight. A sum past 128 bits stays at the end
    /// of its range here, and in the calls below.
    pub fn at_cost(cost: u64, weight: u64) -> Candidate
        ensures served { result.served ≡ [] }
        ensures excess { result.excess ≡ saturate_signed w128 (pos cost *ℤ pos weight) }
    {
        Candidate {
            served: CustSet::empty(),
            excess: i128::from(cost).saturating_mul(i128::from(weight)),
        }
    }

    /// The same, where it serves a further customer too: his price is taken off the excess.
    /// Customers past the end of the prices have the price 0.
    pub fn serving(self, number: usize, prices: &[i128]) -> Candidate
        requires { number < 128 }
        ensures served { result.served ≡ with_customer number self.served }
        ensures excess { result.excess ≡ less self.excess (price_at prices.now number) }
    {
        Candidate {
            served: self.served.with(number),
            excess: self.excess.saturating_sub(price_at(prices, number)),
        }
    }
}

/// The price of the customer with the number.
fn price_at(prices: &[i128], number: usize) -> i128
    ensures { result ≡ price_at prices.now number }
{
    if number < prices.len() {
        prices[number]
    } else {
        0
    }
}

/// What the excesses of candidates that serve each customer once come to less than, where they cost
/// less than this together: the cost times the weight, less all prices. Without a cost it has no
/// end.
pub fn room_below(cost: Option<u128>, weight: u64, prices: &[i128]) -> i128
    ensures { result ≡ room_of cost weight prices.now }
{
    let Some(cost) = cost else {
        return i128::MAX;
    };
    let cost = i128::try_from(cost).unwrap_or(i128::MAX);
    let mut room = cost.saturating_mul(i128::from(weight));
    for price in prices {
        room = room.saturating_sub(*price);
    }
    room
}
