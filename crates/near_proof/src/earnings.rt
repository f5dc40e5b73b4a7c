//! What services earn.

ghost use Rattle.std.specs.Prelude.{◌≡◌, ◌*◌, ◌<◌, ◌^◌, ◌≤◌, length};
ghost use Rattle.std.specs.List.{All};
ghost use Rattle.near_proof.specs.Terms.{earned_by, price_total};

/// What is earned by serving customers, told by number, each as often as it is served. It takes no
/// memory.
pub fn earned_by(prices: &[u64], customers: &[usize]) -> u128
    requires known { All (λ c. c < length prices.now) customers.now }
    requires few { length customers.now ≤ 128 }
    ensures value { result ≡ earned_by prices.now customers.now }
    ensures small { result ≤ 2 ^ 80 }
{
    let mut earned = 0;
    for customer in customers {
        earned += u128::from(prices[*customer]);
    }
    earned
}

/// The sum of all prices. It takes no memory.
pub fn price_total(prices: &[u64]) -> u128
    requires few { length prices.now ≤ 128 }
    ensures { result ≡ price_total prices.now }
{
    let mut total = 0;
    for price in prices {
        total += u128::from(*price);
    }
    total
}
