//! Who watches how a bound rises.

/// How far a bound is.
#[derive(Clone, Copy, Debug, PartialEq, Eq)]
pub struct PriceProgress {
    /// How many customers there are.
    pub customers: u64,
    /// Of how many the price is fixed.
    pub fixed: u64,
    /// The sum of all prices, which is scaled as times are: those that aren't fixed yet are the
    /// ones with which the customers begin, 0 where no start prices are told.
    pub bound: u128,
}

/// Who is told how far a bound is. Nothing is promised of it, and the proof doesn't depend on it.
pub trait PriceWatcher {
    /// Is told how far the bound is, once behind each customer whose price was fixed.
    fn watch_prices(&mut self, progress: PriceProgress);
}

/// Nobody.
#[derive(Drop)]
pub(crate) struct Nobody {}

impl PriceWatcher for Nobody {
    fn watch_prices(&mut self, _progress: PriceProgress) {}
}

/// How far the bound is where the prices of so many customers are fixed.
pub(crate) fn progress_of(prices: &[u64], fixed: usize) -> PriceProgress {
    let mut bound: u128 = 0;
    for price in prices {
        bound = bound.saturating_add(u128::from(*price));
    }
    PriceProgress {
        customers: prices.len() as u64,
        fixed: fixed as u64,
        bound,
    }
}
