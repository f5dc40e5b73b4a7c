//! Who watches the price loop, and the prices that rise.

use crate::cost::cover_cost;
use master_simplex::Lp;

/// How far the price loop is.
#[derive(Clone, Copy, Debug, PartialEq, Eq)]
pub struct RoundProgress {
    /// How many rounds there were.
    pub rounds: u64,
    /// How many routes the master problem has.
    pub routes: u64,
    /// The least cost of a fractional cover by these routes, rounded up; `None` where there is no
    /// such cover.
    pub cost: Option<u128>,
}

/// How far the prices that rise are.
#[derive(Clone, Copy, Debug, PartialEq, Eq)]
pub struct RisingProgress {
    /// How many customers there are.
    pub customers: u64,
    /// Of how many the price is fixed.
    pub fixed: u64,
    /// The sum of the fixed prices.
    pub bound: u128,
}

/// Who is told how far the price loop is, or how far the prices that rise are. Nothing is promised
/// of it, and no answer depends on it.
pub trait RoundWatcher {
    /// Is told how far the price loop is, before the first round and behind each but the last, once
    /// the master problem over its routes is solved.
    fn watch_rounds(&mut self, progress: RoundProgress);

    /// Is told how far the prices are, once behind each customer whose price was fixed.
    fn watch_rising(&mut self, progress: RisingProgress);
}

/// Nobody: nothing is told.
#[derive(Drop)]
pub struct Nobody {}

impl RoundWatcher for Nobody {
    fn watch_rounds(&mut self, _progress: RoundProgress) {}

    fn watch_rising(&mut self, _progress: RisingProgress) {}
}

/// How far the price loop is behind so many rounds, with an answer of the master problem over so
/// many routes.
pub(crate) fn round_progress(rounds: u64, routes: usize, lp: &Lp) -> RoundProgress {
    RoundProgress {
        rounds,
        routes: routes as u64,
        cost: cover_cost(lp),
    }
}

/// How far the prices are where those of so many customers are fixed, and the later ones are 0.
pub(crate) fn rising_progress(of: &[u64], fixed: usize) -> RisingProgress {
    let mut bound: u128 = 0;
    for price in of {
        bound = bound.saturating_add(u128::from(*price));
    }
    RisingProgress {
        customers: of.len() as u64,
        fixed: fixed as u64,
        bound,
    }
}
