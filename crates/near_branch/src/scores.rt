//! Which of the candidates a node is split on. No clause rests on this.

use crate::clock::{BranchClock, Early};
use crate::fork::{Fork, Turn};
use crate::growth::Growth;
use crate::prices::LeafPrices;
use crate::pricing::Start;
use near_prices::{PriceSearch, RowTrial};
use std::alloc::{AllocError, Global};

/// So many candidates are estimated again by pricing.
const AGAIN: usize = 3;

/// A few pivots may show so many gaps.
const GAPS: u64 = 3;

/// In so many rounds.
const ROUNDS: usize = 2;

/// A candidate with its score by a few pivots: the product of what the optimum rises by on both
/// sides, each no more than some gaps.
#[derive(Clone, Copy)]
pub(crate) struct Scored {
    pub(crate) fork: Fork,
    /// What it rises by on each side.
    gains: [u64; 2],
    product: u128,
}

/// A node above others.
#[derive(Clone, Copy)]
pub(crate) struct Above<'n> {
    /// Where it stands.
    pub(crate) place: usize,
    /// The turns from the root.
    pub(crate) turns: &'n [Turn],
    pub(crate) prices: &'n LeafPrices,
}

/// The greatest products of some candidates: as many as are estimated again.
#[derive(Clone, Copy)]
struct Leading {
    /// The greatest first.
    products: [u128; AGAIN],
}

impl Leading {
    /// Those of no candidate.
    fn none() -> Leading {
        Leading {
            products: [0; AGAIN],
        }
    }

    /// The least of them, 0 where there are too few.
    fn least(&self) -> u128 {
        self.products[AGAIN - 1]
    }

    /// Takes a further product in, where it is greater than one of them.
    fn note(&mut self, product: u128) {
        let mut left = product;
        for own in self.products.iter_mut() {
            let greater = left.max(*own);
            left = left.min(*own);
            *own = greater;
        }
    }
}

/// The product of both gains, where each counts a little at the least.
fn product_of(gains: [u64; 2], gap: u64) -> u128 {
    let least = (gap / 1_000_000).max(1);
    let one = gains[0].max(least).min(gap.max(1));
    let other = gains[1].max(least).min(gap.max(1));
    u128::from(one).saturating_mul(u128::from(other))
}

/// The candidates by what a few pivots show of them, the best first. What they show is more than
/// there is, since few routes are known: so they are told apart up to some gaps.
pub(crate) fn with_scores(
    alloc: Global,
    search: &PriceSearch<'_>,
    forks: &[Fork],
    gap: u64,
) -> Result<Vec<Scored>, AllocError> {
    let gap = gap.saturating_mul(GAPS);
    let trial = search.trial(alloc, gap)?;
    let mut leading = Leading::none();
    let mut all = Vec::with_capacity(alloc, forks.len())?;
    for fork in forks {
        let scored = scored_by(alloc, &trial, fork, gap, leading.least())?;
        leading.note(scored.product);
        all.push(scored)?;
    }
    all.sort_by_key(|one| u128::MAX - one.product)?;
    Ok(all)
}

/// A candidate with its score; the score 0 where its first side shows that it is no more than so
/// much.
fn scored_by(
    alloc: Global,
    trial: &RowTrial<'_>,
    fork: &Fork,
    gap: u64,
    least: u128,
) -> Result<Scored, AllocError> {
    let [one, other] = fork.turns();
    let first = trial.gain(alloc, fork.tally(), one.row(), gap)?;
    if product_of([first, gap], gap) <= least {
        return Ok(Scored {
            fork: *fork,
            gains: [first, 0],
            product: 0,
        });
    }
    let second = trial.gain(alloc, fork.tally(), other.row(), gap)?;
    let gains = [first, second];
    Ok(Scored {
        fork: *fork,
        gains,
        product: product_of(gains, gap),
    })
}

impl<'a> Growth<'a> {
    /// The best of the candidates at a node; the first ones are estimated again, as far as a few
    /// pivots leave it open that they are better: rounds of pricing make gains less.
    pub(crate) fn best_of<C: BranchClock>(
        &mut self,
        alloc: Global,
        above: Above<'_>,
        scored: &[Scored],
        clock: &mut Early<'_, C>,
    ) -> Result<Option<Fork>, AllocError> {
        let gap = self.gap_of(above.prices.sum);
        let Some(first) = scored.first() else {
            return Ok(None);
        };
        if scored.len() == 1 {
            return Ok(Some(first.fork));
        }
        let mut best = None;
        let mut most = 0;
        for one in scored.iter().take(AGAIN) {
            if most >= product_of(one.gains, gap) {
                continue;
            }
            let product = self.estimated(alloc, above, one, most, clock)?;
            if best.is_none() || product > most {
                most = product;
                best = Some(one.fork);
            }
        }
        Ok(best)
    }

    /// The score of a candidate by some rounds of pricing on both sides, each gain no more than the
    /// gap; 0 where the side of the lesser gain shows that it is no more than so much.
    fn estimated<C: BranchClock>(
        &mut self,
        alloc: Global,
        above: Above<'_>,
        one: &Scored,
        most: u128,
        clock: &mut Early<'_, C>,
    ) -> Result<u128, AllocError> {
        let gap = self.gap_of(above.prices.sum);
        let [mut lesser, mut greater] = one.fork.turns();
        if one.gains[1] < one.gains[0] {
            (lesser, greater) = (greater, lesser);
        }
        let first = self.rise(alloc, above, &lesser, clock)?;
        if product_of([first, gap], gap) <= most {
            return Ok(0);
        }
        let second = self.rise(alloc, above, &greater, clock)?;
        Ok(product_of([first, second], gap))
    }

    /// By how much some rounds of pricing say that the optimum rises by a turn.
    fn rise<C: BranchClock>(
        &mut self,
        alloc: Global,
        above: Above<'_>,
        turn: &Turn,
        clock: &mut Early<'_, C>,
    ) -> Result<u64, AllocError> {
        let below = further(alloc, above.turns, turn)?;
        let mut search = self.begin(
            alloc,
            &below,
            Some(above.prices),
            Start::estimate(self.weight),
        )?;
        clock.looks = self.patience;
        let worth = search.estimate(alloc, ROUNDS, clock)?;
        self.pool = search.into_routes(alloc)?;
        let rise = worth.saturating_sub(above.prices.sum).max(0);
        Ok(u64::try_from(rise).unwrap_or(u64::MAX))
    }
}

/// Turns with a further one.
pub(crate) fn further(alloc: Global, turns: &[Turn], turn: &Turn) -> Result<Vec<Turn>, AllocError> {
    let mut all = Vec::with_capacity(alloc, turns.len().saturating_add(1))?;
    all.extend_from_slice(turns)?;
    all.push(*turn)?;
    Ok(all)
}
