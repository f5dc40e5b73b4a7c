//! The best prices so far, by what they are worth when they are lowered until no route earns. No
//! clause rests on this.

/// What a route takes, and what it earns, both beyond what it earns by the floor of prices.
#[derive(Clone, Copy, Debug, PartialEq, Eq)]
pub(crate) struct Ratio {
    pub(crate) time: i128,
    pub(crate) earned: i128,
}

impl Ratio {
    /// Nothing is earned too much.
    pub(crate) fn whole() -> Ratio {
        Ratio { time: 1, earned: 1 }
    }

    /// That of a route, by its weighted time, its reduced cost and what it earns by the floor.
    pub(crate) fn of(cost: u64, reduced: i64, floor: i128) -> Ratio {
        let time = i128::from(cost).saturating_sub(floor).max(0);
        Ratio {
            time,
            earned: time.saturating_sub(i128::from(reduced)),
        }
    }

    /// The one of two by which prices fall most.
    pub(crate) fn least(self, other: Ratio) -> Ratio {
        let own = self.time.saturating_mul(other.earned);
        let its = other.time.saturating_mul(self.earned);
        if its < own { other } else { self }
    }

    /// So much of a number, rounded down.
    pub(crate) fn part_of(self, number: i128) -> i128 {
        let over = number.saturating_mul(self.time);
        over.checked_div_euclid(self.earned).unwrap_or(0)
    }
}

/// Prices, with what they are worth.
#[derive(Drop)]
pub(crate) struct Kept {
    pub(crate) prices: Vec<i64>,
    worth: Option<i128>,
}

impl Kept {
    /// These prices, which are worth nothing yet.
    pub(crate) fn new(prices: Vec<i64>) -> Kept {
        Kept {
            prices,
            worth: None,
        }
    }

    /// Keeps prices where they are worth more.
    pub(crate) fn consider(&mut self, prices: &[i64], worth: i128) {
        let is_more = match self.worth {
            Some(own) => own < worth,
            None => true,
        };
        if is_more {
            self.worth = Some(worth);
            for (own, price) in self.prices.iter_mut().zip(prices) {
                *own = *price;
            }
        }
    }

    /// Whether prices were kept.
    pub(crate) fn is_any(&self) -> bool {
        self.worth.is_some()
    }
}
