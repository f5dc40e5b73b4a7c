//! The soft limit: a route may take longer than the limit, at a toll.

use crate::ground::NEVER;

/// A route may take this share of the limit longer, one in so many.
const SHARE: u64 = 10;

/// The toll at first, in sixteenths of the time past the limit.
const FIRST_TOLL: u64 = 64;

/// The least and the greatest toll.
const LEAST_TOLL: u64 = 8;

const GREATEST_TOLL: u64 = 16_384;

/// So many turns pass between two changes of the toll.
const TURNS: u64 = 64;

/// With fewer plans within the limit among them the toll rises, with more than the other it falls.
const FEW: u64 = 20;

const MANY: u64 = 32;

/// A limit past this is none, and there is no toll.
const MOST_LIMIT: u64 = 1 << 50;

/// How long routes may take, and what it costs where they take longer than the limit.
#[derive(Clone, Copy)]
pub(crate) struct Toll {
    limit: u64,
    /// The time than which no route takes longer.
    most: u64,
    /// The toll, in sixteenths of the time past the limit.
    rate: u64,
    turns: u64,
    /// How many of the turns ended within the limit.
    within: u64,
}

impl Toll {
    /// A limit that no route may pass.
    pub(crate) fn hard(limit: u64) -> Toll {
        Toll {
            limit,
            most: limit,
            rate: FIRST_TOLL,
            turns: 0,
            within: 0,
        }
    }

    /// A limit that routes may pass by a tenth.
    pub(crate) fn soft(limit: u64) -> Toll {
        let mut toll = Toll::hard(limit);
        if limit < MOST_LIMIT {
            toll.most = limit.saturating_add(limit / SHARE);
        }
        toll
    }

    /// Whether a time is within the limit.
    pub(crate) fn is_within(&self, time: u64) -> bool {
        time <= self.limit
    }

    /// Whether a route may take so long.
    pub(crate) fn allows(&self, time: u64) -> bool {
        time <= self.most
    }

    /// The time that no route reaches.
    pub(crate) fn end(&self) -> u64 {
        self.most.saturating_add(1)
    }

    /// What a route costs that takes this time.
    pub(crate) fn cost(&self, time: u64) -> u64 {
        if time <= self.limit {
            return time;
        }
        let past = time.wrapping_sub(self.limit);
        time.wrapping_add((past / 16).wrapping_mul(self.rate))
    }

    /// A time that each route stays below that costs less than a bar and is allowed.
    pub(crate) fn bar(&self, cost: u64) -> u64 {
        if cost <= self.limit {
            return cost;
        }
        let past = cost.wrapping_sub(self.limit);
        let steps = past / self.rate.saturating_add(16).max(1);
        let time = self
            .limit
            .saturating_add(steps.wrapping_mul(16))
            .saturating_add(32);
        time.min(self.end()).min(NEVER)
    }

    /// Counts a turn that ends with routes that are within the limit or not. Whether the toll
    /// changes.
    pub(crate) fn count(&mut self, is_within: bool) -> bool {
        if self.most == self.limit {
            return false;
        }
        self.turns = self.turns.wrapping_add(1);
        if is_within {
            self.within = self.within.wrapping_add(1);
        }
        if self.turns < TURNS {
            return false;
        }
        if self.within < FEW {
            self.rate = (self.rate.saturating_add(self.rate / 8).saturating_add(1)).min(
                GREATEST_TOLL,
            );
        } else if self.within > MANY {
            self.rate = self.rate.saturating_sub(self.rate / 8).max(LEAST_TOLL);
        }
        self.turns = 0;
        self.within = 0;
        true
    }
}
