//! Prices by the volume method (Barahona, Anbil 2000): steps along an average of what the columns
//! that earn leave uncovered. No clause rests on this.

use crate::columns::{Column, Service};
use crate::fixed::{at, narrow, product, put};
use crate::repair::{fit, lower, raise};
use crate::rows::{Row, Sense};
use std::alloc::{AllocError, Global};

/// How many steps are made at once.
const STEPS: usize = 300;

/// How many bits of a share are behind the point.
const SHARE_BITS: u32 = 20;

/// A whole share.
const WHOLE: i64 = 1 << 20;

/// By so much, of one, the shares move to those of a step.
const PULL: i64 = WHOLE / 20;

/// How many bits of a step's size are behind the point.
const SIZE_BITS: u32 = 16;

/// The size of the first step, the least and the greatest.
const SIZES: (i64, i64, i64) = (6553, 6, 1 << 17);

/// After so many steps without a better value they become smaller.
const PATIENCE: usize = 10;

/// The state of the method, which stays from one call to the next.
#[derive(Drop)]
pub(crate) struct Volume {
    /// The best prices.
    center: Vec<i64>,
    /// To which share each column is taken.
    shares: Vec<i64>,
    /// The prices of a step.
    tried: Vec<i64>,
    /// What the shares leave uncovered, by customer.
    gaps: Vec<i64>,
    /// Which columns earn by the prices of a step.
    earns: Vec<bool>,
}

/// How a run of steps goes.
#[derive(Drop)]
struct Pace {
    /// The best value.
    best: i64,
    /// The value that is aimed at.
    target: i64,
    /// The size of a step.
    size: i64,
    /// How many steps in a row brought no better value.
    misses: usize,
}

impl Volume {
    /// Prices 0 for so many customers.
    pub(crate) fn new(alloc: Global, customers: usize) -> Result<Volume, AllocError> {
        Ok(Volume {
            center: vec![in alloc; 0; customers]?,
            shares: Vec::new(alloc),
            tried: vec![in alloc; 0; customers]?,
            gaps: vec![in alloc; 0; customers]?,
            earns: Vec::new(alloc),
        })
    }

    /// Reckons with a further column.
    pub(crate) fn add_column(&mut self) -> Result<(), AllocError> {
        self.shares.push(0)?;
        self.earns.push(false)?;
        Ok(())
    }

    /// Takes nothing of a column for now.
    pub(crate) fn drop_column(&mut self, place: usize) {
        put(&mut self.shares, place, 0);
    }

    /// The best prices.
    pub(crate) fn center(&self) -> &[i64] {
        &self.center
    }

    /// Goes on from these prices.
    pub(crate) fn set_center(&mut self, prices: &[i64]) {
        for (own, price) in self.center.iter_mut().zip(prices) {
            *own = *price;
        }
    }

    /// Takes steps to better prices, and lets no column earn by them, but raises them as far as
    /// that lasts.
    pub(crate) fn solve(
        &mut self,
        alloc: Global,
        columns: &[Column],
        rows: &[Row],
        dearest: i64,
    ) -> Result<(), AllocError> {
        self.mend(alloc, columns, rows, dearest)?;
        let best = value(columns, rows, &self.center, &mut self.earns);
        let mut pace = Pace::new(best);
        for _ in 0..STEPS {
            if !self.step(columns, rows, dearest, &mut pace) {
                break;
            }
        }
        self.mend(alloc, columns, rows, dearest)
    }

    /// Lets no column earn by the best prices, but raises them as far as that lasts.
    fn mend(
        &mut self,
        alloc: Global,
        columns: &[Column],
        rows: &[Row],
        dearest: i64,
    ) -> Result<(), AllocError> {
        fit(rows, dearest, &mut self.center);
        lower(alloc, columns, &mut self.center)?;
        raise(alloc, columns, rows, dearest, &mut self.center)
    }

    /// Takes a step. Whether anything is left to be covered.
    fn step(&mut self, columns: &[Column], rows: &[Row], dearest: i64, pace: &mut Pace) -> bool {
        find_gaps(columns, rows, &self.shares, &mut self.gaps);
        let norm = norm_of(&self.gaps, &self.center, rows);
        if norm == 0 {
            return false;
        }
        self.try_prices(pace, norm, rows, dearest);
        let found = value(columns, rows, &self.tried, &mut self.earns);
        pull(&mut self.shares, &self.earns, columns);
        if pace.learn(found) {
            for (own, price) in self.center.iter_mut().zip(self.tried.iter()) {
                *own = *price;
            }
        }
        true
    }

    /// The prices of a step.
    fn try_prices(&mut self, pace: &Pace, norm: i128, rows: &[Row], dearest: i64) {
        let aim = product(pace.size, pace.target.saturating_sub(pace.best)) >> SIZE_BITS;
        let under = (norm >> SHARE_BITS).max(1);
        for (tried, price) in self.tried.iter_mut().zip(self.center.iter()) {
            *tried = *price;
        }
        for ((tried, gap), row) in self.tried.iter_mut().zip(self.gaps.iter()).zip(rows) {
            let step = aim.saturating_mul(i128::from(*gap));
            let rise = narrow(step.checked_div(under).unwrap_or(0));
            *tried = row.fitted((*tried).saturating_add(rise), dearest);
        }
    }
}

impl Pace {
    /// The pace at the beginning, by the value of the first prices.
    fn new(best: i64) -> Pace {
        let (size, _, _) = SIZES;
        Pace {
            best,
            target: above(best).saturating_add(1),
            size,
            misses: 0,
        }
    }

    /// Goes on by the value of a step. Whether it is the best one.
    fn learn(&mut self, found: i64) -> bool {
        let (_, least, most) = SIZES;
        if found > self.best {
            self.best = found;
            self.size = (self.size.saturating_mul(11) / 10).min(most);
            self.misses = 0;
            if found > self.target.saturating_sub(self.target / 100) {
                self.target = above(found);
            }
            return true;
        }
        self.misses = self.misses.saturating_add(1);
        if self.misses >= PATIENCE {
            self.size = (self.size.saturating_mul(2) / 3).max(least);
            self.misses = 0;
        }
        false
    }
}

/// A value a little above a value.
fn above(value: i64) -> i64 {
    value.saturating_add(value / 50)
}

/// What prices bound: their sum, each as often as its row is to be covered, less what the columns
/// earn that earn, which are told.
fn value(columns: &[Column], rows: &[Row], prices: &[i64], earns: &mut [bool]) -> i64 {
    let mut sum: i128 = 0;
    for (price, row) in prices.iter().zip(rows) {
        sum = sum.saturating_add(product(*price, row.wanted()));
    }
    for (column, earns) in columns.iter().zip(earns.iter_mut()) {
        let reduced = column.cost_below(prices);
        *earns = reduced < 0;
        sum = sum.saturating_add(i128::from(reduced));
    }
    narrow(sum)
}

/// What the shares of the columns leave uncovered, by row.
fn find_gaps(columns: &[Column], rows: &[Row], shares: &[i64], gaps: &mut [i64]) {
    for (gap, row) in gaps.iter_mut().zip(rows) {
        *gap = WHOLE.saturating_mul(row.wanted());
    }
    for (column, share) in columns.iter().zip(shares) {
        if *share != 0 {
            cover(&column.services, *share, gaps);
        }
    }
}

/// Takes a share of services from the gaps.
fn cover(services: &[Service], share: i64, gaps: &mut [i64]) {
    for service in services {
        let gap = at(gaps, service.customer);
        let part = share.saturating_mul(service.count);
        put(gaps, service.customer, gap.saturating_sub(part));
    }
}

/// The square of the gaps, without those that can't lower, or raise, a price past 0.
fn norm_of(gaps: &[i64], center: &[i64], rows: &[Row]) -> i128 {
    let mut norm: i128 = 0;
    for ((gap, price), row) in gaps.iter().zip(center).zip(rows) {
        if *price != 0 || may_move(*row, *gap) {
            norm = norm.saturating_add(product(*gap, *gap));
        }
    }
    norm
}

/// Whether the price 0 of a row moves where so much is uncovered.
fn may_move(row: Row, gap: i64) -> bool {
    match row.sense {
        Sense::AtLeast => gap >= 0,
        Sense::Exactly => true,
        Sense::AtMost => gap <= 0,
    }
}

/// Moves the shares to those of the columns that earn.
fn pull(shares: &mut [i64], earns: &[bool], columns: &[Column]) {
    for (place, share) in shares.iter_mut().enumerate() {
        let is_active = match columns.get(place) {
            Some(column) => column.is_active(),
            None => false,
        };
        if is_active {
            let aim = if earns.get(place).copied().unwrap_or(false) {
                WHOLE
            } else {
                0
            };
            let part = aim.saturating_sub(*share).saturating_mul(PULL) / WHOLE;
            *share = share.saturating_add(part);
        }
    }
}
