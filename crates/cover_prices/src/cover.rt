//! The master problem. No clause rests on this.

use crate::columns::{Column, Service};
use crate::fixed::product;
use crate::repair::{fit, lower};
use crate::rows::{Row, copied_rows, served_rows};
use crate::simplex::Simplex;
use crate::volume::Volume;
use std::alloc::{AllocError, Global};

/// No price is higher.
const MOST_PRICE: u64 = 1 << 60;

/// Where covering a customer without a column costs less, all costs are reckoned in parts of a
/// unit: the methods stop some units short of the optimum.
const FINE: u64 = 1 << 24;

/// A unit has so many parts at the most.
const MOST_PARTS: u64 = 1 << 24;

/// The least sum of costs by which columns, each taken to some amount, cover each customer once at
/// least: prices and amounts.
///
/// Customers are told by their numbers. What the prices are worth is for others to judge: this
/// promises to end, and that no column of the pool costs less than its services earn isn't proved.
#[derive(Drop)]
pub struct Cover {
    pub(crate) columns: Vec<Column>,
    pub(crate) rows: Vec<Row>,
    /// How many parts a unit of cost has here.
    pub(crate) parts: u64,
    /// What it costs to cover a row once without a column, in parts, as all costs below.
    dearest: i64,
    pub(crate) volume: Volume,
    pub(crate) simplex: Simplex,
    /// Whether the volume method is used.
    is_volume: bool,
    pub(crate) prices: Vec<i64>,
    /// To which amounts the columns are taken.
    amounts: Vec<i64>,
    /// How much is covered without columns.
    lacking: i64,
}

impl Cover {
    /// The problem without columns, in which covering a customer once without one costs so much.
    /// Prices are first found by the volume method.
    pub fn new(alloc: Global, customers: usize, dearest: u64) -> Result<Cover, AllocError> {
        Cover::over(alloc, served_rows(alloc, customers)?, dearest)
    }

    /// The problem without columns over rows of any sense: the customers, by number, and what else
    /// columns are counted by.
    pub fn with_rows(alloc: Global, rows: &[Row], dearest: u64) -> Result<Cover, AllocError> {
        Cover::over(alloc, copied_rows(alloc, rows)?, dearest)
    }

    /// The problem without columns over these rows.
    fn over(alloc: Global, rows: Vec<Row>, dearest: u64) -> Result<Cover, AllocError> {
        let parts = parts_for(dearest);
        Ok(Cover {
            columns: Vec::new(alloc),
            parts,
            dearest: dearest.saturating_mul(parts).min(MOST_PRICE) as i64,
            volume: Volume::new(alloc, rows.len())?,
            simplex: Simplex::new(alloc, &rows)?,
            is_volume: true,
            prices: vec![in alloc; 0; rows.len()]?,
            amounts: Vec::new(alloc),
            lacking: 0,
            rows,
        })
    }

    /// Puts a column behind the others, whose places stay.
    pub fn add_column(
        &mut self,
        alloc: Global,
        services: &[Service],
        cost: u64,
    ) -> Result<(), AllocError> {
        let column = Column::new(alloc, services, cost.saturating_mul(self.parts))?;
        self.columns.push(column)?;
        self.amounts.push(0)?;
        self.volume.add_column()?;
        self.simplex.add_column()
    }

    /// Lets the column at a place be taken no more.
    pub fn ban(&mut self, place: usize) {
        if let Some(column) = self.columns.get_mut(place) {
            column.ban(self.dearest);
            self.volume.drop_column(place);
        }
    }

    /// Whether the prices are found by the volume method, which only comes near the best ones.
    pub fn is_rough(&self) -> bool {
        self.is_volume
    }

    /// Lets prices and amounts be found by the simplex method from now on.
    pub fn refine(&mut self) {
        self.is_volume = false;
    }

    /// Finds prices for the columns there are, and by the simplex method amounts.
    pub fn solve(&mut self, alloc: Global) -> Result<(), AllocError> {
        if self.is_volume {
            self.volume
                .solve(alloc, &self.columns, &self.rows, self.dearest)?;
            copy_into(&mut self.prices, self.volume.center());
        } else {
            self.simplex
                .solve(alloc, &self.columns, &self.rows, self.dearest)?;
            self.lacking = self.simplex.find_shares(&self.columns, &mut self.amounts);
            copy_into(&mut self.prices, self.simplex.prices());
            fit(&self.rows, self.dearest, &mut self.prices);
            lower(alloc, &self.columns, &mut self.prices)?;
            self.volume.set_center(&self.prices);
        }
        round_down(&mut self.prices, self.parts);
        Ok(())
    }

    /// The prices of the rows, by number, each as its row may have it.
    pub fn prices(&self) -> &[i64] {
        &self.prices
    }

    /// What the last prices of the simplex method are worth: the least cost, where it came to its
    /// end.
    pub fn worth(&self) -> i128 {
        let mut sum: i128 = 0;
        for (price, row) in self.simplex.prices().iter().zip(&self.rows) {
            sum = sum.saturating_add(product(*price, row.wanted()));
        }
        sum.checked_div_euclid(i128::from(self.parts)).unwrap_or(0)
    }

    /// To which amounts the columns are taken, by place, in units of 2^-32.
    pub fn amounts(&self) -> &[i64] {
        &self.amounts
    }

    /// How much is covered without columns, in units of 2^-32.
    pub fn lacking(&self) -> i64 {
        self.lacking
    }
}

/// How many parts a unit of cost has, where covering a customer without a column costs so many
/// units.
fn parts_for(dearest: u64) -> u64 {
    let mut parts: u64 = 1;
    for _ in 0..u64::BITS {
        if parts >= MOST_PARTS || dearest.saturating_mul(parts) >= FINE {
            break;
        }
        parts = parts.saturating_mul(2);
    }
    parts
}

/// Numbers of parts as whole units, rounded down.
fn round_down(numbers: &mut [i64], parts: u64) {
    let parts = i64::try_from(parts).unwrap_or(1);
    for number in numbers.iter_mut() {
        *number = floor_of(*number, parts);
    }
}

/// A quotient, rounded down.
fn floor_of(over: i64, under: i64) -> i64 {
    let part = over.checked_div(under).unwrap_or(0);
    if over < part.saturating_mul(under) {
        part.saturating_sub(1)
    } else {
        part
    }
}

/// Puts numbers in place of others.
fn copy_into(numbers: &mut [i64], others: &[i64]) {
    for (own, other) in numbers.iter_mut().zip(others) {
        *own = *other;
    }
}
