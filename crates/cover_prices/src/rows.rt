//! The rows of a master problem. No clause rests on this.

use std::alloc::{AllocError, Global};

/// How often a row is to be covered.
#[derive(Clone, Copy, Debug, PartialEq, Eq)]
pub enum Sense {
    /// That often or more: its price is no less than 0.
    AtLeast,
    /// Just that often: its price has either sign.
    Exactly,
    /// That often or less: its price is no more than 0.
    AtMost,
}

/// A row: a customer, who is to be served, or what else columns are counted by.
#[derive(Clone, Copy, Debug, PartialEq, Eq)]
pub struct Row {
    pub sense: Sense,
    /// How often it is covered, from 0 to 1,000.
    pub count: i64,
}

/// No price is lower.
const LOWEST: i64 = -(1 << 60);

/// No row is to be covered more often.
const MOST_COUNT: i64 = 1_000;

impl Row {
    /// A customer who is served once at least.
    pub(crate) fn served() -> Row {
        Row {
            sense: Sense::AtLeast,
            count: 1,
        }
    }

    /// How often it is covered, from 0 to 1,000.
    pub(crate) fn wanted(self) -> i64 {
        self.count.clamp(0, MOST_COUNT)
    }

    /// The least price that it may have.
    pub(crate) fn least_price(self, dearest: i64) -> i64 {
        match self.sense {
            Sense::AtLeast => 0,
            Sense::Exactly | Sense::AtMost => dearest.saturating_neg(),
        }
    }

    /// The greatest price that it may have.
    pub(crate) fn greatest_price(self, dearest: i64) -> i64 {
        match self.sense {
            Sense::AtLeast | Sense::Exactly => dearest,
            Sense::AtMost => 0,
        }
    }

    /// A price, or the nearest one that the row may have; of those below 0 it may have any, if one.
    pub(crate) fn allowed(self, price: i64, dearest: i64) -> i64 {
        let price = price.min(self.greatest_price(dearest));
        match self.sense {
            Sense::AtLeast => price.max(0),
            Sense::Exactly | Sense::AtMost => price.max(LOWEST),
        }
    }

    /// A price, or the nearest one that the row may have, none below the negative of the dearest.
    pub(crate) fn fitted(self, price: i64, dearest: i64) -> i64 {
        price
            .min(self.greatest_price(dearest))
            .max(self.least_price(dearest))
    }
}

/// So many customers, each served once at least.
pub(crate) fn served_rows(alloc: Global, customers: usize) -> Result<Vec<Row>, AllocError> {
    let rows = vec![in alloc; Row::served(); customers]?;
    Ok(rows)
}

/// A copy of rows.
pub(crate) fn copied_rows(alloc: Global, rows: &[Row]) -> Result<Vec<Row>, AllocError> {
    let mut own = Vec::with_capacity(alloc, rows.len())?;
    own.extend_from_slice(rows)?;
    Ok(own)
}
