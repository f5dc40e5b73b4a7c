//! Whole prices as the routes that are known allow them. No clause rests on this.

use crate::numbers::{at, copy_of, floor_of, put};
use crate::pool::Pool;
use crate::routes::Route;
use cover_prices::Sense;
use std::alloc::{AllocError, Global};

/// Prices that are lowered where a known route earns, and raised then, those of the customers one
/// by one as far as the known routes let them: each is on a route then that takes no more than it
/// earns but for less than one unit for each time it serves him, where one serves him at all.
pub(crate) fn fitted(alloc: Global, pool: &Pool, base: &[i64]) -> Result<Vec<i64>, AllocError> {
    let mut prices = copy_of(alloc, base)?;
    let mut rooms = Rooms::new(alloc, pool, &prices)?;
    for row in 0..prices.len() {
        rooms.lower(pool, &mut prices, row);
    }
    rooms.raise_all(&mut prices, pool.customers);
    Ok(prices)
}

/// By how much routes take more than they earn, and on which ones each row counts.
#[derive(Drop)]
struct Rooms {
    reduced: Vec<i64>,
    by_row: Vec<Vec<(usize, i64)>>,
}

impl Rooms {
    /// Those of the known routes.
    fn new(alloc: Global, pool: &Pool, prices: &[i64]) -> Result<Rooms, AllocError> {
        let mut rooms = Rooms {
            reduced: Vec::with_capacity(alloc, pool.routes.len())?,
            by_row: Vec::with_capacity(alloc, prices.len())?,
        };
        for _ in prices {
            rooms.by_row.push(Vec::new(alloc))?;
        }
        for route in &pool.routes {
            rooms.push(route, prices)?;
        }
        Ok(rooms)
    }

    /// Appends a route.
    fn push(&mut self, route: &Route, prices: &[i64]) -> Result<(), AllocError> {
        let place = self.reduced.len();
        self.reduced.push(route.reduced_cost(prices))?;
        if !route.is_open() {
            return Ok(());
        }
        for service in &route.services {
            if let Some(own) = self.by_row.get_mut(service.customer) {
                own.push((place, service.count))?;
            }
        }
        Ok(())
    }

    /// Lowers the price of a row, as far as that keeps a route from earning and the row may have
    /// it.
    fn lower(&mut self, pool: &Pool, prices: &mut [i64], row: usize) {
        let price = at(prices, row);
        let rise = self.room_of(row).min(0).max(pool.least_rise(row, price));
        self.rise(prices, row, rise);
    }

    /// Raises the prices of so many customers, one by one.
    fn raise_all(&mut self, prices: &mut [i64], customers: usize) {
        for customer in 0..customers {
            self.raise(prices, customer);
        }
    }

    /// Raises the price of a row as far as no route earns by it.
    fn raise(&mut self, prices: &mut [i64], row: usize) {
        let rise = self.room_of(row).max(0);
        self.rise(prices, row, rise);
    }

    /// By how much a price may rise; below 0 where it has to fall. 0 where no route serves the row.
    fn room_of(&self, row: usize) -> i64 {
        let Some(serving) = self.by_row.get(row) else {
            return 0;
        };
        let mut least = None;
        for (place, count) in serving {
            let room = floor_of(at(&self.reduced, *place), *count);
            least = Some(room.min(least.unwrap_or(room)));
        }
        least.unwrap_or(0)
    }

    /// Lets a price rise.
    fn rise(&mut self, prices: &mut [i64], row: usize, rise: i64) {
        put(prices, row, at(prices, row).saturating_add(rise));
        let Some(serving) = self.by_row.get(row) else {
            return;
        };
        for (place, count) in serving {
            let own = at(&self.reduced, *place);
            let left = own.saturating_sub(rise.saturating_mul(*count));
            put(&mut self.reduced, *place, left);
        }
    }
}

impl Pool {
    /// The least rise of a row's price, 0 or less.
    fn least_rise(&self, row: usize, price: i64) -> i64 {
        match self.sense_of(row) {
            Sense::AtLeast => price.max(0).saturating_neg(),
            Sense::Exactly | Sense::AtMost => i64::MIN,
        }
    }

    /// The sense of a row.
    fn sense_of(&self, row: usize) -> Sense {
        if row < self.customers {
            return self.sense;
        }
        if row.saturating_sub(self.customers) % 2 == 0 {
            Sense::AtLeast
        } else {
            Sense::AtMost
        }
    }
}
