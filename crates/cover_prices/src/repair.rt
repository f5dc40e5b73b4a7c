//! Prices by which no column of the pool earns. No clause rests on this.

use crate::columns::{Column, columns_by_customer};
use crate::fixed::{at, narrow, product, put};
use crate::rows::Row;
use std::alloc::{AllocError, Global};

/// Lets prices be such as their rows may have.
pub(crate) fn fit(rows: &[Row], dearest: i64, prices: &mut [i64]) {
    for (price, row) in prices.iter_mut().zip(rows) {
        *price = row.allowed(*price, dearest);
    }
}

/// Lowers prices until no column costs less than its services earn: of each one that does, in
/// proportion, those that earn most first. Prices that aren't above 0 stay.
pub(crate) fn lower(
    alloc: Global,
    columns: &[Column],
    prices: &mut [i64],
) -> Result<(), AllocError> {
    let mut earning = Vec::new(alloc);
    for (place, column) in columns.iter().enumerate() {
        let reduced = column.cost_below(prices);
        if reduced < 0 {
            earning.push((reduced, place))?;
        }
    }
    earning.sort()?;
    for (_, place) in &earning {
        if let Some(column) = columns.get(*place) {
            lower_of(column, prices);
        }
    }
    Ok(())
}

/// Lowers the prices above 0 of a column's services in proportion, until it doesn't earn.
fn lower_of(column: &Column, prices: &mut [i64]) {
    let reduced = column.reduced_cost(prices);
    if reduced >= 0 {
        return;
    }
    let earned = column.gains(prices);
    for service in &column.services {
        let price = at(prices, service.customer);
        if price > 0 {
            let cut = share_of(reduced.saturating_neg(), price, earned);
            put(prices, service.customer, price.saturating_sub(cut).max(0));
        }
    }
}

/// A part of an amount, as a price is of what is earned, rounded up.
fn share_of(amount: i64, price: i64, earned: i64) -> i64 {
    let over = product(amount, price)
        .saturating_add(i128::from(earned))
        .saturating_sub(1);
    narrow(over.checked_div(i128::from(earned)).unwrap_or(0))
}

/// Raises the prices one by one, each as far as no column earns by it, and as its row may have.
pub(crate) fn raise(
    alloc: Global,
    columns: &[Column],
    rows: &[Row],
    dearest: i64,
    prices: &mut [i64],
) -> Result<(), AllocError> {
    let mut rooms = Vec::with_capacity(alloc, columns.len())?;
    for column in columns {
        rooms.push(column.reduced_cost(prices))?;
    }
    let by_customer = columns_by_customer(alloc, columns, prices.len())?;
    for ((price, row), serving) in prices.iter_mut().zip(rows).zip(by_customer.iter()) {
        let most = row.greatest_price(dearest);
        let rise = room_of(&rooms, serving).min(most.saturating_sub(*price));
        if rise > 0 {
            *price = price.saturating_add(rise);
            take_rooms(&mut rooms, serving, rise);
        }
    }
    Ok(())
}

/// By how much a price may rise, as these columns let it.
fn room_of(rooms: &[i64], serving: &[(usize, i64)]) -> i64 {
    let mut least = i64::MAX;
    for (place, count) in serving {
        let room = at(rooms, *place).max(0);
        least = least.min(room.checked_div(*count).unwrap_or(0));
    }
    least
}

/// Takes a rise from the rooms of these columns.
fn take_rooms(rooms: &mut [i64], serving: &[(usize, i64)], rise: i64) {
    for (place, count) in serving {
        let room = at(rooms, *place);
        put(
            rooms,
            *place,
            room.saturating_sub(rise.saturating_mul(*count)),
        );
    }
}
