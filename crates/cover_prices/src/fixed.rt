//! Numbers in fixed point, by which a solver knows shares and the inverse of a basis. No clause
//! rests on this.

/// How many bits are behind the point.
const BITS: u32 = 32;

/// One, in fixed point.
pub(crate) const ONE: i64 = 1 << 32;

/// The product of two numbers.
pub(crate) fn product(one: i64, other: i64) -> i128 {
    i128::from(one) * i128::from(other)
}

/// A product of numbers in fixed point as such a number, rounded.
pub(crate) fn rounded(product: i128) -> i128 {
    product.saturating_add(1 << 31) >> BITS
}

/// A number in fewer bits, or the nearest number that has so few.
pub(crate) fn narrow(number: i128) -> i64 {
    match i64::try_from(number) {
        Ok(narrow) => narrow,
        Err(_) => { if number < 0 { i64::MIN } else { i64::MAX } }
    }
}

/// A ratio of two numbers in fixed point as such a number, rounded; `None` where it is too wide.
pub(crate) fn ratio(over: i64, under: i64) -> Option<i64> {
    let half = i128::from(under.unsigned_abs() / 2);
    let over = product(over, ONE);
    let over = if over < 0 {
        over.checked_sub(half)?
    } else {
        over.checked_add(half)?
    };
    i64::try_from(over.checked_div(i128::from(under))?).ok()
}

/// The number at a place, 0 where there is none.
pub(crate) fn at(numbers: &[i64], place: usize) -> i64 {
    numbers.get(place).copied().unwrap_or(0)
}

/// Puts a number at a place, if there is that place.
pub(crate) fn put(numbers: &mut [i64], place: usize, number: i64) {
    if let Some(own) = numbers.get_mut(place) {
        *own = number;
    }
}
