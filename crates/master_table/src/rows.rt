//! One row of the table: combined with another, divided by its greatest common divisor, held
//! against its caps.

ghost use Rattle.std.specs.Prelude.{◌≡◌, ◌≢◌, ◌+◌, ◌-◌, ◌^◌, ◌<◌, ◌≤◌, ℕ, [], ◌∷◌, All, get_or, map, length, vec_len, Vec, Some, None, IsErrOf, take, IfOk, OnOk, FitsSigned, IsTrue, IsFalse, ℤ, pos, ◌<ℤ◌, int_div, ◌*ℤ◌, ◌-ℤ◌, neg_ℤ, nat_eq, unsigned_abs};
ghost use Rattle.std.specs.Int.{w128};
ghost use Rattle.fleet_model.specs.Divisors.{IsGcdOf, gcd_of};
ghost use Rattle.fleet_model.specs.Equations.{combined};
ghost use Rattle.master_table.specs.Tableau.{Equation, entry_cap, weight_cap};
ghost use Rattle.master_table.specs.Pivoting.{combined_row, divided_row, divisor, excess, is_below, quotients, reduced_row, row_after, rows_after, turned_row};
ghost use Rattle.master_table.specs.FirstPast.{past_from, past_in, past_of};
ghost use Rattle.master_table.specs.declared.rows.Row.{Row};
ghost use Rattle.master_table.specs.RowView.{equation_of, limits_of, IsSmallRow};

use crate::caps::{Caps, TableFault};
use ev_units::gcd;
use std::alloc::{AllocError, Global};

/// A row of the table: its weight, its right side, and its entries at the columns.
#[derive(Drop)]
pub struct Row {
    pub weight: i128,
    pub right: i128,
    pub entries: Vec<i128>,
}

/// A product that fits.
fn times(a: i128, b: i128) -> i128
    requires { FitsSigned w128 (a *ℤ b) }
    ensures { result ≡ a *ℤ b }
{
    a * b
}

/// An entry of a combination: own times x less by times y.
fn combined_entry(own: i128, x: i128, by: i128, y: i128) -> i128
    requires own { unsigned_abs own ≤ 2 ^ 40 }
    requires x { unsigned_abs x ≤ 2 ^ 84 }
    requires by { unsigned_abs by ≤ 2 ^ 85 }
    requires y { unsigned_abs y ≤ 2 ^ 40 }
    ensures { result ≡ (own *ℤ x) -ℤ (by *ℤ y) }
{
    let left = times(own, x);
    let right = times(by, y);
    left - right
}

/// The entries of a combination.
fn combine(
    alloc: Global,
    own: i128,
    by: i128,
    row: &[i128],
    turned: &[i128],
) -> Result<Vec<i128>, AllocError>
    requires own { unsigned_abs own ≤ 2 ^ 40 }
    requires by { unsigned_abs by ≤ 2 ^ 85 }
    requires same { length row.now ≡ length turned.now }
    requires row { All (λ x. unsigned_abs x ≤ 2 ^ 84) row.now }
    requires turned { All (λ y. unsigned_abs y ≤ 2 ^ 40) turned.now }
    ensures { IfOk result (λ v. v.items ≡ combined own by row.now turned.now) }
{
    let mut out = Vec::with_capacity(alloc, row.len())?;
    for i in 0..row.len() {
        out.push(combined_entry(own, row[i], by, turned[i]))?;
    }
    Ok(out)
}

/// The greatest common divisor of a number and a list. No division follows once it is 1.
fn common_divisor(first: i128, xs: &[i128]) -> u128
    ensures { result ≡ gcd_of (first ∷ xs.now) }
{
    let mut found = first.unsigned_abs();
    for x in xs {
        if found == 1 {
            return 1;
        }
        found = gcd(x.unsigned_abs(), found);
    }
    found
}

/// What finds exact quotients without a division (Granlund and Montgomery 1994): the inverse,
/// modulo 2^64, of a divisor's odd part, and how often 2 divides it.
#[derive(Clone, Copy)]
struct Inverse {
    odd: u64,
    twos: u32,
}

/// The inverse of a divisor, by Newton's iteration on its low 64 bits.
fn inverse_of(d: i128) -> Inverse {
    let low = (d.unsigned_abs() % (1 << 64)) as u64;
    let twos = low.trailing_zeros() % 64;
    let odd = low >> twos;
    let mut inverse = odd;
    for _ in 0..5 {
        inverse = inverse.wrapping_mul(2_u64.wrapping_sub(odd.wrapping_mul(inverse)));
    }
    Inverse { odd: inverse, twos }
}

/// The quotient, where the division is exact and the quotient below 2^64 in size, and else any
/// number.
fn guess(x: i128, by: Inverse) -> i128
    ensures { unsigned_abs result ≤ 2 ^ 64 }
{
    let low = (x.unsigned_abs() >> (by.twos % 64)) % (1 << 64);
    let size = i128::from((low as u64).wrapping_mul(by.odd));
    if x < 0 { -size } else { size }
}

/// The quotient by a number above 0, rounded toward zero. A guess is tried by a product.
fn quotient(x: i128, d: i128, by: Inverse) -> i128
    requires { pos 0 <ℤ d }
    ensures { result ≡ int_div x d }
{
    if d <= 1 << 60 {
        let guess = guess(x, by);
        if times(guess, d) == x {
            return guess;
        }
    }
    x / d
}

/// Each number divided by `d`.
fn divide_all(xs: &mut Vec<i128>, d: i128, by: Inverse)
    requires { pos 0 <ℤ d }
    ensures { xs.new.items ≡ quotients d xs.old.items }
{
    for i in 0..xs.len() {
        xs[i] = quotient(xs[i], d, by);
    }
}

/// The row divided by `d`, without a division where `d` is 1.
fn divide_row(row: Row, d: i128) -> Row
    requires { pos 0 <ℤ d }
    ensures { equation_of result ≡ divided_row d (equation_of row) }
{
    if d == 1 {
        return row;
    }
    let Row {
        weight,
        right,
        mut entries,
    } = row;
    let by = inverse_of(d);
    divide_all(&mut entries, d, by);
    Row {
        weight: quotient(weight, d, by),
        right: quotient(right, d, by),
        entries,
    }
}

/// The combination of two rows.
fn combined_with(
    alloc: Global,
    own: i128,
    by: i128,
    row: &Row,
    turned: &Row,
) -> Result<Row, AllocError>
    requires own { unsigned_abs own ≤ 2 ^ 40 }
    requires by { unsigned_abs by ≤ 2 ^ 85 }
    requires same { length row.now.entries.items ≡ length turned.now.entries.items }
    requires row { IsSmallRow (2 ^ 84) (equation_of row.now) }
    requires turned { IsSmallRow (2 ^ 40) (equation_of turned.now) }
    ensures { IfOk result (λ v. equation_of v
        ≡ combined_row own by (equation_of row.now) (equation_of turned.now)) }
{
    let entries = combine(
        alloc,
        own,
        by,
        row.entries.as_slice(),
        turned.entries.as_slice(),
    )?;
    Ok(Row {
        weight: times(own, row.weight),
        right: combined_entry(own, row.right, by, turned.right),
        entries,
    })
}

/// The greatest common divisor of a row's weight and multipliers.
fn divisor_of(row: &Row, n: usize) -> u128
    requires { n ≤ vec_len row.now.entries }
    ensures { result ≡ divisor n (equation_of row.now) }
{
    common_divisor(row.weight, &row.entries[..n])
}

/// The combination of two rows, divided by the greatest common divisor of its weight and
/// multipliers.
fn next_row(
    alloc: Global,
    own: i128,
    by: i128,
    row: &Row,
    turned: &Row,
    n: usize,
) -> Result<Row, AllocError>
    requires own { unsigned_abs own ≤ 2 ^ 40 }
    requires by { unsigned_abs by ≤ 2 ^ 85 }
    requires same { length row.now.entries.items ≡ length turned.now.entries.items }
    requires helpers { n ≤ vec_len row.now.entries }
    requires row { IsSmallRow (2 ^ 84) (equation_of row.now) }
    requires turned { IsSmallRow (2 ^ 40) (equation_of turned.now) }
    requires some { 0 < divisor n
        (combined_row own by (equation_of row.now) (equation_of turned.now)) }
    ensures { IfOk result (λ v. equation_of v
        ≡ reduced_row n (combined_row own by (equation_of row.now) (equation_of turned.now))) }
{
    let next = combined_with(alloc, own, by, row, turned)?;
    let divisor = divisor_of(&next, n);
    Ok(divide_row(next, divisor as i128))
}

/// The row, turned so that its entry at the column is above 0.
pub fn turn_row(alloc: Global, row: &Row, col: usize) -> Result<Row, AllocError>
    requires col { col < vec_len row.now.entries }
    requires small { IsSmallRow (2 ^ 40) (equation_of row.now) }
    ensures { IfOk result (λ v. equation_of v ≡ turned_row col (equation_of row.now)) }
{
    if row.entries[col] < 0 {
        return Ok(Row {
            weight: row.weight,
            right: -row.right,
            entries: negate_all(alloc, row.entries.as_slice())?,
        });
    }
    Ok(Row {
        weight: row.weight,
        right: row.right,
        entries: Vec::from_slice(alloc, row.entries.as_slice())?,
    })
}

/// The number with the other sign.
fn opposite(x: i128) -> i128
    requires { unsigned_abs x ≤ 2 ^ 40 }
    ensures { result ≡ neg_ℤ x }
{
    -x
}

/// Each number with the other sign.
fn negate_all(alloc: Global, xs: &[i128]) -> Result<Vec<i128>, AllocError>
    requires { All (λ x. unsigned_abs x ≤ 2 ^ 40) xs.now }
    ensures { IfOk result (λ v. v.items ≡ map neg_ℤ xs.now) }
{
    let mut out = Vec::with_capacity(alloc, xs.len())?;
    for x in xs {
        out.push(opposite(*x))?;
    }
    Ok(out)
}

/// What a row has of the column that a pivot brings into the basis.
fn excess(row: &Row, n: usize, col: usize, i: usize) -> i128
    requires col { col < vec_len row.now.entries }
    requires small { IsSmallRow (2 ^ 84) (equation_of row.now) }
    ensures value { result ≡ excess n col i (equation_of row.now) }
    ensures small { unsigned_abs result ≤ 2 ^ 85 }
{
    if i > n && col < n {
        row.entries[col] - row.weight
    } else {
        row.entries[col]
    }
}

/// The row at place `i` after the pivot in row `r` at the column `col`.
fn row_after(
    alloc: Global,
    n: usize,
    r: usize,
    col: usize,
    turned: &Row,
    i: usize,
    row: &Row,
) -> Result<Row, AllocError>
    requires col { col < vec_len turned.now.entries }
    requires same { length row.now.entries.items ≡ length turned.now.entries.items }
    requires helpers { n ≤ vec_len row.now.entries }
    requires row { IsSmallRow (2 ^ 84) (equation_of row.now) }
    requires turned { IsSmallRow (2 ^ 40) (equation_of turned.now) }
    requires some { i ≢ r → excess n col i (equation_of row.now) ≢ pos 0 →
        0 < divisor n (combined_row (get_or turned.now.entries.items col (pos 0))
        (excess n col i (equation_of row.now)) (equation_of row.now) (equation_of turned.now)) }
    ensures { IfOk result (λ v. equation_of v
        ≡ row_after n r col (equation_of turned.now) i (equation_of row.now)) }
{
    if i == r {
        return copy_row(alloc, turned);
    }
    let by = excess(row, n, col, i);
    if by == 0 {
        return copy_row(alloc, row);
    }
    next_row(alloc, turned.entries[col], by, row, turned, n)
}

/// A row with the same numbers.
fn copy_row(alloc: Global, row: &Row) -> Result<Row, AllocError>
    ensures { IfOk result (λ v. equation_of v ≡ equation_of row.now) }
{
    Ok(Row {
        weight: row.weight,
        right: row.right,
        entries: Vec::from_slice(alloc, row.entries.as_slice())?,
    })
}

/// The first number past the cap in size.
fn first_past(xs: &[i128], cap: u128) -> Option<usize>
    ensures { result ≡ past_from cap 0 xs.now }
{
    for (i, x) in xs.iter().enumerate() {
        if x.unsigned_abs() > cap {
            return Some(i);
        }
    }
    None
}

/// The cap of the entries of the row at place `i`.
pub fn entry_cap(caps: Caps, n: usize, i: usize) -> u128
    ensures { result ≡ entry_cap (limits_of caps) n i }
{
    if i < n {
        u128::from(caps.body)
    } else {
        caps.cost
    }
}

/// The cap of the weight of the row at place `i`.
fn weight_cap(caps: Caps, n: usize, i: usize) -> u128
    ensures { result ≡ weight_cap (limits_of caps) n i }
{
    if i > n {
        caps.cost
    } else {
        u128::from(caps.body)
    }
}

/// The place of the row's first number past its cap.
fn past_in(row: &Row, caps: Caps, n: usize, i: usize) -> Option<usize>
    ensures { result ≡ past_in (limits_of caps) n i (equation_of row.now) }
{
    let cap = entry_cap(caps, n, i);
    if let Some(place) = first_past(row.entries.as_slice(), cap) {
        return Some(place);
    }
    if row.right.unsigned_abs() > cap {
        return Some(row.entries.len());
    }
    if row.weight.unsigned_abs() > weight_cap(caps, n, i) {
        return Some(row.entries.len() + 1);
    }
    None
}

/// The rows after the pivot in row `r` at the column `col`, unless a number is past its cap.
pub fn rows_after(
    alloc: Global,
    rows: &[Row],
    n: usize,
    r: usize,
    col: usize,
    turned: &Row,
    caps: Caps,
) -> Result<Vec<Row>, TableFault>
    requires col { col < vec_len turned.now.entries }
    requires helpers { n ≤ vec_len turned.now.entries }
    requires same { All (λ row. length row.entries.items
        ≡ length turned.now.entries.items) rows.now }
    requires rows { All (λ row. IsSmallRow (2 ^ 84) (equation_of row)) rows.now }
    requires turned { IsSmallRow (2 ^ 40) (equation_of turned.now) }
    requires some { (i : ℕ) (row : Row) → i < length rows.now → i ≢ r →
        excess n col i (equation_of (get_or rows.now i row)) ≢ pos 0 →
        0 < divisor n (combined_row (get_or turned.now.entries.items col (pos 0))
        (excess n col i (equation_of (get_or rows.now i row)))
        (equation_of (get_or rows.now i row)) (equation_of turned.now)) }
    ensures rows { IfOk result (λ v. map equation_of v.items
        ≡ rows_after n r col (equation_of turned.now) 0 (map equation_of rows.now)) }
    ensures within { OnOk result (past_of (limits_of caps) n 0
        (rows_after n r col (equation_of turned.now) 0 (map equation_of rows.now)) ≡ None) }
    ensures wide { (row past : ℕ) → IsErrOf result (TableFault.Wide row past) →
        past_of (limits_of caps) n 0
        (rows_after n r col (equation_of turned.now) 0 (map equation_of rows.now))
        ≡ Some (row, past) }
{
    let mut out = Vec::new(alloc);
    for (i, row) in rows.iter().enumerate() {
        let next = row_after(alloc, n, r, col, turned, i, row)?;
        if let Some(past) = past_in(&next, caps, n, i) {
            return Err(TableFault::Wide { row: i, col: past });
        }
        out.push(next)?;
    }
    Ok(out)
}
