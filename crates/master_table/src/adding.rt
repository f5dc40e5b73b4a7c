//! The entries of a further column, and how the rows take them.

ghost use Rattle.std.specs.Prelude.{cond, get_or, pos, ◌*ℤ◌, ◌≡◌, ◌+◌, ◌*◌, ◌<◌, ◌≤◌, ◌^◌, ℕ, ℤ, List, All, IfOk, OnOk, OnErr, length, map, take, unsigned_abs, vec_len, vec_capacity, IsOk};
ghost use Rattle.fleet_model.specs.Equations.{entry, route, serves};
ghost use Rattle.master_table.specs.Adding.{extended_row, extended_rows, new_entries, new_entry, past_row};
ghost use Rattle.master_table.specs.RowView.{equation_of, limits_of, IsSmallRow};
ghost use Rattle.master_table.specs.declared.rows.Row.{Row};

use crate::caps::Caps;
use crate::rows::{Row, entry_cap};
use customer_sets::CustSet;
use std::alloc::{AllocError, Global};

/// The number where the customer is in the set, and else 0.
fn number_if_in(set: CustSet, c: usize, number: i128) -> i128
    requires { c < 128 }
    ensures { result ≡ cond (serves (route set 0) c) number (pos 0) }
{
    if set.has(c) { number } else { 0 }
}

/// The sum of the multipliers over the customers of the set.
fn total_over(multipliers: &[i128], set: CustSet) -> i128
    requires count { length multipliers.now ≤ 128 }
    requires small { All (λ x. unsigned_abs x ≤ 2 ^ 84) multipliers.now }
    ensures value { (cost : ℕ) → result ≡ entry multipliers.now (route set cost) }
    ensures small { unsigned_abs result ≤ 2 ^ 91 }
{
    let mut sum = 0;
    for c in 0..multipliers.len() {
        sum += number_if_in(set, c, multipliers[c]);
    }
    sum
}

/// The entry of the row at place `i` at a column of the set and the cost.
fn new_entry(row: &Row, n: usize, i: usize, set: CustSet, cost: u64) -> i128
    requires count { n ≤ 128 }
    requires helpers { n ≤ vec_len row.now.entries }
    requires row { IsSmallRow (2 ^ 84) (equation_of row.now) }
    requires weight { i ≤ n → unsigned_abs row.now.weight ≤ 2 ^ 40 }
    ensures { result ≡ new_entry n (route set cost) i (equation_of row.now) }
{
    let total = total_over(&row.entries[..n], set);
    if i > n {
        return total;
    }
    cost_times_weight(row.weight, cost) + total
}

/// The cost, times the weight.
fn cost_times_weight(weight: i128, cost: u64) -> i128
    requires { unsigned_abs weight ≤ 2 ^ 40 }
    ensures value { result ≡ weight *ℤ pos cost }
    ensures small { unsigned_abs result ≤ 2 ^ 104 }
{
    weight * i128::from(cost)
}

/// The entries of all rows at the column.
pub fn new_entries(
    alloc: Global,
    rows: &[Row],
    n: usize,
    set: CustSet,
    cost: u64,
) -> Result<Vec<i128>, AllocError>
    requires count { n ≤ 128 }
    requires helpers { All (λ row. n ≤ vec_len row.entries) rows.now }
    requires rows { All (λ row. IsSmallRow (2 ^ 84) (equation_of row)) rows.now }
    requires weights { (i : ℕ) (d : Row) → i < length rows.now → i ≤ n →
        unsigned_abs (get_or rows.now i d).weight ≤ 2 ^ 40 }
    ensures { IfOk result (λ v. v.items
        ≡ new_entries n (route set cost) 0 (map equation_of rows.now)) }
{
    let mut entries = Vec::with_capacity(alloc, rows.len())?;
    for (i, row) in rows.iter().enumerate() {
        entries.push(new_entry(row, n, i, set, cost))?;
    }
    Ok(entries)
}

/// The first row whose entry is past its cap.
pub fn past_row(entries: &[i128], caps: Caps, n: usize) -> Option<usize>
    ensures { result ≡ past_row (limits_of caps) n 0 entries.now }
{
    for (i, entry) in entries.iter().enumerate() {
        if entry.unsigned_abs() > entry_cap(caps, n, i) {
            return Some(i);
        }
    }
    None
}

/// Makes room for one more entry.
fn make_room_in(row: &mut Row) -> Result<(), AllocError>
    ensures same { equation_of row.new ≡ equation_of row.old }
    ensures room { OnOk result (vec_len row.new.entries < vec_capacity row.new.entries) }
{
    row.entries.reserve(1)?;
    Ok(())
}

/// Makes room for one more entry in each row.
pub fn make_room(rows: &mut Vec<Row>) -> Result<(), AllocError>
    ensures same { map equation_of rows.new.items ≡ map equation_of rows.old.items }
    ensures room { OnOk result (All (λ row.
        vec_len row.entries < vec_capacity row.entries) rows.new.items) }
{
    for i in 0..rows.len() {
        make_room_in(&mut rows[i])?;
    }
    Ok(())
}

/// Puts an entry behind the others. It takes no memory.
fn push_entry(row: &mut Row, entry: i128)
    requires { vec_len row.old.entries < vec_capacity row.old.entries }
    ensures { equation_of row.new ≡ extended_row (equation_of row.old) entry }
{
    let pushed = row.entries.push(entry).is_ok();
    prove!(pushed);
}

/// Puts an entry behind the others of each row. It takes no memory.
pub fn push_entries(rows: &mut Vec<Row>, entries: &[i128])
    requires same { length rows.old.items ≡ length entries.now }
    requires room { All (λ row. vec_len row.entries < vec_capacity row.entries) rows.old.items }
    ensures { map equation_of rows.new.items
        ≡ extended_rows (map equation_of rows.old.items) entries.now }
{
    for i in 0..rows.len() {
        push_entry(&mut rows[i], entries[i]);
    }
}
