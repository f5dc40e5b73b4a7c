//! The rows and the basis of a table before any pivot.

ghost use Rattle.std.specs.Prelude.{◌≡◌, ◌+◌, ◌≤◌, IfOk, map};
ghost use Rattle.std.specs.List.{range_with_len};
ghost use Rattle.master_table.specs.Fresh.{fresh_entry, fresh_row};
ghost use Rattle.master_table.specs.RowView.{equation_of};

use crate::rows::Row;
use std::alloc::{AllocError, Global};

/// The entry of row `i` at the helper of customer `c`.
fn fresh_entry(n: usize, i: usize, c: usize) -> i128
    ensures { result ≡ fresh_entry n i c }
{
    if i < n {
        i128::from(c == i)
    } else {
        i128::from(i != n)
    }
}

/// The right side of row `i`.
fn fresh_right(n: usize, i: usize) -> i128
    requires { n ≤ 128 }
    ensures { result ≡ (fresh_row n i).right }
{
    if i < n {
        1
    } else if i == n {
        0
    } else {
        n as i128
    }
}

/// The row at place `i`.
fn fresh_row(alloc: Global, n: usize, i: usize) -> Result<Row, AllocError>
    requires { n ≤ 128 }
    ensures { IfOk result (λ v. equation_of v ≡ fresh_row n i) }
{
    let mut entries = Vec::with_capacity(alloc, n)?;
    for c in 0..n {
        entries.push(fresh_entry(n, i, c))?;
    }
    Ok(Row {
        weight: i128::from(i >= n),
        right: fresh_right(n, i),
        entries,
    })
}

/// The rows of `n` customers, the cost row and the helper row.
pub fn fresh_rows(alloc: Global, n: usize) -> Result<Vec<Row>, AllocError>
    requires { n ≤ 128 }
    ensures { IfOk result (λ v. map equation_of v.items
        ≡ map (fresh_row n) (range_with_len 0 (n + 2))) }
{
    let mut rows = Vec::with_capacity(alloc, n + 2)?;
    for i in 0..n + 2 {
        rows.push(fresh_row(alloc, n, i)?)?;
    }
    Ok(rows)
}

/// The basis of the helpers.
pub fn fresh_basis(alloc: Global, n: usize) -> Result<Vec<usize>, AllocError>
    ensures { IfOk result (λ v. v.items ≡ range_with_len 0 n) }
{
    let mut basis = Vec::with_capacity(alloc, n)?;
    for c in 0..n {
        basis.push(c)?;
    }
    Ok(basis)
}
