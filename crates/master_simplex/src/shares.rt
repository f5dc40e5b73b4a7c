//! The shares of the basis columns.

ghost use Rattle.std.specs.Prelude.{◌≡◌, ◌<◌, ◌≤◌, ℕ, IfOk};
ghost use Rattle.master_table.specs.Tableau.{size};
ghost use Rattle.master_simplex.specs.Sharing.{given, share_at};

use master_table::{Table, own_size, right_size};
use std::alloc::{AllocError, Global};

/// The share of the row's basis column, times `over`.
fn share(t: &Table, over: u64, row: usize) -> u64
    requires row { row < size t.now }
    requires small { share_at t.now over row ≤ over }
    ensures { result ≡ share_at t.now over row }
{
    let share = u128::from(over) * right_size(t, row) / own_size(t, row);
    share as u64
}

/// The basis columns with a share above 0, and their shares, times `over`.
pub fn shares(alloc: Global, t: &Table, over: u64) -> Result<Vec<(usize, u64)>, AllocError>
    requires { (i : ℕ) → i < size t.now → share_at t.now over i ≤ over }
    ensures { IfOk result (λ v. v.items ≡ given t.now over (size t.now)) }
{
    let mut found = Vec::new(alloc);
    for row in 0..t.rows() {
        let share = share(t, over, row);
        if share > 0 {
            found.push((t.basic(row), share))?;
        }
    }
    Ok(found)
}
