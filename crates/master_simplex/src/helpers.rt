//! Helpers leave the basis where their share is 0.

ghost use Rattle.std.specs.Prelude.{◌≡◌, ◌≢◌, ◌+◌, ◌<◌, ◌≤◌, ℕ, ℤ, pos, IfSome, IsNone, OnOk, OnErr, IsErrOf, Vec, length, get_or};
ghost use Rattle.std.specs.Global.{Global};
ghost use Rattle.master_table.specs.Tableau.{entry_at, size};
ghost use Rattle.master_simplex.specs.Phase.{AreHelpersIdle, IsDriven, IsFeasible, IsReached, IsRefused};

use crate::basis::exchange;
use crate::fault::LpFault;
use master_table::Table;
use std::alloc::Global;

/// The first added column at which the row has an entry.
fn some_entry(t: &Table, row: usize) -> Option<usize>
    requires { row < size t.now }
    ensures some { IfSome result (λ col. (size t.now ≤ col) × (col < length t.now.columns) ×
        (entry_at t.now row col ≢ pos 0)) }
    ensures none { IsNone result → (j : ℕ) → size t.now ≤ j → j < length t.now.columns →
        entry_at t.now row j ≡ pos 0 }
{
    for col in t.rows()..t.columns() {
        if t.entry(row, col) != 0 {
            return Some(col);
        }
    }
    None
}

/// Lets the row's helper, if it has one, leave for an added column, if the row has an entry at one.
fn drive(alloc: Global, t: &mut Table, row: usize) -> Result<(), LpFault>
    requires row { row < size t.old }
    requires driven { IsDriven t.old row }
    ensures driven { OnOk result (IsDriven t.new (row + 1)) }
    ensures reached { IsReached t.old t.new }
    ensures wide { (basis : Vec ℕ Global) → IsErrOf result (LpFault.Wide basis) →
        IsRefused basis.items t.new }
{
    let n = t.rows();
    prove!(row < n);
    if t.basic(row) >= n {
        return Ok(());
    }
    let Some(col) = some_entry(t, row) else {
        return Ok(());
    };
    exchange(alloc, t, row, col)
}

/// Lets each helper leave whose row has an entry at an added column.
pub fn drive_out(alloc: Global, t: &mut Table) -> Result<(), LpFault>
    requires { IsDriven t.old 0 }
    ensures feasible { OnOk result (IsFeasible t.new) }
    ensures idle { OnOk result (AreHelpersIdle t.new) }
    ensures reached { IsReached t.old t.new }
    ensures wide { (basis : Vec ℕ Global) → IsErrOf result (LpFault.Wide basis) →
        IsRefused basis.items t.new }
{
    for row in 0..t.rows() {
        drive(alloc, t, row)?;
    }
    Ok(())
}
