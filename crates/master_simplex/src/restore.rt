//! All helpers come back where a share is below 0.

ghost use Rattle.std.specs.Prelude.{◌≡◌, ◌≢◌, ◌+◌, ◌<◌, ◌≤◌, ℕ, ℤ, pos, IfSome, IsNone, IsTrue, IsFalse, OnOk, OnErr, IsErrOf, Vec, length, get_or};
ghost use Rattle.std.specs.Global.{Global};
ghost use Rattle.master_table.specs.Tableau.{entry_at, size};
ghost use Rattle.master_simplex.specs.Phase.{AreBasic, IsFeasible, IsReached, IsRefused};

use crate::basis::exchange;
use crate::fault::LpFault;
use master_table::Table;
use std::alloc::Global;

/// Whether no right side of a customer's row is below 0.
fn is_feasible(t: &Table) -> bool
    ensures { IsTrue result → IsFeasible t.now }
{
    for i in 0..t.rows() {
        if t.entry(i, t.columns()) < 0 {
            return false;
        }
    }
    true
}

/// The row whose basis column it is.
fn row_of(t: &Table, col: usize) -> Option<usize>
    ensures some { IfSome result (λ row. (row < size t.now) × (get_or t.now.basis row 0 ≡ col)) }
    ensures none { IsNone result → (i : ℕ) → i < size t.now → get_or t.now.basis i 0 ≢ col }
{
    for row in 0..t.rows() {
        if t.basic(row) == col {
            return Some(row);
        }
    }
    None
}

/// The first row of an added column that has an entry at the column.
fn added_row(t: &Table, col: usize) -> Option<usize>
    requires helper { col < size t.now }
    requires inside { col < length t.now.columns }
    ensures some { IfSome result (λ row. (row < size t.now) ×
        (size t.now ≤ get_or t.now.basis row 0) × (entry_at t.now row col ≢ pos 0)) }
    ensures none { IsNone result → (i : ℕ) → i < size t.now → size t.now ≤ get_or t.now.basis i 0 →
        entry_at t.now i col ≡ pos 0 }
{
    let n = t.rows();
    for row in 0..n {
        if t.basic(row) >= n && t.entry(row, col) != 0 {
            return Some(row);
        }
    }
    None
}

/// Brings the helper back, in place of an added column.
fn bring_back(alloc: Global, t: &mut Table, helper: usize) -> Result<(), LpFault>
    requires helper { helper < size t.old }
    requires before { AreBasic t.old helper }
    ensures basic { OnOk result (AreBasic t.new (helper + 1)) }
    ensures reached { IsReached t.old t.new }
    ensures wide { (basis : Vec ℕ Global) → IsErrOf result (LpFault.Wide basis) →
        IsRefused basis.items t.new }
{
    let n = t.rows();
    let columns = t.columns();
    prove!(helper < n && n <= columns);
    let None = row_of(t, helper) else {
        return Ok(());
    };
    let Some(row) = added_row(t, helper) else {
        return Ok(());
    };
    exchange(alloc, t, row, helper)
}

/// Brings all helpers back.
fn bring_all_back(alloc: Global, t: &mut Table) -> Result<(), LpFault>
    ensures feasible { OnOk result (IsFeasible t.new) }
    ensures reached { IsReached t.old t.new }
    ensures wide { (basis : Vec ℕ Global) → IsErrOf result (LpFault.Wide basis) →
        IsRefused basis.items t.new }
{
    for helper in 0..t.rows() {
        bring_back(alloc, t, helper)?;
    }
    let n = t.rows();
    prove!(n <= 128);
    Ok(())
}

/// Brings all helpers back where a right side of a customer's row is below 0.
pub fn restore(alloc: Global, t: &mut Table) -> Result<(), LpFault>
    ensures feasible { OnOk result (IsFeasible t.new) }
    ensures reached { IsReached t.old t.new }
    ensures wide { (basis : Vec ℕ Global) → IsErrOf result (LpFault.Wide basis) →
        IsRefused basis.items t.new }
{
    if is_feasible(t) {
        return Ok(());
    }
    bring_all_back(alloc, t)
}
