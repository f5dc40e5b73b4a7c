//! The basis of a table, and an exchange of one of its columns.

ghost use Rattle.std.specs.Prelude.{◌≡◌, ◌≢◌, ◌+◌, ◌<◌, ◌≤◌, ℕ, ℤ, pos, Vec, IfOk, OnOk, OnErr, IsErrOf, length, get_or, set};
ghost use Rattle.std.specs.Global.{Global};
ghost use Rattle.master_table.specs.Tableau.{entry_at, row_at, size, IsBasisPast, IsTableau, IsWithinCaps};
ghost use Rattle.master_table.specs.Pivoting.{pivoted, IsPivotOf};
ghost use Rattle.master_simplex.specs.Phase.{IsReached, IsRefused};

use crate::fault::LpFault;
use master_table::{Table, TableFault};
use std::alloc::{AllocError, Global};

/// The basis columns of the rows.
pub fn basis_of(alloc: Global, t: &Table) -> Result<Vec<usize>, AllocError>
    ensures value { IfOk result (λ basis. basis.items ≡ t.now.basis) }
    ensures tableau { IsTableau t.now }
{
    let mut basis = Vec::new(alloc);
    for row in 0..t.rows() {
        basis.push(t.basic(row))?;
    }
    Ok(basis)
}

/// The basis with the column in place of the row's.
fn basis_with(alloc: Global, t: &Table, row: usize, col: usize) -> Result<Vec<usize>, AllocError>
    requires { row < size t.now }
    ensures { IfOk result (λ basis. basis.items ≡ set t.now.basis row col) }
{
    let mut basis = basis_of(alloc, t)?;
    basis[row] = col;
    Ok(basis)
}

/// Brings the column into the basis, in place of the row's basis column.
///
/// `Wide` names the basis that there would be. After a refusal the table is as before.
pub fn exchange(alloc: Global, t: &mut Table, row: usize, col: usize) -> Result<(), LpFault>
    requires row { row < size t.old }
    requires col { col < length t.old.columns }
    requires entry { entry_at t.old row col ≢ pos 0 }
    ensures ok { OnOk result (IsPivotOf row col t.old t.new) }
    ensures reached { IsReached t.old t.new }
    ensures unchanged { OnErr result (t.new ≡ t.old) }
    ensures wide { (basis : Vec ℕ Global) → IsErrOf result (LpFault.Wide basis) →
        IsRefused basis.items t.new }
    ensures tableau { IsTableau t.new }
    ensures within { IsWithinCaps t.new }
{
    let n = t.rows();
    prove!(row < n);
    match t.pivot(row, col) {
        Ok(()) => {
            let after = t.rows();
            prove!(after == n);
            Ok(())
        }
        Err(TableFault::Memory) => Err(LpFault::Memory),
        Err(TableFault::Wide { .. }) => match basis_with(alloc, t, row, col) {
            Ok(basis) => Err(LpFault::Wide { basis }),
            Err(AllocError) => Err(LpFault::Memory),
        },
    }
}
