//! Which helper makes room for an entry, and the exchange.

ghost use Rattle.std.specs.Prelude.{◌≡◌, ◌≢◌, ◌<◌, ◌↔◌, ℕ, pos, IfSome, IsTrue, OnOk, IsErrOf, length};
ghost use Rattle.master_table.specs.Tableau.{entry_at, size, IsBasisPast};
ghost use Rattle.master_table.specs.Leaving.{brought, IsLastToGo, MayGo};

use crate::caps::TableFault;
use crate::over::share_weight;
use crate::table::Table;
use customer_sets::CustSet;

/// Whether the table's basis is past its caps. No number of a table is, so the share weight tells.
pub fn is_past(t: &Table) -> bool
    ensures { IsTrue result ↔ IsBasisPast t.now }
{
    let n = t.rows();
    prove!(n <= 128);
    share_weight(t).is_none()
}

/// Whether the row's helper may make room for the column: the row holds no entry, and has something
/// of the column.
fn may_go(t: &Table, taken: CustSet, col: usize, row: usize) -> bool
    requires row { row < size t.now }
    requires col { col < length t.now.columns }
    ensures { IsTrue result ↔ MayGo t.now taken col row }
{
    let n = t.rows();
    prove!(row < n);
    !taken.has(row) && t.entry(row, col) != 0
}

/// The last row whose helper may make room for the column.
///
/// The last one, so that of the helpers those of the earliest customers stay.
pub fn leaving_row(t: &Table, taken: CustSet, col: usize) -> Option<usize>
    requires { col < length t.now.columns }
    ensures last { IsLastToGo t.now taken col (size t.now) result }
    ensures small { IfSome result (λ row. row < 128) }
{
    let mut last = None;
    for row in 0..t.rows() {
        if may_go(t, taken, col, row) {
            last = Some(row);
        }
    }
    last
}

/// Brings the column into the basis, in place of the row's, unless it stands there already.
pub fn bring_in(t: &mut Table, row: usize, col: usize) -> Result<(), TableFault>
    requires row { row < size t.old }
    requires col { col < length t.old.columns }
    requires entry { entry_at t.old row col ≢ pos 0 }
    ensures ok { OnOk result (t.new ≡ brought row col t.old) }
    ensures past { (past_row past_col : ℕ) → IsErrOf result (TableFault.Wide past_row past_col) →
        IsBasisPast (brought row col t.old) }
{
    if t.basic(row) == col {
        return Ok(());
    }
    t.pivot(row, col)
}
