//! The starts of a listed basis, one after the other.

ghost use Rattle.std.specs.Prelude.{◌≡◌, ◌+◌, ◌^◌, ◌<◌, ◌≤◌, ◌++◌, [], All, IfOk, IsTrue, IsFalse, length, map, true, false};
ghost use Rattle.fleet_model.specs.Equations.{column_at, helpers};
ghost use Rattle.master_table.specs.Tableau.{size};
ghost use Rattle.master_table.specs.Leaving.{IsStart};
ghost use Rattle.master_table.specs.Listed.{listed_columns, route_columns};
ghost use Rattle.master_table.specs.Starts.{HasStartPast};

use crate::caps::{Caps, TableFault};
use crate::leaving::{bring_in, is_past, leaving_row};
use crate::listed::ListedRoute;
use crate::starting::helper_table;
use crate::table::Table;
use customer_sets::CustSet;
use std::alloc::{AllocError, Global};

/// Whether some start of the entries is past the table's caps.
///
/// The table goes from start to start: of no entry, of the first, of the first two, and on. It
/// stops at the first that is past, and where an entry depends on those before it.
fn table_has_start_past(t: &mut Table, entries: &[usize]) -> Result<bool, AllocError>
    requires start { IsStart t.old entries.now 0 [] }
    requires entries { All (λ j. j < length t.old.columns) entries.now }
    ensures past { IfOk result (λ answer. IsTrue answer →
        HasStartPast t.old.caps.body t.old.caps.cost (size t.old) t.old.columns
        (map (column_at t.old.columns) entries.now)) }
    ensures within { IfOk result (λ answer. IsFalse answer →
        HasStartPast t.old.caps.body t.old.caps.cost (size t.old) t.old.columns
        (map (column_at t.old.columns) entries.now) → ⊥) }
{
    let mut taken = CustSet::empty();
    for col in entries {
        if is_past(t) {
            return Ok(true);
        }
        let Some(row) = leaving_row(t, taken, *col) else {
            return Ok(false);
        };
        match bring_in(t, row, *col) {
            Ok(()) => taken = taken.with(row),
            Err(TableFault::Wide { .. }) => return Ok(true),
            Err(TableFault::Memory) => return Err(AllocError),
        }
    }
    Ok(is_past(t))
}

/// Whether some start of the listed basis is past the caps. The cost cap has room for every time.
pub fn has_start_past(
    alloc: Global,
    caps: Caps,
    n: usize,
    routes: &[ListedRoute],
    entries: &[usize],
) -> Result<bool, AllocError>
    requires customers { n ≤ 128 }
    requires body { 1 ≤ caps.body }
    requires body_cap { caps.body ≤ 2 ^ 40 }
    requires cost { 2 ^ 64 ≤ caps.cost }
    requires cost_cap { caps.cost ≤ 2 ^ 84 }
    requires entries { All (λ j. j < n + length routes.now) entries.now }
    ensures past { IfOk result (λ answer. IsTrue answer →
        HasStartPast caps.body caps.cost n (helpers n ++ route_columns routes.now)
        (listed_columns n routes.now entries.now)) }
    ensures within { IfOk result (λ answer. IsFalse answer →
        HasStartPast caps.body caps.cost n (helpers n ++ route_columns routes.now)
        (listed_columns n routes.now entries.now) → ⊥) }
{
    let mut table = helper_table(alloc, caps, n, routes)?;
    table_has_start_past(&mut table, entries)
}
