//! The table that the test begins with: the helpers are the basis.

ghost use Rattle.std.specs.Prelude.{◌≡◌, ◌^◌, ◌≤◌, IfOk};
ghost use Rattle.master_table.specs.RowView.{limits_of};
ghost use Rattle.master_table.specs.Leaving.{IsHelperTable};

use crate::caps::{Caps, TableFault};
use crate::listed::ListedRoute;
use crate::table::Table;
use std::alloc::{AllocError, Global};

/// The table of the helpers' basis, with the columns of all routes.
///
/// Its numbers are at most 1 or `n`, or a time, so adding a column is never wide.
pub fn helper_table(
    alloc: Global,
    caps: Caps,
    n: usize,
    routes: &[ListedRoute],
) -> Result<Table, AllocError>
    requires customers { n ≤ 128 }
    requires body { 1 ≤ caps.body }
    requires body_cap { caps.body ≤ 2 ^ 40 }
    requires cost { 2 ^ 64 ≤ caps.cost }
    requires cost_cap { caps.cost ≤ 2 ^ 84 }
    ensures { IfOk result (λ t. IsHelperTable n (limits_of caps) routes.now t) }
{
    let mut table = match Table::new(alloc, n, caps) {
        Ok(table) => table,
        Err(TableFault::Memory) => return Err(AllocError),
        Err(TableFault::Wide { .. }) => unreachable!(),
    };
    for route in routes {
        let time = route.time;
        match table.add_column(route.set, time) {
            Ok(_) => {}
            Err(TableFault::Memory) => return Err(AllocError),
            Err(TableFault::Wide { .. }) => unreachable!(),
        }
    }
    Ok(table)
}
