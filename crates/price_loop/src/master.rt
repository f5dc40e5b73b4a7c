//! The master problem: its table, and the routes of the table's columns.

ghost use Rattle.std.specs.Prelude.{◌≡◌, ◌+◌, ◌++◌, ◌∷◌, ◌≤◌, ◌^◌, [], All, IfErr, IfOk, OnErr, OnOk, length, unsigned_abs};
ghost use Rattle.master_simplex.specs.Answer.{IsAnswer, IsLpWithin};
ghost use Rattle.master_table.specs.RowView.{limits_of};
ghost use Rattle.price_loop.specs.Masters.{IsFault, IsMaster};

use crate::earners::Earners;
use crate::fault::MasterFault;
use master_simplex::{Lp, LpFault, solve};
use master_table::{Caps, Table, TableFault};
use std::alloc::{AllocError, AllocFailed, Global};

/// The table of a master problem, and the routes of its added columns, in order.
#[derive(Drop)]
pub(crate) struct Master<R: Drop> {
    pub(crate) table: Table,
    pub(crate) routes: Vec<R>,
}

/// The master problem without a route.
pub(crate) fn fresh_master<E: Earners>(
    alloc: Global,
    earners: &E,
    caps: Caps,
) -> Result<Master<E::Route>, AllocError>
    requires body { 1 ≤ caps.body }
    requires body_cap { caps.body ≤ 2 ^ 40 }
    requires cost { 128 ≤ caps.cost }
    requires cost_cap { caps.cost ≤ 2 ^ 84 }
    ensures master { IfOk result (IsMaster (E.problem earners.now) (limits_of caps)) }
    ensures empty { IfOk result (λ m. m.routes.items ≡ []) }
{
    match Table::new(alloc, earners.customers(), caps) {
        Ok(table) => Ok(Master {
            table,
            routes: Vec::new(alloc),
        }),
        Err(TableFault::Memory) => Err(AllocError),
        Err(TableFault::Wide { .. }) => unreachable!(),
    }
}

/// Adds a route as a column. Where the table refuses the column, its route is the last of the
/// routes.
pub(crate) fn add<E: Earners>(
    alloc: Global,
    earners: &E,
    master: &mut Master<E::Route>,
    route: E::Route,
) -> Result<(), MasterFault>
    requires route { (E.problem earners.now).is_route route }
    requires master { IsMaster (E.problem earners.now) master.old.table.caps master.old }
    ensures master { OnOk result
        (IsMaster (E.problem earners.now) master.old.table.caps master.new) }
    ensures more { OnOk result
        (master.new.routes.items ≡ master.old.routes.items ++ route ∷ []) }
    ensures fault { IfErr result
        (IsFault (E.problem earners.now) master.old.table.caps master.new.routes.items) }
{
    let set = earners.set(&route);
    let cost = earners.cost(&route);
    if let Err(AllocFailed { .. }) = master.routes.push(route) {
        return Err(MasterFault::Memory);
    }
    match master.table.add_column(set, cost) {
        Ok(_) => Ok(()),
        Err(TableFault::Memory) => Err(MasterFault::Memory),
        Err(TableFault::Wide { .. }) => {
            let basis = basis_of(alloc, &master.table)?;
            Err(MasterFault::Wide { basis })
        }
    }
}

/// Adds routes as columns.
pub(crate) fn add_all<E: Earners>(
    alloc: Global,
    earners: &E,
    master: &mut Master<E::Route>,
    routes: Vec<E::Route>,
) -> Result<(), MasterFault>
    requires routes { All (E.problem earners.now).is_route routes.items }
    requires master { IsMaster (E.problem earners.now) master.old.table.caps master.old }
    ensures master { OnOk result
        (IsMaster (E.problem earners.now) master.old.table.caps master.new) }
    ensures more { OnOk result
        (length master.new.routes.items ≡ length master.old.routes.items + length routes.items) }
    ensures fault { IfErr result
        (IsFault (E.problem earners.now) master.old.table.caps master.new.routes.items) }
{
    for route in routes {
        add(alloc, earners, master, route)?;
    }
    Ok(())
}

/// The answer of the simplex method on the master problem's table.
pub(crate) fn solve_master<E: Earners>(
    alloc: Global,
    earners: &E,
    master: &mut Master<E::Route>,
) -> Result<Lp, MasterFault>
    requires { IsMaster (E.problem earners.now) master.old.table.caps master.old }
    ensures answer { IfOk result (IsAnswer master.new.table) }
    ensures within { IfOk result (IsLpWithin master.new.table) }
    ensures weight { IfOk result (λ lp. lp.weight ≤ 2 ^ 40) }
    ensures one_price { IfOk result (λ lp.
        length lp.prices.items ≡ (E.problem earners.now).customers) }
    ensures small_prices { IfOk result (λ lp.
        All (λ price. unsigned_abs price ≤ 2 ^ 84) lp.prices.items) }
    ensures master { IsMaster (E.problem earners.now) master.old.table.caps master.new }
    ensures routes { master.new.routes ≡ master.old.routes }
    ensures fault { IfErr result
        (IsFault (E.problem earners.now) master.old.table.caps master.new.routes.items) }
{
    match solve(alloc, &mut master.table) {
        Ok(lp) => Ok(lp),
        Err(LpFault::Memory) => Err(MasterFault::Memory),
        Err(LpFault::Wide { basis }) => Err(MasterFault::Wide { basis }),
    }
}

/// The numbers of the basis columns.
pub(crate) fn basis_of(alloc: Global, table: &Table) -> Result<Vec<usize>, AllocError>
    ensures { IfOk result (λ basis. basis.items ≡ table.now.basis) }
{
    let mut basis = Vec::new(alloc);
    for row in 0..table.rows() {
        basis.push(table.basic(row))?;
    }
    Ok(basis)
}
