//! The answer for one route.

ghost use Rattle.std.specs.Prelude.{◌≡◌, ◌↔◌, ◌<◌, ◌≤◌, ℕ, IfOk, IsErrOf, MatchOption};
ghost use Rattle.ev_model.specs.Fastest.{HasNoPlan, IsFastest};
ghost use Rattle.ev_model.specs.Route.{IsRoute};
ghost use Rattle.level_table.specs.Answer.{cell_count, most_cells};
ghost use Rattle.level_table.specs.declared.fault.LevelFault.{LevelFault};

use crate::fault::LevelFault;
use crate::stations::{station_count, stations_of};
use crate::trip::Trip;
use ev_list::Listed;
use instance_reader::Instance;
use route_plan::RoutePlan;
use std::alloc::{AllocError, Global};

/// The most cells of a table.
const MOST_CELLS: u128 = 20_000_000;

/// A fastest plan of the route for a vehicle that starts with the charge `start`, in units of
/// charge: a whole plan than which no feasible plan in any fraction of a unit is faster.
///
/// `route` holds the nodes of the route in order, from the depot to the depot. `Ok(None)` comes
/// exactly where no plan of the route is feasible, in any fraction of a unit.
///
/// The cells of the table are counted as `(route.len() - 1) * (stations + 1) * (max_q + 1)`, where
/// the stations are the nodes that have a curve. `Levels` states this number and comes exactly
/// where it is past 2 * 10^7.
pub fn solve_levels(
    alloc: Global,
    inst: &Instance,
    route: &[usize],
    start: u64,
) -> Result<Option<RoutePlan>, LevelFault>
    requires route { IsRoute inst.now route.now }
    requires start { start ≤ inst.now.capacity }

    ensures answer { IfOk result (λ answer. MatchOption answer (HasNoPlan inst.now route.now start)
        (λ plan. IsFastest inst.now route.now start plan.stops)) }

    ensures levels { (cells : ℕ) → IsErrOf result (LevelFault.Levels cells)
        ↔ ((cells ≡ cell_count inst.now route.now) × (most_cells < cells)) }
{
    let cells = table_size(inst, route);
    if cells > MOST_CELLS {
        return Err(LevelFault::Levels { cells });
    }
    match fastest_plan(alloc, inst, route, start) {
        Ok(answer) => Ok(answer),
        Err(AllocError) => Err(LevelFault::Memory),
    }
}

/// How many cells the table has. It takes no memory.
fn table_size(inst: &Instance, route: &[usize]) -> u128
    requires { IsRoute inst.now route.now }
    ensures { result ≡ cell_count inst.now route.now }
{
    let rows = (route.len() - 1) as u128 * (station_count(inst) as u128 + 1);
    rows * (inst.max_q() as u128 + 1)
}

/// The answer where the table is small enough.
fn fastest_plan(
    alloc: Global,
    inst: &Instance,
    route: &[usize],
    start: u64,
) -> Result<Option<RoutePlan>, AllocError>
    requires route { IsRoute inst.now route.now }
    requires start { start ≤ inst.now.capacity }
    requires small { cell_count inst.now route.now ≤ most_cells }
    ensures { IfOk result (λ answer. MatchOption answer (HasNoPlan inst.now route.now start)
        (λ plan. IsFastest inst.now route.now start plan.stops)) }
{
    let stations = stations_of(alloc, inst)?;
    let trip = Trip {
        inst,
        route,
        stations: &stations,
    };
    let Some(stops) = trip.fastest(alloc, start)? else {
        return Ok(None);
    };
    Ok(Some(RoutePlan {
        stops: Listed::from_vec(stops),
    }))
}
