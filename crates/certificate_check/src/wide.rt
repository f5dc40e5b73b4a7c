//! A wide root: its columns are routes of a fleet, and its basis over them is past the caps.

ghost use Rattle.std.specs.Prelude.{◌≤◌, IfOk, length, option_map};
ghost use Rattle.bound_certificate.specs.Ranges.{BasisFits, customer_count};
ghost use Rattle.certificate_check.specs.Columns.{TellsColumns, TellsWide};
ghost use Rattle.instance_reader.specs.Instance.{customer_nodes, most_customers};

use crate::basis::is_wide_basis;
use crate::routes::fleet_route;
use bound_certificate::BasisEntry;
use instance_reader::Instance;
use master_table::ListedRoute;
use route_plan::RoutePlan;
use std::alloc::{AllocError, Global};

/// Whether the columns are routes of a fleet, and the basis over them is too wide.
pub(crate) fn is_wide(
    alloc: Global,
    inst: &Instance,
    columns: &[RoutePlan],
    basis: &[BasisEntry],
) -> Result<bool, AllocError>
    requires few { length (customer_nodes inst.now) ≤ most_customers }
    requires basis { BasisFits (customer_count inst.now) (length columns.now) basis.now }
    ensures { IfOk result (TellsWide inst.now columns.now basis.now) }
{
    let Some(routes) = listed_routes(alloc, inst, columns)? else {
        return Ok(false);
    };
    is_wide_basis(alloc, inst.customers().len(), routes.as_slice(), basis)
}

/// The columns as listed routes, or none where one of them is no route of a fleet.
fn listed_routes(
    alloc: Global,
    inst: &Instance,
    columns: &[RoutePlan],
) -> Result<Option<Vec<ListedRoute>>, AllocError>
    requires few { length (customer_nodes inst.now) ≤ most_customers }
    ensures { IfOk result (λ routes.
        TellsColumns inst.now columns.now (option_map (λ v. v.items) routes)) }
{
    let mut routes = Vec::new(alloc);
    for column in columns {
        let Some(route) = fleet_route(inst, column.stops.as_slice()) else {
            return Ok(None);
        };
        routes.push(route)?;
    }
    Ok(Some(routes))
}
