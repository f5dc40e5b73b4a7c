//! An exact root: its shares are a fractional cover, which costs the price sum of section 0 over
//! its weight.

ghost use Rattle.std.specs.Prelude.{◌≤◌, IfOk, length, option_map};
ghost use Rattle.bound_certificate.specs.Meaning.{priced_section, route_shares};
ghost use Rattle.bound_certificate.specs.Ranges.{SectionFits, SharesFit};
ghost use Rattle.certificate_check.specs.Shares.{TellsExact, TellsShared};
ghost use Rattle.instance_reader.specs.Instance.{customer_nodes, most_customers};

use crate::cover::{SharedRoute, cover_exactly};
use crate::routes::fleet_route;
use bound_certificate::{Section, Share};
use instance_reader::Instance;
use std::alloc::{AllocError, Global};

/// Whether the shares are a fractional cover, and cost the price sum of the section over its
/// weight, which is above 0.
pub(crate) fn is_exact(
    alloc: Global,
    inst: &Instance,
    section: &Section,
    over: u64,
    shares: &[Share],
) -> Result<bool, AllocError>
    requires few { length (customer_nodes inst.now) ≤ most_customers }
    requires fits { SectionFits inst.now section.now }
    requires shares { SharesFit over shares.now }
    ensures { IfOk result
        (TellsExact inst.now (priced_section section.now) over (route_shares shares.now)) }
{
    let Some(routes) = shared_routes(alloc, inst, shares)? else {
        return Ok(false);
    };
    let customers = inst.customers().len();
    let prices = section.prices.as_slice();
    Ok(cover_exactly(customers, section.weight, prices, over, routes.as_slice()))
}

/// The plans as listed routes with their shares, or none where one of them is no route of a fleet.
fn shared_routes(
    alloc: Global,
    inst: &Instance,
    shares: &[Share],
) -> Result<Option<Vec<SharedRoute>>, AllocError>
    requires few { length (customer_nodes inst.now) ≤ most_customers }
    ensures { IfOk result (λ routes.
        TellsShared inst.now shares.now (option_map (λ v. v.items) routes)) }
{
    let mut routes = Vec::new(alloc);
    for share in shares {
        let Some(route) = fleet_route(inst, share.plan.stops.as_slice()) else {
            return Ok(None);
        };
        routes.push(SharedRoute {
            share: share.share,
            route,
        })?;
    }
    Ok(Some(routes))
}
