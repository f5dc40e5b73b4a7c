//! Whether the root of a certificate is in its ranges.

ghost use Rattle.std.specs.Prelude.{◌↔◌, IsTrue};
ghost use Rattle.std.specs.List.{All};
ghost use Rattle.certificate_parts.specs.Ranges.{ColumnFits};
ghost use Rattle.bound_certificate.specs.Ranges.{ColumnsFit, RootFits, ShareFits, SharesFit};

use crate::certificate::{Root, Share};
use certificate_parts::{BasisEntry, basis_fits, is_weight, stops_fit};
use route_plan::RoutePlan;

/// Whether a root is in its ranges.
pub(crate) fn root_fits(customers: usize, root: &Root) -> bool
    ensures { IsTrue result ↔ RootFits customers root.now }
{
    match root {
        Root::None => true,
        Root::Exact { over, shares } => shares_fit(*over, shares.as_slice()),
        Root::Wide { columns, basis } => {
            columns_fit(customers, columns.as_slice(), basis.as_slice())
        }
    }
}

/// Whether the shares of an exact root are in their ranges.
fn shares_fit(over: u64, shares: &[Share]) -> bool
    ensures { IsTrue result ↔ SharesFit over shares.now }
{
    is_weight(over) && each_share_fits(shares)
}

fn each_share_fits(shares: &[Share]) -> bool
    ensures { IsTrue result ↔ All ShareFits shares.now }
{
    for share in shares {
        if !share_fits(share) {
            return false;
        }
    }
    true
}

fn share_fits(share: &Share) -> bool
    ensures { IsTrue result ↔ ShareFits share.now }
{
    is_weight(share.share) && stops_fit(share.plan.stops.as_slice())
}

/// Whether the columns and the basis of a wide root are in their ranges.
fn columns_fit(customers: usize, columns: &[RoutePlan], basis: &[BasisEntry]) -> bool
    ensures { IsTrue result ↔ ColumnsFit customers columns.now basis.now }
{
    each_column_fits(columns) && basis_fits(customers, columns.len(), basis)
}

fn each_column_fits(columns: &[RoutePlan]) -> bool
    ensures { IsTrue result ↔ All ColumnFits columns.now }
{
    for column in columns {
        if !column_fits(column) {
            return false;
        }
    }
    true
}

fn column_fits(column: &RoutePlan) -> bool
    ensures { IsTrue result ↔ ColumnFits column.now }
{
    stops_fit(column.stops.as_slice())
}
