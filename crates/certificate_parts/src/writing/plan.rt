//! Writing the bound, and a plan as its stops.

ghost use Rattle.std.specs.Prelude.{◌≡◌, ◌<◌, None, Some, OnOk, ◌++◌, ◌+◌};
ghost use Rattle.certificate_parts.specs.Texts.{stops_text, bound_text};

use route_plan::{RoutePlan, write_stops};
use std::alloc::{AllocError, Global};

/// Appends the line of the bound.
pub fn write_bound(alloc: Global, text: &mut Vec<u8>, bound: Option<u128>) -> Result<(), AllocError>
    ensures { OnOk result (text.new.items ≡ text.old.items ++ bound_text bound) }
{
    let line = match bound {
        Some(number) => format!(in alloc; "bound {number}\n")?,
        None => format!(in alloc; "bound none\n")?,
    };
    text.extend_from_slice(line.as_bytes())
}

/// Appends the stops of a plan, and a line feed.
pub fn write_plan(alloc: Global, text: &mut Vec<u8>, plan: &RoutePlan) -> Result<(), AllocError>
    ensures { OnOk result (text.new.items ≡ text.old.items ++ stops_text plan.now) }
{
    write_stops(alloc, text, plan.stops.as_slice())?;
    text.extend_from_slice(b"\n")
}
