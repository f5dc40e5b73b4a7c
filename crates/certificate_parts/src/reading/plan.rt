//! Reading a plan as its stops.

ghost use Rattle.std.specs.Prelude.{◌≡◌, ◌≢◌, ◌<◌, Err, IfErr, IfOk, Ok};
ghost use Rattle.certificate_parts.specs.Refusals.{or_refused};
ghost use Rattle.certificate_parts.specs.declared.cert_text.CertText.TheVariants.{Memory};
ghost use Rattle.certificate_parts.specs.Ranges.{ColumnFits};
ghost use Rattle.certificate_parts.specs.Reading.{plan_line};

use crate::cert_text::CertText;
use ev_text::Scan;
use route_plan::{RoutePlan, take_stops};
use std::alloc::Global;

/// Takes the stops of a plan, and the line feed.
pub fn take_plan(alloc: Global, scan: &mut Scan<'_>) -> Result<RoutePlan, CertText>
    ensures ok { IfOk result (λ plan. plan_line scan.old ≡ Ok (plan, scan.new)) }
    ensures fits { IfOk result ColumnFits }
    ensures fault { IfErr result (λ fault. fault ≢ CertText.Memory →
        or_refused (plan_line scan.old) ≡ Err fault) }
{
    let plan = take_stops(alloc, scan)?;
    Ok(plan)
}
