//! Reading tight routes.

ghost use Rattle.std.specs.Prelude.{◌≡◌, ◌≢◌, Err, IfErr, IfOk, Ok, length};
ghost use Rattle.std.specs.List.{All};
ghost use Rattle.ev_text.specs.Readers.{so_many};
ghost use Rattle.certificate_parts.specs.Ranges.{ColumnFits};
ghost use Rattle.certificate_parts.specs.Refusals.{or_refused};
ghost use Rattle.certificate_parts.specs.declared.cert_text.CertText.TheVariants.{Memory};
ghost use Rattle.near_text.specs.Reading.{tight_at};

use certificate_parts::{CertText, take_plan};
use ev_text::Scan;
use route_plan::RoutePlan;
use std::alloc::Global;

/// Takes the lines of so many tight routes.
pub(crate) fn take_tight(
    alloc: Global,
    scan: &mut Scan<'_>,
    count: usize,
) -> Result<Vec<RoutePlan>, CertText>
    ensures ok { IfOk result (λ plans. so_many count tight_at scan.old
        ≡ Ok (plans.items, scan.new)) }
    ensures count { IfOk result (λ plans. length plans.items ≡ count) }
    ensures fits { IfOk result (λ plans. All ColumnFits plans.items) }
    ensures fault { IfErr result (λ fault. fault ≢ CertText.Memory →
        or_refused (so_many count tight_at scan.old) ≡ Err fault) }
{
    let mut plans = Vec::new(alloc);
    for _ in 0..count {
        let plan = take_tight_route(alloc, scan)?;
        plans.push(plan)?;
    }
    Ok(plans)
}

/// Takes the line of a tight route.
fn take_tight_route(alloc: Global, scan: &mut Scan<'_>) -> Result<RoutePlan, CertText>
    ensures ok { IfOk result (λ plan. tight_at scan.old ≡ Ok (plan, scan.new)) }
    ensures fits { IfOk result ColumnFits }
    ensures fault { IfErr result (λ fault. fault ≢ CertText.Memory →
        or_refused (tight_at scan.old) ≡ Err fault) }
{
    scan.word(b"tight ")?;
    take_plan(alloc, scan)
}
