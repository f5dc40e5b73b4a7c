//! Reading the root.

ghost use Rattle.std.specs.Prelude.{◌≡◌, ◌≢◌, ◌≤◌, Err, IfErr, IfOk, Ok, length};
ghost use Rattle.std.specs.List.{All};
ghost use Rattle.ev_text.specs.Readers.{so_many};
ghost use Rattle.instance_reader.specs.Instance.{customer_nodes, most_customers};
ghost use Rattle.certificate_parts.specs.Refusals.{or_refused};
ghost use Rattle.certificate_parts.specs.Ranges.{ColumnFits, customer_count};
ghost use Rattle.bound_certificate.specs.Ranges.{RootFits, ShareFits};
ghost use Rattle.bound_certificate.specs.Reading.{column_at, exact_at, root_at, share_at, wide_at};
ghost use Rattle.bound_certificate.specs.Written.{written_root};
ghost use Rattle.certificate_parts.specs.declared.cert_text.CertText.TheVariants.{Memory};

use crate::certificate::{Root, Share};
use certificate_parts::{CertText, take_basis, take_plan, take_weight};
use ev_list::Listed;
use ev_text::Scan;
use instance_reader::Instance;
use route_plan::RoutePlan;
use std::alloc::Global;

/// The most shares or columns.
const MOST_ITEMS: u128 = u64::MAX as u128;

/// Takes the lines of the root.
pub(crate) fn take_root(
    alloc: Global,
    inst: &Instance,
    scan: &mut Scan<'_>,
) -> Result<Root, CertText>
    requires { length (customer_nodes inst.now) ≤ most_customers }
    ensures ok { IfOk result (λ root. root_at inst.now scan.old
        ≡ Ok (written_root inst.now root, scan.new)) }
    ensures fits { IfOk result (RootFits (customer_count inst.now)) }
    ensures fault { IfErr result (λ fault. fault ≢ CertText.Memory →
        or_refused (root_at inst.now scan.old) ≡ Err fault) }
{
    if scan.choose(b"root none\n")? {
        return Ok(Root::None);
    }
    if scan.choose(b"root exact ")? {
        return take_exact(alloc, inst, scan);
    }
    scan.word(b"root wide ")?;
    take_wide(alloc, inst, scan)
}

/// Takes what stands behind the word of an exact root.
fn take_exact(alloc: Global, inst: &Instance, scan: &mut Scan<'_>) -> Result<Root, CertText>
    ensures ok { IfOk result (λ root. exact_at scan.old
        ≡ Ok (written_root inst.now root, scan.new)) }
    ensures fits { IfOk result (RootFits (customer_count inst.now)) }
    ensures fault { IfErr result (λ fault. fault ≢ CertText.Memory →
        or_refused (exact_at scan.old) ≡ Err fault) }
{
    let over = take_weight(scan)?;
    scan.word(b" ")?;
    let count = scan.whole(MOST_ITEMS)?;
    scan.word(b"\n")?;
    let shares = take_shares(alloc, scan, count)?;
    Ok(Root::Exact {
        over,
        shares: Listed::from_vec(shares),
    })
}

fn take_shares(alloc: Global, scan: &mut Scan<'_>, count: u128) -> Result<Vec<Share>, CertText>
    ensures ok { IfOk result (λ shares. so_many count share_at scan.old
        ≡ Ok (shares.items, scan.new)) }
    ensures count { IfOk result (λ shares. length shares.items ≡ count) }
    ensures fits { IfOk result (λ shares. All ShareFits shares.items) }
    ensures fault { IfErr result (λ fault. fault ≢ CertText.Memory →
        or_refused (so_many count share_at scan.old) ≡ Err fault) }
{
    let mut shares = Vec::new(alloc);
    for _ in 0..count {
        let share = take_share(alloc, scan)?;
        shares.push(share)?;
    }
    Ok(shares)
}

fn take_share(alloc: Global, scan: &mut Scan<'_>) -> Result<Share, CertText>
    ensures ok { IfOk result (λ share. share_at scan.old ≡ Ok (share, scan.new)) }
    ensures fits { IfOk result ShareFits }
    ensures fault { IfErr result (λ fault. fault ≢ CertText.Memory →
        or_refused (share_at scan.old) ≡ Err fault) }
{
    scan.word(b"share ")?;
    let share = take_weight(scan)?;
    scan.word(b" ")?;
    let plan = take_plan(alloc, scan)?;
    Ok(Share { share, plan })
}

/// Takes what stands behind the word of a wide root.
fn take_wide(alloc: Global, inst: &Instance, scan: &mut Scan<'_>) -> Result<Root, CertText>
    requires { length (customer_nodes inst.now) ≤ most_customers }
    ensures ok { IfOk result (λ root. wide_at inst.now scan.old
        ≡ Ok (written_root inst.now root, scan.new)) }
    ensures fits { IfOk result (RootFits (customer_count inst.now)) }
    ensures fault { IfErr result (λ fault. fault ≢ CertText.Memory →
        or_refused (wide_at inst.now scan.old) ≡ Err fault) }
{
    let count = scan.whole(MOST_ITEMS)?;
    scan.word(b"\n")?;
    let columns = take_columns(alloc, scan, count)?;
    let basis = take_basis(alloc, inst, scan, columns.len())?;
    Ok(Root::Wide {
        columns: Listed::from_vec(columns),
        basis: Listed::from_vec(basis),
    })
}

fn take_columns(alloc: Global, scan: &mut Scan<'_>, count: u128) -> Result<Vec<RoutePlan>, CertText>
    ensures ok { IfOk result (λ columns. so_many count column_at scan.old
        ≡ Ok (columns.items, scan.new)) }
    ensures count { IfOk result (λ columns. length columns.items ≡ count) }
    ensures fits { IfOk result (λ columns. All ColumnFits columns.items) }
    ensures fault { IfErr result (λ fault. fault ≢ CertText.Memory →
        or_refused (so_many count column_at scan.old) ≡ Err fault) }
{
    let mut columns = Vec::new(alloc);
    for _ in 0..count {
        let column = take_column(alloc, scan)?;
        columns.push(column)?;
    }
    Ok(columns)
}

fn take_column(alloc: Global, scan: &mut Scan<'_>) -> Result<RoutePlan, CertText>
    ensures ok { IfOk result (λ column. column_at scan.old ≡ Ok (column, scan.new)) }
    ensures fits { IfOk result ColumnFits }
    ensures fault { IfErr result (λ fault. fault ≢ CertText.Memory →
        or_refused (column_at scan.old) ≡ Err fault) }
{
    scan.word(b"column ")?;
    take_plan(alloc, scan)
}
