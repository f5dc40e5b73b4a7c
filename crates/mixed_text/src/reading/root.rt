//! Reading the root.

ghost use Rattle.std.specs.Prelude.{◌≡◌, ◌≢◌, ◌≤◌, Err, IfErr, IfOk, Ok, length};
ghost use Rattle.std.specs.List.{All};
ghost use Rattle.ev_text.specs.Readers.{so_many};
ghost use Rattle.certificate_parts.specs.Ranges.{customer_count};
ghost use Rattle.certificate_parts.specs.Refusals.{or_refused};
ghost use Rattle.certificate_parts.specs.declared.cert_text.CertText.TheVariants.{Memory};
ghost use Rattle.mixed_model.specs.Ranges.{RootFits, RouteFits, ShareFits};
ghost use Rattle.mixed_text.specs.Reading.{mixed_column_at, mixed_exact_at, mixed_root_at, mixed_route_at, mixed_share_at, mixed_wide_at};
ghost use Rattle.mixed_text.specs.Written.{written_mixed_root};

use certificate_parts::{CertText, take_basis, take_plan, take_weight};
use ev_list::Listed;
use ev_text::Scan;
use instance_reader::Instance;
use mixed_model::{MixedRoot, MixedRoute, MixedShare};
use std::alloc::Global;

/// The most shares or columns.
const MOST_ITEMS: u128 = u64::MAX as u128;

/// Takes the lines of the root over so many kinds, of which one is given.
pub(crate) fn take_root(
    alloc: Global,
    inst: &Instance,
    kinds: usize,
    scan: &mut Scan<'_>,
) -> Result<MixedRoot, CertText>
    requires { 1 ≤ kinds }
    ensures ok { IfOk result (λ root. mixed_root_at kinds inst.now scan.old
        ≡ Ok (written_mixed_root inst.now root, scan.new)) }
    ensures fits { IfOk result (RootFits kinds (customer_count inst.now)) }
    ensures fault { IfErr result (λ fault. fault ≢ CertText.Memory →
        or_refused (mixed_root_at kinds inst.now scan.old) ≡ Err fault) }
{
    if scan.choose(b"root none\n")? {
        return Ok(MixedRoot::None);
    }
    if scan.choose(b"root exact ")? {
        return take_exact(alloc, inst, kinds, scan);
    }
    scan.word(b"root wide ")?;
    take_wide(alloc, inst, kinds, scan)
}

/// Takes what stands behind the word of an exact root.
fn take_exact(
    alloc: Global,
    inst: &Instance,
    kinds: usize,
    scan: &mut Scan<'_>,
) -> Result<MixedRoot, CertText>
    requires { 1 ≤ kinds }
    ensures ok { IfOk result (λ root. mixed_exact_at kinds scan.old
        ≡ Ok (written_mixed_root inst.now root, scan.new)) }
    ensures fits { IfOk result (RootFits kinds (customer_count inst.now)) }
    ensures fault { IfErr result (λ fault. fault ≢ CertText.Memory →
        or_refused (mixed_exact_at kinds scan.old) ≡ Err fault) }
{
    let over = take_weight(scan)?;
    scan.word(b" ")?;
    let count = scan.whole(MOST_ITEMS)?;
    scan.word(b"\n")?;
    let shares = take_shares(alloc, kinds, scan, count)?;
    Ok(MixedRoot::Exact {
        over,
        shares: Listed::from_vec(shares),
    })
}

fn take_shares(
    alloc: Global,
    kinds: usize,
    scan: &mut Scan<'_>,
    count: u128,
) -> Result<Vec<MixedShare>, CertText>
    requires { 1 ≤ kinds }
    ensures ok { IfOk result (λ shares. so_many count (mixed_share_at kinds) scan.old
        ≡ Ok (shares.items, scan.new)) }
    ensures count { IfOk result (λ shares. length shares.items ≡ count) }
    ensures fits { IfOk result (λ shares. All (ShareFits kinds) shares.items) }
    ensures fault { IfErr result (λ fault. fault ≢ CertText.Memory →
        or_refused (so_many count (mixed_share_at kinds) scan.old) ≡ Err fault) }
{
    let mut shares = Vec::new(alloc);
    for _ in 0..count {
        let share = take_share(alloc, kinds, scan)?;
        shares.push(share)?;
    }
    Ok(shares)
}

fn take_share(alloc: Global, kinds: usize, scan: &mut Scan<'_>) -> Result<MixedShare, CertText>
    requires { 1 ≤ kinds }
    ensures ok { IfOk result (λ share. mixed_share_at kinds scan.old ≡ Ok (share, scan.new)) }
    ensures fits { IfOk result (ShareFits kinds) }
    ensures fault { IfErr result (λ fault. fault ≢ CertText.Memory →
        or_refused (mixed_share_at kinds scan.old) ≡ Err fault) }
{
    scan.word(b"share ")?;
    let share = take_weight(scan)?;
    scan.word(b" ")?;
    let route = take_route(alloc, kinds, scan)?;
    Ok(MixedShare { share, route })
}

/// Takes what stands behind the word of a wide root.
fn take_wide(
    alloc: Global,
    inst: &Instance,
    kinds: usize,
    scan: &mut Scan<'_>,
) -> Result<MixedRoot, CertText>
    requires { 1 ≤ kinds }
    ensures ok { IfOk result (λ root. mixed_wide_at kinds inst.now scan.old
        ≡ Ok (written_mixed_root inst.now root, scan.new)) }
    ensures fits { IfOk result (RootFits kinds (customer_count inst.now)) }
    ensures fault { IfErr result (λ fault. fault ≢ CertText.Memory →
        or_refused (mixed_wide_at kinds inst.now scan.old) ≡ Err fault) }
{
    let count = scan.whole(MOST_ITEMS)?;
    scan.word(b"\n")?;
    let columns = take_columns(alloc, kinds, scan, count)?;
    let basis = take_basis(alloc, inst, scan, columns.len())?;
    Ok(MixedRoot::Wide {
        columns: Listed::from_vec(columns),
        basis: Listed::from_vec(basis),
    })
}

fn take_columns(
    alloc: Global,
    kinds: usize,
    scan: &mut Scan<'_>,
    count: u128,
) -> Result<Vec<MixedRoute>, CertText>
    requires { 1 ≤ kinds }
    ensures ok { IfOk result (λ columns. so_many count (mixed_column_at kinds) scan.old
        ≡ Ok (columns.items, scan.new)) }
    ensures count { IfOk result (λ columns. length columns.items ≡ count) }
    ensures fits { IfOk result (λ columns. All (RouteFits kinds) columns.items) }
    ensures fault { IfErr result (λ fault. fault ≢ CertText.Memory →
        or_refused (so_many count (mixed_column_at kinds) scan.old) ≡ Err fault) }
{
    let mut columns = Vec::new(alloc);
    for _ in 0..count {
        let column = take_column(alloc, kinds, scan)?;
        columns.push(column)?;
    }
    Ok(columns)
}

fn take_column(alloc: Global, kinds: usize, scan: &mut Scan<'_>) -> Result<MixedRoute, CertText>
    requires { 1 ≤ kinds }
    ensures ok { IfOk result (λ column. mixed_column_at kinds scan.old ≡ Ok (column, scan.new)) }
    ensures fits { IfOk result (RouteFits kinds) }
    ensures fault { IfErr result (λ fault. fault ≢ CertText.Memory →
        or_refused (mixed_column_at kinds scan.old) ≡ Err fault) }
{
    scan.word(b"column ")?;
    take_route(alloc, kinds, scan)
}

/// Takes the number of a kind, the stops of its route, and the line feed.
fn take_route(alloc: Global, kinds: usize, scan: &mut Scan<'_>) -> Result<MixedRoute, CertText>
    requires { 1 ≤ kinds }
    ensures ok { IfOk result (λ route. mixed_route_at kinds scan.old ≡ Ok (route, scan.new)) }
    ensures fits { IfOk result (RouteFits kinds) }
    ensures fault { IfErr result (λ fault. fault ≢ CertText.Memory →
        or_refused (mixed_route_at kinds scan.old) ≡ Err fault) }
{
    let kind = scan.whole(kinds as u128 - 1)? as usize;
    scan.word(b" ")?;
    let plan = take_plan(alloc, scan)?;
    Ok(MixedRoute { kind, plan })
}
