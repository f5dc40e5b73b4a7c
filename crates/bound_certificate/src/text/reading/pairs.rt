//! Reading forbidden pairs.

ghost use Rattle.std.specs.Prelude.{◌≡◌, ◌≢◌, ◌≤◌, ◌&&◌, Err, IfErr, IfOk, None, Ok, Some, length, nat_eq, not, true};
ghost use Rattle.instance_reader.specs.Instance.{customer_nodes, most_customers};
ghost use Rattle.ev_text.specs.Readers.{many_from};
ghost use Rattle.certificate_parts.specs.Ranges.{customer_count};
ghost use Rattle.certificate_parts.specs.Reading.{node_where};
ghost use Rattle.bound_certificate.specs.Reading.{pair_at, rises_from};
ghost use Rattle.bound_certificate.specs.Written.{written_pairs};
ghost use Rattle.certificate_parts.specs.Places.{IsPlaceOf};
ghost use Rattle.bound_certificate.specs.WrittenRanges.{may_follow, next_pair};

use certificate_parts::{Place, take_place};
use customer_sets::Pairs;
use ev_text::{Scan, TextFault};
use instance_reader::Instance;

/// A pair by its nodes.
type Nodes = (usize, usize);

/// Takes the lines of so many forbidden pairs, which rise.
pub(crate) fn take_pairs(
    inst: &Instance,
    scan: &mut Scan<'_>,
    count: u128,
) -> Result<Pairs, TextFault>
    requires few { length (customer_nodes inst.now) ≤ most_customers }
    ensures ok { IfOk result (λ pairs. many_from (pair_at inst.now) next_pair count None scan.old
        ≡ Ok (written_pairs inst.now pairs, scan.new)) }
    ensures customers { IfOk result (λ pairs. pairs.customers ≡ customer_count inst.now) }
    ensures fault { IfErr result (λ fault.
        many_from (pair_at inst.now) next_pair count None scan.old ≡ Err fault) }
{
    let mut pairs = Pairs::new(inst.customers().len());
    let mut last = None;
    for _ in 0..count {
        let (i, j) = take_pair(inst, scan, last)?;
        pairs.forbid(i.place, j.place);
        last = Some((i.node, j.node));
    }
    Ok(pairs)
}

/// Takes the line of a pair behind another.
fn take_pair(
    inst: &Instance,
    scan: &mut Scan<'_>,
    last: Option<Nodes>,
) -> Result<(Place, Place), TextFault>
    requires few { length (customer_nodes inst.now) ≤ most_customers }
    ensures ok { IfOk result (λ p. pair_at inst.now last scan.old
        ≡ Ok ((p.0.node, p.1.node), scan.new)) }
    ensures first { IfOk result (λ p. IsPlaceOf inst.now p.0) }
    ensures second { IfOk result (λ p. IsPlaceOf inst.now p.1) }
    ensures rises { IfOk result (λ p. (p.0.node ≢ p.1.node) ×
        (rises_from last (p.0.node, p.1.node) ≡ true)) }
    ensures fault { IfErr result (λ fault. pair_at inst.now last scan.old ≡ Err fault) }
{
    scan.word(b"pair ")?;
    let i = take_place(inst, scan)?;
    scan.word(b" ")?;
    let j = take_second(inst, scan, last, i.node)?;
    scan.word(b"\n")?;
    Ok((i, j))
}

/// Takes the second place of a pair, which differs from the first, and with which the pair rises.
fn take_second(
    inst: &Instance,
    scan: &mut Scan<'_>,
    last: Option<Nodes>,
    i: usize,
) -> Result<Place, TextFault>
    requires few { length (customer_nodes inst.now) ≤ most_customers }
    ensures ok { IfOk result (λ p. node_where (may_follow inst.now last i) scan.old
        ≡ Ok (p.node, scan.new)) }
    ensures place { IfOk result (IsPlaceOf inst.now) }
    ensures rises { IfOk result (λ p. (i ≢ p.node) × (rises_from last (i, p.node) ≡ true)) }
    ensures fault { IfErr result (λ fault.
        node_where (may_follow inst.now last i) scan.old ≡ Err fault) }
{
    let at = scan.place();
    let j = take_place(inst, scan)?;
    if may_stand(last, i, j.node) {
        Ok(j)
    } else {
        Err(TextFault::TooLarge { at })
    }
}

/// Whether two nodes differ, and their pair may stand behind another.
fn may_stand(last: Option<Nodes>, i: usize, j: usize) -> bool
    ensures { result ≡ (not (nat_eq i j) && rises_from last (i, j)) }
{
    i != j && rises_from(last, (i, j))
}

/// Whether a pair may stand behind another.
fn rises_from(last: Option<Nodes>, pair: Nodes) -> bool
    ensures { result ≡ rises_from last pair }
{
    match last {
        None => true,
        Some(before) => before.0 < pair.0 || before.0 == pair.0 && before.1 < pair.1,
    }
}
