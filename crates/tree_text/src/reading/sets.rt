//! Reading sets of customers.

ghost use Rattle.std.specs.Prelude.{◌≡◌, ◌≢◌, ◌≤◌, ◌<◌, ℕ, [], Err, IfErr, IfOk, None, Ok, Some, false, true};
ghost use Rattle.customer_sets.specs.CustSet.{has};
ghost use Rattle.ev_text.specs.declared.TextFault.TheVariants.{TooLarge};
ghost use Rattle.instance_reader.specs.Instance.{customer_nodes};
ghost use Rattle.certificate_parts.specs.Places.{IsPlaceOf};
ghost use Rattle.certificate_parts.specs.Ranges.{customer_count};
ghost use Rattle.certificate_parts.specs.Reading.{customer_at, is_above, set_at, set_behind};
ghost use Rattle.certificate_parts.specs.Written.{nodes_in};
ghost use Rattle.tree_text.specs.Asked.{unless_byte};
ghost use Rattle.tree_text.specs.TreeIn.{IsKeptSet};

use crate::reading::places::take_customer;
use certificate_parts::Place;
use customer_sets::LargeSet;
use ev_text::{Scan, TextFault};
use instance_reader::Instance;

/// Takes a set, and the space behind it.
pub(crate) fn take_set(inst: &Instance, scan: &mut Scan<'_>) -> Result<LargeSet, TextFault>
    ensures ok { IfOk result (λ set. set_at inst.now 32 scan.old
        ≡ Ok (nodes_in set 0 (customer_nodes inst.now), scan.new)) }
    ensures within { IfOk result (λ set.
        (c : ℕ) → has set c ≡ true → c < customer_count inst.now) }
    ensures kept { IfOk result IsKeptSet }
    ensures fault { IfErr result (λ fault. set_at inst.now 32 scan.old ≡ Err fault) }
{
    if scan.take_if(b"-") {
        scan.word(b" ")?;
        return Ok(nobody());
    }
    take_members(inst, scan, b' ')
}

/// The set without a member.
fn nobody() -> LargeSet
    ensures value { result ≡ [] }
    ensures kept { IsKeptSet result }
{
    let set = LargeSet::empty();
    // What its type promises of a set is told by its calls alone.
    let _members = set.len();
    set
}

/// Takes a set that isn't empty, and the line feed behind it. An empty one is out of range.
pub(crate) fn take_some_set(inst: &Instance, scan: &mut Scan<'_>) -> Result<LargeSet, TextFault>
    ensures ok { IfOk result (λ set. unless_byte 45 (set_behind inst.now 10 false) scan.old
        ≡ Ok (nodes_in set 0 (customer_nodes inst.now), scan.new)) }
    ensures within { IfOk result (λ set.
        (c : ℕ) → has set c ≡ true → c < customer_count inst.now) }
    ensures some { IfOk result (λ set. nodes_in set 0 (customer_nodes inst.now) ≢ []) }
    ensures kept { IfOk result IsKeptSet }
    ensures fault { IfErr result (λ fault.
        unless_byte 45 (set_behind inst.now 10 false) scan.old ≡ Err fault) }
{
    let at = scan.place();
    if scan.take_if(b"-") {
        return Err(TextFault::TooLarge { at });
    }
    take_members(inst, scan, b'\n')
}

/// Takes the members of a set, parted by commas, and the byte that ends it.
fn take_members(inst: &Instance, scan: &mut Scan<'_>, mark: u8) -> Result<LargeSet, TextFault>
    ensures ok { IfOk result (λ set. set_behind inst.now mark false scan.old
        ≡ Ok (nodes_in set 0 (customer_nodes inst.now), scan.new)) }
    ensures within { IfOk result (λ set.
        (c : ℕ) → has set c ≡ true → c < customer_count inst.now) }
    ensures some { IfOk result (λ set. nodes_in set 0 (customer_nodes inst.now) ≢ []) }
    ensures kept { IfOk result IsKeptSet }
    ensures fault { IfErr result (λ fault. set_behind inst.now mark false scan.old ≡ Err fault) }
{
    let mut last = take_member(inst, scan, None)?;
    let mut set = LargeSet::empty().with(last.place - 1);
    while scan.take_if(b",") {
        last = take_member(inst, scan, Some(last.node))?;
        set = set.with(last.place - 1);
    }
    scan.word(&[mark])?;
    // What its type promises of a set is told by its calls alone.
    let _members = set.len();
    Ok(set)
}

/// Takes the node of a customer above the one before.
pub(crate) fn take_member(
    inst: &Instance,
    scan: &mut Scan<'_>,
    last: Option<usize>,
) -> Result<Place, TextFault>
    ensures ok { IfOk result (λ p. customer_at inst.now last scan.old ≡ Ok (p.node, scan.new)) }
    ensures some { IfOk result (λ p. 1 ≤ p.place) }
    ensures small { IfOk result (λ p. p.place ≤ 448) }
    ensures place { IfOk result (IsPlaceOf inst.now) }
    ensures above { IfOk result (λ p. is_above last p.node ≡ true) }
    ensures fault { IfErr result (λ fault. customer_at inst.now last scan.old ≡ Err fault) }
{
    let at = scan.place();
    let member = take_customer(inst, scan)?;
    if is_above(last, member.node) {
        Ok(member)
    } else {
        Err(TextFault::TooLarge { at })
    }
}

/// Whether a node is above another.
fn is_above(last: Option<usize>, node: usize) -> bool
    ensures { result ≡ is_above last node }
{
    match last {
        None => true,
        Some(before) => before < node,
    }
}
