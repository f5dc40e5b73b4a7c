//! Reading near sets.

ghost use Rattle.std.specs.Prelude.{◌≡◌, ◌≢◌, ◌<◌, Err, IfErr, IfOk, None, OnOk, Ok, [], false, length, map, true};
ghost use Rattle.std.specs.List.{All};
ghost use Rattle.customer_sets.specs.CustSet.{has};
ghost use Rattle.ev_text.specs.declared.TextFault.TheVariants.{End, TooLarge};
ghost use Rattle.certificate_parts.specs.Ranges.{customer_count};
ghost use Rattle.certificate_parts.specs.Refusals.{or_refused};
ghost use Rattle.certificate_parts.specs.Written.{customer_node};
ghost use Rattle.certificate_parts.specs.declared.cert_text.CertText.TheVariants.{Memory};
ghost use Rattle.near_proof.specs.Ranges.{AreAmong, SetsFit};
ghost use Rattle.near_text.specs.Reading.{few_own, near_at, nears_at, own_end, own_set_at};
ghost use Rattle.near_text.specs.Written.{written_set};
ghost use Rattle.tree_text.specs.TreeIn.{IsKeptSet};

use crate::customers::customer_count;
use crate::reading::sets::take_member;
use certificate_parts::CertText;
use customer_sets::LargeSet;
use ev_text::{Scan, TextFault};
use instance_reader::Instance;
use std::alloc::Global;

/// Takes the line of the near set of each customer.
pub(crate) fn take_nears(
    alloc: Global,
    inst: &Instance,
    scan: &mut Scan<'_>,
) -> Result<Vec<LargeSet>, CertText>
    ensures ok { IfOk result (λ sets. nears_at inst.now (customer_count inst.now) 0 scan.old
        ≡ Ok (map (written_set inst.now) sets.items, scan.new)) }
    ensures fits { IfOk result (λ sets. SetsFit (customer_count inst.now) sets.items) }
    ensures kept { IfOk result (λ sets. All IsKeptSet sets.items) }
    ensures fault { IfErr result (λ fault. fault ≢ CertText.Memory →
        or_refused (nears_at inst.now (customer_count inst.now) 0 scan.old) ≡ Err fault) }
{
    let mut sets = Vec::new(alloc);
    let count = inst.customers().len();
    for number in 0..count {
        let set = take_near(inst, scan, number)?;
        sets.push(set)?;
    }
    Ok(sets)
}

/// Takes the line of the near set of the customer with a number.
fn take_near(inst: &Instance, scan: &mut Scan<'_>, number: usize) -> Result<LargeSet, TextFault>
    requires { number < customer_count inst.now }
    ensures ok { IfOk result (λ set. near_at inst.now number scan.old
        ≡ Ok (written_set inst.now set, scan.new)) }
    ensures among { IfOk result (AreAmong (customer_count inst.now)) }
    ensures own { IfOk result (λ set. has set number ≡ true) }
    ensures kept { IfOk result IsKeptSet }
    ensures fault { IfErr result (λ fault. near_at inst.now number scan.old ≡ Err fault) }
{
    scan.word(b"near ")?;
    take_own_set(inst, scan, number)
}

/// Takes a set that has the customer with a number, and the line feed.
fn take_own_set(inst: &Instance, scan: &mut Scan<'_>, number: usize) -> Result<LargeSet, TextFault>
    requires { number < customer_count inst.now }
    ensures ok { IfOk result (λ set. own_set_at inst.now (customer_node inst.now number) scan.old
        ≡ Ok (written_set inst.now set, scan.new)) }
    ensures among { IfOk result (AreAmong (customer_count inst.now)) }
    ensures own { IfOk result (λ set. has set number ≡ true) }
    ensures kept { IfOk result IsKeptSet }
    ensures fault { IfErr result (λ fault.
        own_set_at inst.now (customer_node inst.now number) scan.old ≡ Err fault) }
{
    let at = scan.place();
    if scan.take_if(b"-") {
        return Err(TextFault::TooLarge { at });
    }
    take_own_members(inst, scan, number)
}

/// Takes the members of such a set, parted by commas, and the line feed.
fn take_own_members(
    inst: &Instance,
    scan: &mut Scan<'_>,
    number: usize,
) -> Result<LargeSet, TextFault>
    requires { number < customer_count inst.now }
    ensures ok { IfOk result (λ set. few_own inst.now (customer_node inst.now number)
        (length scan.old.0) false None scan.old ≡ Ok (written_set inst.now set, scan.new)) }
    ensures among { IfOk result (AreAmong (customer_count inst.now)) }
    ensures own { IfOk result (λ set. has set number ≡ true) }
    ensures kept { IfOk result IsKeptSet }
    ensures fault { IfErr result (λ fault. few_own inst.now (customer_node inst.now number)
        (length scan.old.0) false None scan.old ≡ Err fault) }
{
    // That a set holds all customers is told by this call.
    let _customers = customer_count(inst);
    let mut at = scan.place();
    let mut last = take_member(inst, scan, None)?;
    let mut set = LargeSet::empty().with(last.place - 1);
    while scan.take_if(b",") {
        at = scan.place();
        last = take_member(inst, scan, Some(last.node))?;
        set = set.with(last.place - 1);
    }
    take_end(scan, set.has(number), at)?;
    Ok(set)
}

/// Takes the line feed behind a set that has its own customer. Of one that lacks it, the last
/// number, which stands at a place, is out of range, unless the text ends here.
fn take_end(scan: &mut Scan<'_>, has_own: bool, at: usize) -> Result<(), TextFault>
    ensures ok { OnOk result (own_end has_own at scan.old ≡ Ok ([], scan.new)) }
    ensures own { OnOk result (has_own ≡ true) }
    ensures fault { IfErr result (λ fault. own_end has_own at scan.old ≡ Err fault) }
{
    if has_own {
        return scan.word(b"\n");
    }
    if scan.is_end() {
        return Err(TextFault::End { at: scan.place() });
    }
    Err(TextFault::TooLarge { at })
}
