//! The forbidden pairs of a section, by nodes.

ghost use Rattle.std.specs.Prelude.{◌≡◌, ◌+◌, ◌≤◌, ◌++◌, IfOk, OnOk};
ghost use Rattle.certificate_parts.specs.Ranges.{customer_count};
ghost use Rattle.bound_certificate.specs.Written.{if_forbidden, pairs_after, written_pairs};

use certificate_parts::place_node;
use customer_sets::Pairs;
use instance_reader::Instance;
use std::alloc::{AllocError, Global};

/// The forbidden pairs by their nodes, in rising order.
pub(crate) fn forbidden_pairs(
    alloc: Global,
    inst: &Instance,
    pairs: &Pairs,
) -> Result<Vec<(usize, usize)>, AllocError>
    requires { pairs.now.customers ≡ customer_count inst.now }
    ensures { IfOk result (λ found. found.items ≡ written_pairs inst.now pairs.now) }
{
    let mut found = Vec::new(alloc);
    for place in 0..inst.customers().len() + 1 {
        push_after(&mut found, inst, pairs, place)?;
    }
    Ok(found)
}

/// Appends the forbidden pairs in which a place is followed.
fn push_after(
    found: &mut Vec<(usize, usize)>,
    inst: &Instance,
    pairs: &Pairs,
    place: usize,
) -> Result<(), AllocError>
    requires place { place ≤ customer_count inst.now }
    requires pairs { pairs.now.customers ≡ customer_count inst.now }
    ensures { OnOk result (found.new.items ≡ found.old.items
        ++ pairs_after inst.now pairs.now place 0 (customer_count inst.now + 1)) }
{
    for next in 0..inst.customers().len() + 1 {
        push_if_forbidden(found, inst, pairs, place, next)?;
    }
    Ok(())
}

/// Appends a pair, where it is forbidden.
fn push_if_forbidden(
    found: &mut Vec<(usize, usize)>,
    inst: &Instance,
    pairs: &Pairs,
    place: usize,
    next: usize,
) -> Result<(), AllocError>
    requires place { place ≤ customer_count inst.now }
    requires next { next ≤ customer_count inst.now }
    requires pairs { pairs.now.customers ≡ customer_count inst.now }
    ensures { OnOk result (found.new.items ≡ found.old.items
        ++ if_forbidden inst.now pairs.now place next) }
{
    if pairs.allows(place, next) {
        return Ok(());
    }
    found.push((place_node(inst, place), place_node(inst, next)))?;
    Ok(())
}
