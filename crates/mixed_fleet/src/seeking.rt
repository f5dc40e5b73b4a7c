//! Routes of vehicles of all kinds that earn, without what shows that there is none.

ghost use Rattle.std.specs.Prelude.{◌<◌, IfOk, length};
ghost use Rattle.std.specs.List.{All};
ghost use Rattle.price_loop.specs.Problems.{IsEarning};
ghost use Rattle.mixed_fleet.specs.Fleets.{AreFleetKinds};
ghost use Rattle.mixed_fleet.specs.Problem.{AreOpen, MayBeAsked, problem_of};

use crate::earners::{all_searched, asked};
use crate::searched::Searched;
use customer_sets::Pairs;
use instance_reader::Instance;
use pricing::seek;
use std::alloc::{AllocError, Global};

/// Routes that earn: those of the kind with the number `last`, or where it has none those of all
/// kinds. None says nothing.
pub(crate) fn seek_from(
    alloc: Global,
    kinds: &[Instance],
    last: usize,
    pairs: &Pairs,
    weight: u64,
    prices: &[i128],
) -> Result<Vec<Searched>, AllocError>
    requires fleet { AreFleetKinds kinds.now }
    requires open { AreOpen kinds.now pairs.now }
    requires asked { MayBeAsked kinds.now weight prices.now }
    ensures { IfOk result (λ found.
        All (IsEarning (problem_of kinds.now) weight prices.now) found.items) }
{
    if last < kinds.len() {
        let found = seek_by(alloc, kinds, last, pairs, weight, prices)?;
        if !found.is_empty() {
            return Ok(found);
        }
    }
    seek_all(alloc, kinds, pairs, weight, prices)
}

/// Routes of vehicles of all kinds that earn. None says nothing.
fn seek_all(
    alloc: Global,
    kinds: &[Instance],
    pairs: &Pairs,
    weight: u64,
    prices: &[i128],
) -> Result<Vec<Searched>, AllocError>
    requires fleet { AreFleetKinds kinds.now }
    requires open { AreOpen kinds.now pairs.now }
    requires asked { MayBeAsked kinds.now weight prices.now }
    ensures { IfOk result (λ found.
        All (IsEarning (problem_of kinds.now) weight prices.now) found.items) }
{
    let mut found = Vec::new(alloc);
    for kind in 0..kinds.len() {
        let mut further = seek_by(alloc, kinds, kind, pairs, weight, prices)?;
        found.append(&mut further)?;
    }
    Ok(found)
}

/// Routes of vehicles of one kind that earn. None says nothing.
fn seek_by(
    alloc: Global,
    kinds: &[Instance],
    kind: usize,
    pairs: &Pairs,
    weight: u64,
    prices: &[i128],
) -> Result<Vec<Searched>, AllocError>
    requires fleet { AreFleetKinds kinds.now }
    requires kind { kind < length kinds.now }
    requires open { AreOpen kinds.now pairs.now }
    requires asked { MayBeAsked kinds.now weight prices.now }
    ensures { IfOk result (λ found.
        All (IsEarning (problem_of kinds.now) weight prices.now) found.items) }
{
    let inst = &kinds[kind];
    let asked = asked(alloc, weight, prices)?;
    let routes = seek(alloc, inst, pairs, &asked)?;
    all_searched(alloc, inst, kind, &routes)
}
