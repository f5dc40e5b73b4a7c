//! What a bound says, where its proof is accepted and read back from its text.

ghost use Rattle.std.specs.Prelude.{◌≡◌, ◌≤◌, ◌^◌, IfOk, length};
ghost use Rattle.std.specs.List.{All};
ghost use Rattle.instance_reader.specs.Instance.{customer_nodes, most_customers};
ghost use Rattle.near_proof.specs.Ranges.{NearFits, SetsFit};

use customer_sets::CustSet;
use instance_reader::{Instance, read_instance};
use ng_pricing::{
    NearProof, NearVerdict, PriceProgress, PriceWatcher, check_near, near_bound, near_bound_from,
    push_near, read_near,
};
use std::alloc::{AllocError, Global};

/// What a bound says: the bound, scaled, and the price of each customer, by number.
pub(crate) type Told = (Option<u128>, Vec<u64>);

/// The instance of a text under a limit.
pub(crate) fn instance(alloc: Global, text: &str, limit: u64) -> Option<Instance> {
    let inst = read_instance(alloc, text.as_bytes()).ok()?;
    inst.with_limit(limit).ok()
}

/// What the bound of an instance says, with so many near customers; `None` where memory is refused,
/// or its proof isn't accepted, or is another one once it is written and read.
pub(crate) fn judged(alloc: Global, inst: &Instance, near: usize) -> Option<Told> {
    if inst.customers().len() > 128 {
        return None;
    }
    let proof = near_bound(alloc, inst, near).ok()?;
    told_by(alloc, inst, proof)
}

/// The same of the bound from start prices.
pub(crate) fn judged_from(
    alloc: Global,
    inst: &Instance,
    near: usize,
    start: &[u32],
) -> Option<Told> {
    let customers = inst.customers().len();
    if customers > 128 || start.len() != customers {
        return None;
    }
    let sets = sets_of(alloc, inst, near).ok()?;
    let start = whole(alloc, start).ok()?;
    let proof = near_bound_from(alloc, inst, sets, start, &mut Unwatched {}).ok()?;
    told_by(alloc, inst, proof)
}

/// Whoever isn't told how far a bound is.
#[derive(Drop)]
struct Unwatched {}

impl PriceWatcher for Unwatched {
    fn watch_prices(&mut self, _progress: PriceProgress) {}
}

/// The near sets of an instance with so many near customers, as its bound has them.
fn sets_of(alloc: Global, inst: &Instance, near: usize) -> Result<Vec<CustSet>, AllocError>
    requires { length (customer_nodes inst.now) ≤ most_customers }
    ensures { IfOk result (λ sets. SetsFit (length (customer_nodes inst.now)) sets.items) }
{
    let NearProof { sets, .. } = near_bound(alloc, inst, near)?;
    Ok(sets.into_vec())
}

/// Prices as start prices.
fn whole(alloc: Global, prices: &[u32]) -> Result<Vec<u64>, AllocError>
    ensures long { IfOk result (λ whole. length whole.items ≡ length prices.now) }
    ensures small { IfOk result (λ whole. All (λ price. price ≤ 10 ^ 18) whole.items) }
{
    let mut whole = Vec::new(alloc);
    for price in prices {
        whole.push(u64::from(*price))?;
    }
    Ok(whole)
}

/// What a proof says; `None` where memory is refused, or it isn't accepted, or is another one once
/// it is written and read.
fn told_by(alloc: Global, inst: &Instance, proof: NearProof) -> Option<Told>
    requires few { length (customer_nodes inst.now) ≤ most_customers }
    requires fits { NearFits inst.now proof }
{
    let mut text = Vec::new(alloc);
    push_near(alloc, &mut text, inst, &proof).ok()?;
    let read = read_near(alloc, inst, text.as_slice()).ok()?;
    if check_near(alloc, inst, &read).ok()? != NearVerdict::Accepted {
        return None;
    }
    if read.bound != proof.bound {
        return None;
    }
    Some((proof.bound, proof.prices.into_vec()))
}
