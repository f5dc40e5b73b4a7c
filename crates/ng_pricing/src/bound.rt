//! The bound of an instance by near routes.

ghost use Rattle.std.specs.Prelude.{◌≡◌, ◌≤◌, ◌^◌, IfOk, length};
ghost use Rattle.std.specs.List.{All};
ghost use Rattle.instance_reader.specs.Instance.{customer_nodes, most_customers};
ghost use Rattle.near_proof.specs.Ranges.{SetsFit};
ghost use Rattle.near_text.specs.NearIn.{IsKept};
ghost use Rattle.ng_pricing.specs.Fixing.{proof_of, proof_of_none};
ghost use Rattle.ng_pricing.specs.NearBound.{IsBoundFrom, IsNearBound};

use crate::kept::{know_memories, know_sets};
use crate::raising::{Raised, Rising};
use crate::setting::{ClosedAt, Setting, no_prices};
use crate::watcher::{Nobody, PriceWatcher};
use customer_sets::CustSet;
use ev_list::Listed;
use instance_reader::Instance;
use near_proof::{NearProof, near_sets, price_total};
use std::alloc::{AllocError, Global};

/// A proof of a lower bound on the cost of fleet plans, one that is accepted, and whose text is
/// read as it where it isn't too long; its near sets are those of [`crate::near_sets`], with `near`
/// other customers.
///
/// The bound is `None` exactly where some customer stands on no near route: then there is no fleet
/// plan. Else it is the sum of the prices, which are fixed customer by customer, in rising order:
/// each is the greatest whole number for which, with the earlier prices as they are fixed and the
/// later ones 0, every near route takes at least what it earns. The only `Err` is want of memory.
pub fn near_bound(alloc: Global, inst: &Instance, near: usize) -> Result<NearProof, AllocError>
    requires few { length (customer_nodes inst.now) ≤ most_customers }
    ensures { IfOk result (IsNearBound inst.now near) }
{
    near_bound_watched(alloc, inst, near, &mut Nobody {})
}

/// The same as [`near_bound`], where a watcher is told behind each customer how far the bound is.
pub fn near_bound_watched<W: PriceWatcher>(
    alloc: Global,
    inst: &Instance,
    near: usize,
    watcher: &mut W,
) -> Result<NearProof, AllocError>
    requires few { length (customer_nodes inst.now) ≤ most_customers }
    ensures { IfOk result (IsNearBound inst.now near) }
{
    let sets = near_sets(alloc, inst, near)?;
    let start = no_prices(alloc, inst.customers().len())?;
    near_bound_from(alloc, inst, sets, start, watcher)
}

/// A proof of a lower bound on the cost of fleet plans, one that is accepted, and whose text is
/// read as it where it isn't too long, by these near sets and from these prices.
///
/// `sets` has a near set for each customer, by number, which has the customer itself, and `start` a
/// price for each customer, by number, of at most 10^18. A watcher is told behind each customer how
/// far the bound is.
///
/// The bound is `None` exactly where some customer stands on no near route: then there is no fleet
/// plan. Else it is the sum of the prices. First the start prices are lowered until no near route
/// earns more than it takes, each no further than needed: one higher, and with the start prices of
/// the others, some near route would earn. Then they are fixed customer by customer, in rising
/// order: each is the greatest whole number for which, with the earlier prices as they are fixed
/// and the later ones as they were lowered, every near route takes at least what it earns. So
/// where no near route earns by the start prices, no price is below its start price. The only `Err`
/// is want of memory.
pub fn near_bound_from<W: PriceWatcher>(
    alloc: Global,
    inst: &Instance,
    sets: Vec<CustSet>,
    start: Vec<u64>,
    watcher: &mut W,
) -> Result<NearProof, AllocError>
    requires few { length (customer_nodes inst.now) ≤ most_customers }
    requires sets { SetsFit (length (customer_nodes inst.now)) sets.items }
    requires one_price { length start.items ≡ length (customer_nodes inst.now) }
    requires small { All (λ price. price ≤ 10 ^ 18) start.items }
    ensures { IfOk result (IsBoundFrom inst.now sets.items start.items) }
{
    // That the instance's network is one is told by its calls.
    let _nodes = inst.nodes();
    let setting = Setting {
        inst,
        sets: sets.as_slice(),
    };
    match setting.raised(alloc, start, watcher)? {
        Raised::Priced { rising } => Ok(proof_of(sets, rising)),
        Raised::Nowhere { at } => Ok(proof_of_none(alloc, sets, at)),
    }
}

/// The proof by prices that are all fixed.
fn proof_of(sets: Vec<CustSet>, rising: Rising) -> NearProof
    requires few { length rising.prices.items ≤ 128 }
    ensures value { result ≡ proof_of sets.items rising }
    ensures kept { IsKept result }
{
    know_sets(&sets);
    know_memories(rising.labels.as_slice());
    NearProof {
        bound: Some(price_total(&rising.prices)),
        weight: 1,
        prices: Listed::from_vec(rising.prices),
        sets: Listed::from_vec(sets),
        labels: rising.labels,
        tight: Listed::from_vec(rising.tight),
    }
}

/// The proof by closed labels that some customer stands on no near route.
fn proof_of_none(alloc: Global, sets: Vec<CustSet>, at: ClosedAt) -> NearProof
    ensures value { result ≡ proof_of_none sets.items at }
    ensures kept { IsKept result }
{
    know_sets(&sets);
    know_memories(at.labels.as_slice());
    NearProof {
        bound: None,
        weight: 0,
        prices: at.prices,
        sets: Listed::from_vec(sets),
        labels: at.labels,
        tight: Listed::new(alloc),
    }
}
