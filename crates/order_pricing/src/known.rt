//! What is known of the least times of orders.

ghost use Rattle.std.specs.Prelude.{◌≡◌, List, ℕ, IfOk, IfSome, IsTrue};
ghost use Rattle.ev_model.specs.Network.{Network};
ghost use Rattle.order_pricing.specs.Pricing.{AreKnown, IsKnownOf, IsTimeBelow, Tells};

use indexmap::IndexMap;
use instance_reader::Instance;
use std::alloc::{AllocError, Global};

/// What is known of the least time of an order.
#[derive(Clone, Copy)]
pub(crate) enum Known {
    /// The least time.
    Time(u64),
    /// It has none below this time.
    NotBelow(u128),
}

impl Known {
    /// Whether it tells the least time below a bar, or that there is none.
    pub(crate) fn tells(self, bar: u128) -> bool
        ensures { IsTrue result → Tells bar self }
    {
        match self {
            Known::Time(_) => true,
            Known::NotBelow(least) => bar <= least,
        }
    }

    /// The least time, where it is known and below a bar.
    pub(crate) fn below(self, bar: u128) -> Option<u64>
        requires { Tells bar self }
        ensures { (g : Network) (order : List ℕ) → IsKnownOf g order self →
            IsTimeBelow g order bar result }
    {
        match self {
            Known::Time(time) if u128::from(time) < bar => Some(time),
            _ => None,
        }
    }
}

/// How many orders are remembered at most.
const MOST_KNOWN: usize = 1 << 16;

/// What is known of an order.
pub(crate) fn recall(
    inst: &Instance,
    known: &IndexMap<Vec<usize>, Known>,
    order: &[usize],
) -> Option<Known>
    requires { AreKnown inst.now known.now.entries }
    ensures { IfSome result (IsKnownOf inst.now order.now) }
{
    match known.get(order) {
        Some(told) => Some(*told),
        None => None,
    }
}

/// Remembers what is known of an order, while there is room.
pub(crate) fn remember(
    alloc: Global,
    inst: &Instance,
    known: &mut IndexMap<Vec<usize>, Known>,
    order: &[usize],
    told: Known,
) -> Result<(), AllocError>
    requires known { AreKnown inst.now known.old.entries }
    requires told { IsKnownOf inst.now order.now told }
    ensures { AreKnown inst.now known.new.entries }
{
    if known.len() < MOST_KNOWN {
        known.insert(copy_of(alloc, order)?, told)?;
    }
    Ok(())
}

/// A vector of the nodes.
fn copy_of(alloc: Global, order: &[usize]) -> Result<Vec<usize>, AllocError>
    ensures { IfOk result (λ copy. copy.items ≡ order.now) }
{
    let mut copy = Vec::with_capacity(alloc, order.len())?;
    copy.extend_from_slice(order)?;
    Ok(copy)
}
