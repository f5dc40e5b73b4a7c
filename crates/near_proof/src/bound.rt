//! The bound of a near proof.

ghost use Rattle.std.specs.Prelude.{◌≡◌, ◌↔◌, ◌^◌, ◌≤◌, All, IsTrue, length};
ghost use Rattle.near_proof.specs.Accepted.{BoundHolds};
ghost use Rattle.near_proof.specs.Terms.{price_total};

use crate::{NearProof, price_total};

/// Whether the bound is the price sum at weight 1; where there is none, whether the weight is 0,
/// some price is above 0 and no tight route is listed.
pub(crate) fn bound_holds(proof: &NearProof) -> bool
    requires few { length proof.now.prices ≤ 128 }
    ensures { IsTrue result ↔ BoundHolds proof.now proof.now.bound }
{
    let total = price_total(proof.prices.as_slice());
    match proof.bound {
        Some(bound) => proof.weight == 1 && bound == total,
        None => proof.weight == 0 && total > 0 && proof.tight.is_empty(),
    }
}
