//! What fractional covers cost.

ghost use Rattle.std.specs.Prelude.{◌↔◌, ◌≡◌, IsNone};

use master_simplex::Lp;

/// The least cost of a fractional cover by the routes of a master problem, rounded up: the price
/// sum over the weight. `None` for a ray: there is no such cover. It is for people and for choices;
/// no bound rests on it. It takes no memory.
pub fn cover_cost(lp: &Lp) -> Option<u128>
    ensures none { IsNone result ↔ (lp.now.weight ≡ 0) }
{
    if lp.weight == 0 {
        return None;
    }
    let mut sum: i128 = 0;
    for price in &lp.prices {
        sum = sum.saturating_add(*price);
    }
    Some(sum.unsigned_abs().div_ceil(u128::from(lp.weight)))
}
