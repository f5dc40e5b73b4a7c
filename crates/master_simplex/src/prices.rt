//! The answer, and its prices.

ghost use Rattle.std.specs.Prelude.{◌≡◌, ◌+◌, ◌<◌, ◌≤◌, ℕ, ℤ, pos, IfOk, get_or, neg_ℤ, unsigned_abs, ◌^◌};
ghost use Rattle.master_table.specs.Tableau.{entry_at, row_at, size};
ghost use Rattle.master_simplex.specs.Sharing.{numbers};

use crate::phase::Goal;
use master_table::Table;
use std::alloc::{AllocError, Global};

/// What the simplex method answers about the added columns of a table.
///
/// Where their shares can cover each customer exactly once: a weight above 0, a price for each
/// customer, and a cover of least cost, `shares` (column and share) divided by `over`, whose cost
/// is the price sum divided by the weight. Where they can't: weight 0, prices with a sum above 0 of
/// which no added column has more than 0, `over` 0 and no shares.
#[derive(Drop)]
pub struct Lp {
    pub weight: u64,
    pub prices: Vec<i128>,
    pub over: u64,
    pub shares: Vec<(usize, u64)>,
}

/// The number with the other sign.
pub fn opposite(x: i128) -> i128
    requires { unsigned_abs x ≤ 2 ^ 84 }
    ensures { result ≡ neg_ℤ x }
{
    -x
}

/// The customer's number in the helper list, or in the price list.
fn number(t: &Table, goal: Goal, c: usize) -> i128
    requires { c < size t.now }
    ensures { result ≡ get_or (numbers goal t.now) c (pos 0) }
{
    let n = t.rows();
    let columns = t.columns();
    let caps = t.caps();
    prove!(c < columns && caps.cost <= 1 << 84);
    match goal {
        Goal::Helpers => t.entry(n + 1, c),
        Goal::Cost => opposite(t.entry(n, c)),
    }
}

/// The helper list of the table's basis, or its price list.
pub fn numbers(alloc: Global, t: &Table, goal: Goal) -> Result<Vec<i128>, AllocError>
    ensures { IfOk result (λ v. v.items ≡ numbers goal t.now) }
{
    let mut found = Vec::new(alloc);
    for c in 0..t.rows() {
        found.push(number(t, goal, c))?;
    }
    Ok(found)
}
