//! The share weight of a basis: the least number that, times each share, is whole.

ghost use Rattle.std.specs.Prelude.{◌≡◌, ◌*◌, ◌^◌, ◌<◌, ◌≤◌, ◌↔◌, ℕ, ℤ, pos, IfSome, IsNone, get_or};
ghost use Rattle.std.specs.Int.{◌∣◌};
ghost use Rattle.fleet_model.specs.Wide.{IsShareWeightPast};
ghost use Rattle.master_table.specs.Tableau.{basis_columns, size};
ghost use Rattle.master_table.specs.ShareWeight.{own_at, right_at, IsRowsWeight};

use crate::table::Table;
use ev_units::{gcd, lcm_below};

/// The size of the row's coefficient at its basis column.
pub fn own_size(t: &Table, row: usize) -> u128
    requires { row < size t.now }
    ensures value { result ≡ own_at t.now row }
    ensures some { 0 < result }
{
    let n = t.rows();
    prove!(row < n);
    t.entry(row, t.basic(row)).unsigned_abs()
}

/// The size of the row's right side.
pub fn right_size(t: &Table, row: usize) -> u128
    requires { row < size t.now }
    ensures value { result ≡ right_at t.now row }
    ensures small { result ≤ 2 ^ 40 }
{
    let n = t.rows();
    let caps = t.caps();
    prove!(row < n && caps.body <= 1 << 40);
    t.entry(row, t.columns()).unsigned_abs()
}

/// The numbers that make the row's share whole are the multiples of this one.
fn divisor(t: &Table, row: usize) -> u128
    requires { row < size t.now }
    ensures some { 0 < result }
    ensures value { (W : ℕ) → (own_at t.now row ∣ (W * right_at t.now row)) ↔ (result ∣ W) }
{
    let own = own_size(t, row);
    own / gcd(right_size(t, row), own)
}

/// The share weight of the table's basis, if it is within the cap of body equations.
pub fn share_weight(t: &Table) -> Option<u64>
    ensures some { IfSome result (λ over. IsRowsWeight t.now (size t.now) over) }
    ensures within { IfSome result (λ over. over ≤ t.now.caps.body) }
    ensures past { IsNone result →
        IsShareWeightPast t.now.caps.body (size t.now) (basis_columns t.now) }
{
    let limit = u128::from(t.caps().body);
    let mut over = 1;
    for row in 0..t.rows() {
        let Some(next) = lcm_below(over, divisor(t, row), limit) else {
            return None;
        };
        over = next;
    }
    Some(over as u64)
}
