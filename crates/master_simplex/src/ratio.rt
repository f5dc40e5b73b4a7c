//! The row that leaves: of those with an entry above 0 at the column, the least in the
//! lexicographic order.

ghost use Rattle.std.specs.Prelude.{◌≡◌, ◌+◌, ◌-◌, ◌^◌, ◌<◌, ◌≤◌, ℕ, ℤ, pos, ◌<ℤ◌, ◌*ℤ◌, ◌-ℤ◌, All, Option, length, get_or, map, unsigned_abs, FitsSigned};
ghost use Rattle.std.specs.Int.{w128};
ghost use Rattle.master_table.specs.Tableau.{entry_at, row_at, size};
ghost use Rattle.master_simplex.specs.Phase.{entries_precede, key, less, less_at, precedes, IsLeast};

use master_table::Table;

/// The entry of a customer's row.
fn entry(t: &Table, i: usize, col: usize) -> i128
    requires row { i < size t.now }
    requires col { col < length t.now.columns }
    ensures value { result ≡ entry_at t.now i col }
    ensures small { unsigned_abs result ≤ 2 ^ 40 }
{
    let n = t.rows();
    prove!(i < n);
    let body = t.caps().body;
    prove!(body <= 1 << 40);
    t.entry(i, col)
}

/// The right side of a customer's row.
fn right_side(t: &Table, i: usize) -> i128
    requires { i < size t.now }
    ensures value { result ≡ (row_at t.now i).right }
    ensures small { unsigned_abs result ≤ 2 ^ 40 }
{
    let n = t.rows();
    prove!(i < n);
    let body = t.caps().body;
    prove!(body <= 1 << 40);
    t.entry(i, t.columns())
}

/// A product that fits.
fn times(a: i128, b: i128) -> i128
    requires { FitsSigned w128 (a *ℤ b) }
    ensures { result ≡ a *ℤ b }
{
    a * b
}

/// Whether one product is less than another, unless they are the same.
fn less(other: i128, x: i128, own: i128, y: i128) -> Option<bool>
    requires other { unsigned_abs other ≤ 2 ^ 40 }
    requires x { unsigned_abs x ≤ 2 ^ 40 }
    requires own { unsigned_abs own ≤ 2 ^ 40 }
    requires y { unsigned_abs y ≤ 2 ^ 40 }
    ensures { result ≡ less (other *ℤ x -ℤ own *ℤ y) }
{
    let left = times(other, x);
    let right = times(own, y);
    if left == right {
        return None;
    }
    Some(left < right)
}

/// Whether row `i`'s entry at the place, over its entry at the column, is less than row `r`'s,
/// unless they are the same.
fn less_at(t: &Table, col: usize, i: usize, r: usize, place: usize) -> Option<bool>
    requires i { i < size t.now }
    requires r { r < size t.now }
    requires col { col < length t.now.columns }
    requires place { place < length t.now.columns }
    ensures { result ≡ less_at t.now col i r place }
{
    less(
        entry(t, r, col),
        entry(t, i, place),
        entry(t, i, col),
        entry(t, r, place),
    )
}

/// Whether the entries of row `i` at the places, over its entry at the column, stand before those
/// of row `r`.
fn entries_precede(t: &Table, places: &[usize], col: usize, i: usize, r: usize) -> bool
    requires i { i < size t.now }
    requires r { r < size t.now }
    requires col { col < length t.now.columns }
    requires placed { All (λ j. j < length t.now.columns) places.now }
    ensures { result ≡ entries_precede t.now col i r places.now }
{
    for place in places {
        if let Some(answer) = less_at(t, col, i, r, *place) {
            return answer;
        }
    }
    false
}

/// Whether row `i`, divided by its entry at the column, stands before row `r`: by the right side,
/// then by the places.
fn precedes(t: &Table, places: &[usize], col: usize, i: usize, r: usize) -> bool
    requires i { i < size t.now }
    requires r { r < size t.now }
    requires col { col < length t.now.columns }
    requires placed { All (λ j. j < length t.now.columns) places.now }
    ensures { result
        ≡ precedes (entry_at t.now i col) (entry_at t.now r col)
        (key places.now (row_at t.now i)) (key places.now (row_at t.now r)) }
{
    let own = entry(t, i, col);
    let other = entry(t, r, col);
    if let Some(answer) = less(other, right_side(t, i), own, right_side(t, r)) {
        return answer;
    }
    entries_precede(t, places, col, i, r)
}

/// The best of the rows before row `i`, or row `i` where that is better.
fn better(t: &Table, places: &[usize], col: usize, i: usize, best: Option<usize>) -> Option<usize>
    requires i { i < size t.now }
    requires col { col < length t.now.columns }
    requires placed { All (λ j. j < length t.now.columns) places.now }
    requires least { IsLeast t.now places.now col i best }
    ensures { IsLeast t.now places.now col (i + 1) result }
{
    let n = t.rows();
    prove!(i < n);
    if entry(t, i, col) <= 0 {
        return best;
    }
    let Some(r) = best else {
        return Some(i);
    };
    if precedes(t, places, col, i, r) {
        return Some(i);
    }
    Some(r)
}

/// The row that leaves where the column enters, if some row has an entry above 0 there.
pub fn leaving(t: &Table, places: &[usize], col: usize) -> Option<usize>
    requires col { col < length t.now.columns }
    requires placed { All (λ j. j < length t.now.columns) places.now }
    ensures { IsLeast t.now places.now col (size t.now) result }
{
    let mut best = None;
    for i in 0..t.rows() {
        best = better(t, places, col, i, best);
    }
    best
}
