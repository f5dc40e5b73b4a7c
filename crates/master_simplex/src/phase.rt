//! A phase of the simplex method: pivots that bring a row down, and end.

ghost use Rattle.std.specs.Prelude.{◌≡◌, ◌+◌, ◌<◌, ◌≤◌, ◌↔◌, ℕ, ℤ, pos, ◌<ℤ◌, ◌≤ℤ◌, ◌*ℤ◌, ◌-ℤ◌, IsTrue, IsFalse, IfSome, IsNone, IfOk, OnOk, IsErrOf, Vec, All, length, get_or};
ghost use Rattle.std.specs.Global.{Global};
ghost use Rattle.master_table.specs.Tableau.{entry_at, row_at, size};
ghost use Rattle.master_simplex.specs.Phase.{gain, gain_height, AreHelpersIdle, HasNoGain, IsGaining, IsPhase, IsReached, IsRefused};

use crate::basis::exchange;
use crate::fault::LpFault;
use crate::prices::opposite;
use crate::ratio::leaving;
use master_table::Table;
use std::alloc::Global;

/// What a phase brings down.
#[derive(Clone, Copy, Debug, PartialEq, Eq)]
pub enum Goal {
    /// The shares of the helpers.
    Helpers,
    /// The cost.
    Cost,
}

/// What the phase's row has of the added column: above 0 where bringing it into the basis lets the
/// row fall.
fn gain(t: &Table, goal: Goal, col: usize) -> i128
    requires added { size t.now ≤ col }
    requires inside { col < length t.now.columns }
    ensures { result ≡ gain goal t.now col }
{
    let n = t.rows();
    let caps = t.caps();
    prove!(n <= 128 && caps.cost <= 1 << 84);
    match goal {
        Goal::Helpers => t.entry(n + 1, col),
        Goal::Cost => opposite(t.entry(n, col)),
    }
}

/// The best of the added columns before this one, or this one where that gains more.
fn better(t: &Table, goal: Goal, col: usize, best: Option<usize>) -> Option<usize>
    requires added { size t.now ≤ col }
    requires inside { col < length t.now.columns }
    requires before { IsGaining goal t.now col best }
    ensures { IsGaining goal t.now (col + 1) result }
{
    if gain(t, goal, col) <= 0 {
        return best;
    }
    let Some(other) = best else {
        return Some(col);
    };
    if gain(t, goal, col) > gain(t, goal, other) {
        return Some(col);
    }
    Some(other)
}

/// The added column of greatest gain (Dantzig's rule), if one lets the phase's row fall.
pub fn entering(t: &Table, goal: Goal) -> Option<usize>
    ensures { IsGaining goal t.now (length t.now.columns) result }
{
    let mut best = None;
    for col in t.rows()..t.columns() {
        best = better(t, goal, col, best);
    }
    best
}

/// One pivot of the phase, and whether there was one to make.
fn step(alloc: Global, t: &mut Table, goal: Goal, places: &[usize]) -> Result<bool, LpFault>
    requires { IsPhase places.now t.old }
    ensures phase { IsPhase places.now t.new }
    ensures reached { IsReached t.old t.new }
    ensures idle { AreHelpersIdle t.old → AreHelpersIdle t.new }
    ensures falls { IfOk result (λ goes_on. IsTrue goes_on →
        gain_height goal places.now t.new < gain_height goal places.now t.old) }
    ensures done { IfOk result (λ goes_on. IsFalse goes_on → t.new ≡ t.old) }
    ensures end { IfOk result (λ goes_on. IsFalse goes_on → HasNoGain goal t.new) }
    ensures wide { (basis : Vec ℕ Global) → IsErrOf result (LpFault.Wide basis) →
        IsRefused basis.items t.new }
{
    let n = t.rows();
    let Some(col) = entering(t, goal) else {
        return Ok(false);
    };
    let Some(row) = leaving(t, places, col) else {
        return Ok(false);
    };
    prove!(row < n);
    exchange(alloc, t, row, col)?;
    Ok(true)
}

/// Pivots until no added column lets the phase's row fall.
pub fn run(alloc: Global, t: &mut Table, goal: Goal, places: &[usize]) -> Result<(), LpFault>
    requires { IsPhase places.now t.old }
    ensures phase { IsPhase places.now t.new }
    ensures reached { IsReached t.old t.new }
    ensures idle { AreHelpersIdle t.old → AreHelpersIdle t.new }
    ensures end { OnOk result (HasNoGain goal t.new) }
    ensures wide { (basis : Vec ℕ Global) → IsErrOf result (LpFault.Wide basis) →
        IsRefused basis.items t.new }
{
    let mut goes_on = true;
    while goes_on {
        goes_on = step(alloc, t, goal, places)?;
    }
    Ok(())
}
