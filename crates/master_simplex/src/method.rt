//! The simplex method in two phases.

ghost use Rattle.std.specs.Prelude.{◌≡◌, ◌+◌, ◌<◌, ◌≤◌, ℕ, ℤ, pos, ◌<ℤ◌, ◌≤ℤ◌, IfErr, IfOk, OnOk, IsErrOf, IsFalse, IsTrue, Vec};
ghost use Rattle.std.specs.Global.{Global};
ghost use Rattle.master_table.specs.Tableau.{row_at, size, IsTableau};
ghost use Rattle.master_simplex.specs.Answer.{IsAnswer, IsLpWithin, IsOfBasis};
ghost use Rattle.master_simplex.specs.Phase.{AreHelpersIdle, HasNoGain, IsDriven, IsFeasible, IsReached, IsRefused};

use crate::basis::basis_of;
use crate::fault::LpFault;
use crate::helpers::drive_out;
use crate::phase::{Goal, run};
use crate::prices::{Lp, numbers};
use crate::restore::restore;
use crate::shares::shares;
use master_table::{Table, share_weight};
use std::alloc::{AllocError, Global};

/// Brings the shares of the helpers down as far as they go.
fn bring_helpers_down(alloc: Global, t: &mut Table) -> Result<(), LpFault>
    ensures feasible { OnOk result (IsFeasible t.new) }
    ensures end { OnOk result (HasNoGain Goal.Helpers t.new) }
    ensures reached { IsReached t.old t.new }
    ensures wide { (basis : Vec ℕ Global) → IsErrOf result (LpFault.Wide basis) →
        IsRefused basis.items t.new }
{
    restore(alloc, t)?;
    let places = basis_of(alloc, t)?;
    run(alloc, t, Goal::Helpers, &places)
}

/// Brings the cost down as far as it goes, where the helpers have no shares.
fn bring_cost_down(alloc: Global, t: &mut Table) -> Result<(), LpFault>
    requires { IsDriven t.old 0 }
    ensures feasible { OnOk result (IsFeasible t.new) }
    ensures idle { OnOk result (AreHelpersIdle t.new) }
    ensures end { OnOk result (HasNoGain Goal.Cost t.new) }
    ensures reached { IsReached t.old t.new }
    ensures wide { (basis : Vec ℕ Global) → IsErrOf result (LpFault.Wide basis) →
        IsRefused basis.items t.new }
{
    drive_out(alloc, t)?;
    let places = basis_of(alloc, t)?;
    run(alloc, t, Goal::Cost, &places)
}

/// Whether the helpers still have shares.
fn has_helper_shares(t: &Table) -> bool
    ensures some { IsTrue result → pos 0 <ℤ (row_at t.now (size t.now + 1)).right }
    ensures none { IsFalse result → (row_at t.now (size t.now + 1)).right ≤ℤ pos 0 }
    ensures tableau { IsTableau t.now }
{
    let n = t.rows();
    t.entry(n + 1, t.columns()) > 0
}

/// The ray of the table's basis.
fn ray(alloc: Global, t: &Table) -> Result<Lp, LpFault>
    requires end { HasNoGain Goal.Helpers t.now }
    requires shares { pos 0 <ℤ (row_at t.now (size t.now + 1)).right }
    ensures answer { IfOk result (λ lp. IsAnswer t.now lp) }
    ensures within { IfOk result (λ lp. IsLpWithin t.now lp) }
    ensures basis { IfOk result (λ lp. IsOfBasis t.now lp) }
    ensures memory { IfErr result (λ fault. fault ≡ LpFault.Memory) }
{
    let n = t.rows();
    match numbers(alloc, t, Goal::Helpers) {
        Ok(prices) => Ok(Lp {
            weight: 0,
            prices,
            over: 0,
            shares: Vec::new(alloc),
        }),
        Err(AllocError) => Err(LpFault::Memory),
    }
}

/// The optimum of the table's basis, if its share weight is within the cap.
fn optimum(alloc: Global, t: &Table) -> Result<Lp, LpFault>
    requires feasible { IsFeasible t.now }
    requires idle { AreHelpersIdle t.now }
    requires end { HasNoGain Goal.Cost t.now }
    ensures answer { IfOk result (λ lp. IsAnswer t.now lp) }
    ensures within { IfOk result (λ lp. IsLpWithin t.now lp) }
    ensures basis { IfOk result (λ lp. IsOfBasis t.now lp) }
    ensures wide { (basis : Vec ℕ Global) → IsErrOf result (LpFault.Wide basis) →
        IsRefused basis.items t.now }
{
    let n = t.rows();
    let Some(over) = share_weight(t) else {
        return match basis_of(alloc, t) {
            Ok(basis) => Err(LpFault::Wide { basis }),
            Err(AllocError) => Err(LpFault::Memory),
        };
    };
    let prices = numbers(alloc, t, Goal::Cost)?;
    let shares = shares(alloc, t, over)?;
    Ok(Lp {
        weight: t.weight(),
        prices,
        over,
        shares,
    })
}

/// The simplex method in two phases, by the lexicographic rule (Dantzig, Orden, Wolfe 1955), on
/// whole numbers.
///
/// The answer is a linear optimum where the added columns can cover each customer exactly once by
/// shares of at least 0, and else a ray. After an answer the basis of the table is the one that it
/// belongs to.
///
/// `Wide` comes only with a basis that is past the table's caps, of which at most one column is no
/// basis column of the table after the call. After a refusal the table has the same solutions and
/// perhaps another basis.
pub fn solve(alloc: Global, t: &mut Table) -> Result<Lp, LpFault>
    ensures answer { IfOk result (λ lp. IsAnswer t.new lp) }
    ensures within { IfOk result (λ lp. IsLpWithin t.new lp) }
    ensures basis { IfOk result (λ lp. IsOfBasis t.new lp) }
    ensures reached { IsReached t.old t.new }
    ensures wide { (basis : Vec ℕ Global) → IsErrOf result (LpFault.Wide basis) →
        IsRefused basis.items t.new }
{
    bring_helpers_down(alloc, t)?;
    if has_helper_shares(t) {
        return ray(alloc, t);
    }
    bring_cost_down(alloc, t)?;
    optimum(alloc, t)
}
