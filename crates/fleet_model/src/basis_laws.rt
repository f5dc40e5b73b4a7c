//! Laws of bases. Each is the contract of an empty function.

ghost use Rattle.std.specs.Prelude.{◌≡◌, ◌<◌, ℕ, ℤ, List, ◌∷◌};
ghost use Rattle.fleet_model.specs.Basis.{IsBody, IsDetermined, Pays, PaysLeast};
ghost use Rattle.fleet_model.specs.Divisors.{IsGcdOf};
ghost use Rattle.fleet_model.specs.Equations.{Column};

/// A basis has one body equation at each place.
pub fn a_basis_has_one_body_equation()
    ensures { (n : ℕ) (basis : List Column) (i : ℕ) (xs ys : List ℤ) → i < n →
        IsDetermined n basis →
        IsBody n basis i xs → IsBody n basis i ys → xs ≡ ys }
{}

/// Numbers that pay for a basis, and have with their weight no common divisor, are those of least
/// weight: so a cost row without a common divisor is the price list, and a helper row the helper
/// list.
pub fn a_list_without_a_divisor_pays_least()
    ensures { (worth : Column → ℤ) (n : ℕ) (basis : List Column) (w : ℤ) (numbers : List ℤ) →
        IsDetermined n basis →
        Pays worth n basis w numbers → IsGcdOf (w ∷ numbers) 1 → PaysLeast worth n basis w numbers }
{}
