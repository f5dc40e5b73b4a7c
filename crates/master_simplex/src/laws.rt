//! Laws of the answers. Each is the contract of an empty function.

ghost use Rattle.std.specs.Prelude.{◌*◌, ◌≤◌, ℕ, ℤ, List};
ghost use Rattle.master_table.specs.Tableau.{Tableau};
ghost use Rattle.master_simplex.specs.Answer.{cost_of_shares, IsCover, IsOptimum, IsRay};

/// An optimum is a cover of least cost.
pub fn an_optimum_is_the_least_cover()
    ensures { (t : Tableau) (weight : ℕ) (prices : List ℤ) (over : ℕ) (shares : List (ℕ × ℕ))
        (other : ℕ) (others : List (ℕ × ℕ)) →
        IsOptimum t weight prices over shares → IsCover t other others →
        cost_of_shares t.columns shares * other ≤ cost_of_shares t.columns others * over }
{}

/// Beside a ray there is no cover.
pub fn beside_a_ray_there_is_no_cover()
    ensures { (t : Tableau) (weight : ℕ) (prices : List ℤ) (over : ℕ) (shares : List (ℕ × ℕ))
        (other : ℕ) (others : List (ℕ × ℕ)) →
        IsRay t weight prices over shares → IsCover t other others → ⊥ }
{}
