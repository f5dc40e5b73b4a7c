//! Laws of fleets of one kind of vehicle: that they are fleets without kinds. Each is the contract
//! of an empty function.

ghost use Rattle.std.specs.Prelude.{◌≡◌, ◌↔◌, ◌<◌, List, ◌∷◌, [], ℕ};
ghost use Rattle.std.specs.List.{All};
ghost use Rattle.ev_model.specs.Fleet.{cost_of, IsFleetPlan};
ghost use Rattle.ev_model.specs.Network.{Network};
ghost use Rattle.fleet_model.specs.Cover.{cost_of_shares, IsFractionalCover};
ghost use Rattle.mixed_model.specs.Covers.{IsMixedCover, KindShare, mixed_cost_of_shares, plain_shares};
ghost use Rattle.mixed_model.specs.Plans.{IsMixedPlan, KindPlan, mixed_cost, plain_plans};

/// With one kind, plans of vehicles of this kind are a plan of the fleet exactly where they are a
/// fleet plan, at the same cost.
pub fn one_kind_plans_are_fleet_plans()
    ensures same { (g : Network) (k : ℕ) (plans : List KindPlan) → All (λ p. p.kind < 1) plans →
        IsMixedPlan (g ∷ []) k plans ↔ IsFleetPlan g k (plain_plans plans) }
    ensures cost { (g : Network) (k : ℕ) (plans : List KindPlan) → All (λ p. p.kind < 1) plans →
        mixed_cost (g ∷ []) k plans ≡ cost_of g k (plain_plans plans) }
{}

/// With one kind, shares of plans of vehicles of this kind are a cover exactly where they are a
/// fractional cover, at the same cost.
pub fn one_kind_covers_are_fractional_covers()
    ensures same { (g : Network) (k weight : ℕ) (shares : List KindShare) →
        All (λ x. x.plan.kind < 1) shares →
        IsMixedCover (g ∷ []) k weight shares ↔
        IsFractionalCover g k weight (plain_shares shares) }
    ensures cost { (g : Network) (k : ℕ) (shares : List KindShare) →
        All (λ x. x.plan.kind < 1) shares →
        mixed_cost_of_shares (g ∷ []) k shares ≡ cost_of_shares g k (plain_shares shares) }
{}
