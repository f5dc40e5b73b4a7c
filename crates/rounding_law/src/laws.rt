//! Laws of rounding. Each is the contract of an empty function.

ghost use Rattle.std.specs.Prelude.{◌≡◌, ◌+◌, ◌*◌, ◌/◌, ◌<◌, ◌≤◌, List, ℕ};
ghost use Rattle.ev_model.specs.Fastest.{HasNoPlan, IsFastest};
ghost use Rattle.ev_model.specs.Feasible.{IsFeasible};
ghost use Rattle.ev_model.specs.Levels.{KeepsBattery};
ghost use Rattle.ev_model.specs.Network.{IsNetwork, Network};
ghost use Rattle.ev_model.specs.Plan.{IsPlanIn};
ghost use Rattle.ev_model.specs.Route.{FollowsRoute};
ghost use Rattle.ev_model.specs.Time.{time_of};
ghost use Rattle.ev_model.specs.declared.Stop.{Stop};
ghost use Rattle.rounding_law.specs.Rounding.{IsRounded, PaysNoPlugTime, rounded_plan, rounded_time};
ghost use Rattle.rounding_law.specs.Sums.{sum_below};

/// A level of `z` kths, rounded down after each offset below `k`: the whole levels add up to `z`.
pub fn whole_levels_add_up()
    ensures { (k z : ℕ) → 0 < k → sum_below (λ j. (z + j) / k) k ≡ z }
{}

/// A feasible plan in kths rounds, with each offset below `k`, to a whole plan with the same stops
/// whose levels are the plan's levels rounded with this offset, and that keeps the battery: the
/// reserve, the level at home and a full battery are whole levels, which stay as bounds.
pub fn rounded_plans_keep_the_battery()
    ensures rounded { (g : Network) (k j start : ℕ) (stops : List Stop) →
        IsFeasible g k start stops → j < k →
        IsRounded g k j start stops (rounded_plan g k j start stops) }
    ensures plan { (g : Network) (k j start : ℕ) (stops : List Stop) →
        IsFeasible g k start stops → j < k →
        IsPlanIn g 1 (rounded_plan g k j start stops) }
    ensures battery { (g : Network) (k j start : ℕ) (stops : List Stop) →
        IsFeasible g k start stops → j < k →
        KeepsBattery g 1 start (rounded_plan g k j start stops) }
    ensures route { (g : Network) (route : List ℕ) (k j start : ℕ) (stops : List Stop) →
        FollowsRoute route stops → FollowsRoute route (rounded_plan g k j start stops) }
{}

/// The same stops and the rounded levels leave no choice of the amounts: a whole plan that has them
/// is the rounded plan.
pub fn rounded_levels_tell_the_plan()
    ensures { (g : Network) (k j start : ℕ) (stops whole : List Stop) →
        IsFeasible g k start stops → j < k →
        IsPlanIn g 1 whole → IsRounded g k j start stops whole →
        whole ≡ rounded_plan g k j start stops }
{}

/// The times of the `k` whole plans that a plan in kths rounds to add up to at most its time in
/// kths, and to exactly that time where no stop that charges has a time to plug in. A stop that
/// charges nothing charges nothing in any of them, so none pays a plug time that the plan doesn't
/// pay.
pub fn rounded_times_add_up()
    ensures at_most { (g : Network) (k start : ℕ) (stops : List Stop) →
        IsNetwork g → IsFeasible g k start stops →
        sum_below (λ j. rounded_time g k j start stops) k ≤ time_of g k start stops }
    ensures exact { (g : Network) (k start : ℕ) (stops : List Stop) →
        IsNetwork g → IsFeasible g k start stops → PaysNoPlugTime g stops →
        sum_below (λ j. rounded_time g k j start stops) k ≡ time_of g k start stops }
{}

/// No fraction of a unit is faster: for each feasible plan of a route in kths there is a feasible
/// whole plan of the route whose time is no more.
pub fn no_fraction_is_faster()
    ensures { (g : Network) (route : List ℕ) (k start : ℕ) (stops : List Stop) →
        IsNetwork g → IsFeasible g k start stops → FollowsRoute route stops →
        (whole : List Stop) × IsFeasible g 1 start whole × FollowsRoute route whole
        × (k * time_of g 1 start whole ≤ time_of g k start stops) }
{}

/// A feasible whole plan of a route that no whole plan beats is a fastest plan of the route over
/// all fractions; where no whole plan is feasible, no plan is.
pub fn whole_plans_suffice()
    ensures fastest { (g : Network) (route : List ℕ) (start : ℕ) (stops : List Stop) →
        IsNetwork g → IsFeasible g 1 start stops → FollowsRoute route stops →
        ((others : List Stop) → IsFeasible g 1 start others → FollowsRoute route others →
        time_of g 1 start stops ≤ time_of g 1 start others) →
        IsFastest g route start stops }
    ensures none { (g : Network) (route : List ℕ) (start : ℕ) → IsNetwork g →
        ((stops : List Stop) → IsFeasible g 1 start stops → FollowsRoute route stops → ⊥) →
        HasNoPlan g route start }
{}
