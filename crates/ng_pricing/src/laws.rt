//! A law of near routes: the contract of an empty function.

ghost use Rattle.std.specs.Prelude.{List, ℕ};
ghost use Rattle.std.specs.List.{All};
ghost use Rattle.ev_model.specs.Fleet.{IsFleetPlan};
ghost use Rattle.ev_model.specs.Network.{Network};
ghost use Rattle.ev_model.specs.declared.Stop.{Stop};
ghost use Rattle.near_proof.specs.Routes.{IsNearRoute};

/// Each route of a fleet plan in whole units is a near route, whatever the near sets are: nobody is
/// served twice, so that it doesn't matter who is forgotten. What near routes cost is a bound for
/// fleet plans by that.
pub fn routes_of_fleet_plans_are_near_routes()
    ensures { (g : Network) (sets : List (List ℕ)) (plans : List (List Stop)) →
        IsFleetPlan g 1 plans → All (IsNearRoute g sets) plans }
{}
