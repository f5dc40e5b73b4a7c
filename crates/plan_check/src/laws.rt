//! Laws of the rules of a fleet plan. Each is the contract of an empty function.

ghost use Rattle.std.specs.Prelude.{◌↔◌, List};
ghost use Rattle.std.specs.List.{All};
ghost use Rattle.ev_model.specs.Fleet.{IsFleetPlan};
ghost use Rattle.ev_model.specs.Network.{Network};
ghost use Rattle.plan_check.specs.FleetRules.{IsBroken, stops_of};
ghost use Rattle.plan_check.specs.LaterRules.{HasEnds, KeepsLater, ServesEachOnce};
ghost use Rattle.plan_check.specs.declared.fault.PlanFault.{PlanFault};
ghost use Rattle.route_plan.specs.declared.plan.RoutePlan.{RoutePlan};

/// Plans are a fleet plan exactly where they break no rule.
pub fn fleet_plans_break_no_rule()
    ensures { (g : Network) (plans : List RoutePlan) →
        IsFleetPlan g 1 (stops_of plans) ↔ ((fault : PlanFault) → IsBroken g plans fault → ⊥) }
{}

/// Plans whose ends are at the depot break no rule behind the walks exactly where each of them has
/// a customer and serves customers alone, and each customer is served exactly once.
pub fn later_rules_ask_for_each_customer_once()
    ensures { (g : Network) (plans : List RoutePlan) → All HasEnds (stops_of plans) →
        KeepsLater g plans ↔ ServesEachOnce g (stops_of plans) }
{}
