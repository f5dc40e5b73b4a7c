//! A law of plans of fleets of several kinds of vehicles, as the contract of an empty function.

ghost use Rattle.std.specs.Prelude.{◌↔◌, ◌<◌, List, length};
ghost use Rattle.std.specs.List.{All};
ghost use Rattle.ev_model.specs.Network.{Network};
ghost use Rattle.mixed_model.specs.Meaning.{kind_plans};
ghost use Rattle.mixed_model.specs.Plans.{IsMixedPlan};
ghost use Rattle.mixed_model.specs.declared.proof.MixedRoute.{MixedRoute};
ghost use Rattle.mixed_model.specs.MixedRules.{IsBroken};
ghost use Rattle.plan_check.specs.declared.fault.PlanFault.{PlanFault};

/// Routes of vehicles of some kinds are a plan of a fleet of these kinds exactly where they break
/// no rule.
pub fn mixed_plans_break_no_rule()
    ensures { (kinds : List Network) (plan : List MixedRoute) →
        All (λ r. r.kind < length kinds) plan →
        IsMixedPlan kinds 1 (kind_plans plan) ↔
        ((fault : PlanFault) → IsBroken kinds plan fault → ⊥) }
{}
