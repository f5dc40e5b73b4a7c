//! The cheapest plan that was found so far.

ghost use Rattle.std.specs.Prelude.{◌≤◌, map, length, Some};
ghost use Rattle.std.specs.List.Sorted.{IsStrictlyIncreasing};
ghost use Rattle.ev_model.specs.Fleet.{IsFleetPlan};
ghost use Rattle.instance_reader.specs.Instance.{customer_nodes, most_customers};
ghost use Rattle.plan_check.specs.FleetRules.{stops_of};
ghost use Rattle.route_plan.specs.PlanTexts.{FitsFile};
ghost use Rattle.ev_fleet.specs.Bounds.{IsAtMost};
ghost use Rattle.ev_fleet.specs.Held.{MayHold, cost_at};
ghost use Rattle.ev_fleet.specs.Plans.{cost_of_fleet, first_customer};

use instance_reader::Instance;
use plan_check::{check_fleet, fleet_plans_break_no_rule};
use route_plan::FleetPlan;

/// A fleet plan with its scaled cost.
#[derive(Drop)]
pub(crate) struct Held {
    pub(crate) plan: FleetPlan,
    pub(crate) cost: u128,
}

/// Takes the routes as the plan that is held where they are a fleet plan, and cheaper.
pub(crate) fn offer(inst: &Instance, held: &mut Option<Held>, plan: FleetPlan)
    requires few { length (customer_nodes inst.now) ≤ most_customers }
    requires order { IsStrictlyIncreasing (map (first_customer inst.now) plan.routes) }
    requires text { FitsFile (Some plan) }
    requires held { MayHold inst.now held.old }
    ensures held { MayHold inst.now held.new }
    ensures kept { IsAtMost (cost_at held.new) (cost_at held.old) }
    ensures plan { IsFleetPlan inst.now 1 (stops_of plan.routes) →
        IsAtMost (cost_at held.new) (Some (cost_of_fleet inst.now plan)) }
{
    let cost = match check_fleet(inst, &plan) {
        Ok(cost) => cost,
        Err(_) => {
            fleet_plans_break_no_rule();
            return;
        }
    };
    let cheaper = match held {
        Some(before) => cost < before.cost,
        None => true,
    };
    if cheaper {
        *held = Some(Held { plan, cost });
    }
}
