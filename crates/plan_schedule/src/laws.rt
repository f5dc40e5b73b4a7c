//! Laws of schedules. Each is the contract of an empty function.

ghost use Rattle.std.specs.Prelude.{ℕ, ◌≡◌, ◌+◌, List, map, take};
ghost use Rattle.std.specs.List.{All};
ghost use Rattle.ev_model.specs.Feasible.{IsFeasible};
ghost use Rattle.ev_model.specs.Fleet.{cost_of};
ghost use Rattle.ev_model.specs.Levels.{levels_of};
ghost use Rattle.ev_model.specs.Network.{Network};
ghost use Rattle.ev_model.specs.Time.{time_of};
ghost use Rattle.ev_model.specs.declared.Stop.{Stop};
ghost use Rattle.plan_schedule.specs.Schedules.{schedule_of, times_of};
ghost use Rattle.plan_schedule.specs.Totals.{route_totals};
ghost use Rattle.plan_schedule.specs.Visits.{end_of, visits_of};

/// The levels on leaving the visits of a route are those of its plan.
pub fn levels_are_those_of_the_plan()
    ensures { (g : Network) (start : ℕ) (stops : List Stop) → IsFeasible g 1 start stops →
        map (λ v. v.level_left) (visits_of g start stops) ≡ levels_of g 1 start stops }
{}

/// Each visit of a route leaves at the time of the plan up to it, the last at that of the whole
/// plan, which the times of driving, serving, plugging in and charging add up to.
pub fn times_are_those_of_the_plan()
    ensures end { (g : Network) (start : ℕ) (stops : List Stop) → IsFeasible g 1 start stops →
        end_of (visits_of g start stops) ≡ time_of g 1 start stops }
    ensures each { (g : Network) (start : ℕ) (stops : List Stop) (n : ℕ) →
        IsFeasible g 1 start stops
        → end_of (take n (visits_of g start stops)) ≡ time_of g 1 start (take n stops) }
    ensures sum { (g : Network) (start : ℕ) (stops : List Stop) → IsFeasible g 1 start stops →
        (route_totals (visits_of g start stops)).time ≡ time_of g 1 start stops }
    ensures parts { (g : Network) (start : ℕ) (stops : List Stop) →
        let t = route_totals (visits_of g start stops) in
        t.driving + t.serving + t.plugging + t.charging ≡ t.time }
{}

/// The time of a plan is that of its routes together, and what it costs where each vehicle starts
/// fully charged.
pub fn plan_times_are_costs()
    ensures sum { (g : Network) (start : ℕ) (plans : List (List Stop)) →
        All (IsFeasible g 1 start) plans
        → (schedule_of g start plans).totals.time ≡ times_of g start plans }
    ensures full { (g : Network) (plans : List (List Stop)) →
        times_of g g.capacity plans ≡ cost_of g 1 plans }
{}
