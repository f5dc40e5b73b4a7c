//! Laws of the texts of plans. Each is the contract of an empty function.

ghost use Rattle.std.specs.Prelude.{◌≡◌, ◌↔◌, ◌<◌, ◌≤◌, List, ℕ, Err, Ok, Option, length, take};
ghost use Rattle.ev_model.specs.declared.Stop.{Stop};
ghost use Rattle.ev_text.specs.Texts.{IsNoEnd, fault_place};
ghost use Rattle.ev_text.specs.declared.TextFault.{TextFault};
ghost use Rattle.ev_text.specs.declared.TextFault.TheVariants.{End};
ghost use Rattle.route_plan.specs.Limits.{most_bytes};
ghost use Rattle.route_plan.specs.PlanReading.{fleet_plan_in, plan_in};
ghost use Rattle.route_plan.specs.PlanTexts.{BeginsFile, BeginsPlan, SpellsFleetPlan, SpellsPlan};
ghost use Rattle.route_plan.specs.declared.plan.FleetPlan.{FleetPlan};
ghost use Rattle.route_plan.specs.declared.text.plan_text.PlanText.TheVariants.{Bad, TooLong};

/// Bytes are read as a plan exactly where they spell it, and the same of fleet plans.
pub fn texts_spell_plans()
    ensures plan { (bytes : List ℕ) (stops : List Stop) → (plan_in bytes ≡ Ok stops) ↔
        SpellsPlan bytes stops }
    ensures fleet { (bytes : List ℕ) (plan : Option FleetPlan) →
        (fleet_plan_in bytes ≡ Ok plan) ↔ SpellsFleetPlan bytes plan }
{}

/// Where the text of a plan ends too early, it can be continued to one. Any other fault cannot be
/// mended by what follows, and what stands before its place can be continued. So a fault is the
/// first from the left. A text of more than 2^26 bytes has the fault that it is too long, and no
/// other has it.
pub fn plan_faults_are_first()
    ensures cut { (bytes : List ℕ) (at : ℕ) → plan_in bytes ≡ Err (Bad (End at)) →
        BeginsPlan bytes × (at ≤ length bytes) }
    ensures wrong { (bytes : List ℕ) (fault : TextFault) → plan_in bytes ≡ Err (Bad fault) →
        IsNoEnd fault
        → (BeginsPlan bytes → ⊥) × BeginsPlan (take (fault_place fault) bytes)
        × (fault_place fault ≤ length bytes) }
    ensures too_long { (bytes : List ℕ) (len : ℕ) → (plan_in bytes ≡ Err (TooLong len)) ↔
        ((most_bytes < length bytes) × (len ≡ length bytes)) }
{}

/// The same of the file of a fleet plan, or of none.
pub fn fleet_plan_faults_are_first()
    ensures cut { (bytes : List ℕ) (at : ℕ) → fleet_plan_in bytes ≡ Err (Bad (End at)) →
        BeginsFile bytes × (at ≤ length bytes) }
    ensures wrong { (bytes : List ℕ) (fault : TextFault) →
        fleet_plan_in bytes ≡ Err (Bad fault) → IsNoEnd fault
        → (BeginsFile bytes → ⊥) × BeginsFile (take (fault_place fault) bytes)
        × (fault_place fault ≤ length bytes) }
    ensures too_long { (bytes : List ℕ) (len : ℕ) → (fleet_plan_in bytes ≡ Err (TooLong len)) ↔
        ((most_bytes < length bytes) × (len ≡ length bytes)) }
{}
