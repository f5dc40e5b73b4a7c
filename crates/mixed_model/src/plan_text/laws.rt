//! Laws of the texts of plans of fleets of several kinds of vehicles. Each is the contract of an
//! empty function.

ghost use Rattle.std.specs.Prelude.{◌≡◌, ◌↔◌, ◌<◌, ◌≤◌, List, ℕ, Err, Ok, Option, length, take};
ghost use Rattle.ev_text.specs.Texts.{IsNoEnd, fault_place};
ghost use Rattle.ev_text.specs.declared.TextFault.{TextFault};
ghost use Rattle.ev_text.specs.declared.TextFault.TheVariants.{End};
ghost use Rattle.mixed_model.specs.Kinds.{most_kinds};
ghost use Rattle.mixed_model.specs.declared.proof.MixedRoute.{MixedRoute};
ghost use Rattle.mixed_model.specs.MixedReading.{mixed_plan_in};
ghost use Rattle.mixed_model.specs.MixedTexts.{BeginsMixedPlan, SpellsMixedPlan};
ghost use Rattle.route_plan.specs.Limits.{most_bytes};
ghost use Rattle.route_plan.specs.declared.text.plan_text.PlanText.TheVariants.{Bad, TooLong};

/// Bytes are read as a plan for so many kinds exactly where they spell it.
pub fn texts_spell_mixed_plans()
    ensures { (kinds : ℕ) (bytes : List ℕ) (plan : Option (List MixedRoute)) → 1 ≤ kinds →
        kinds ≤ most_kinds →
        (mixed_plan_in kinds bytes ≡ Ok plan) ↔ SpellsMixedPlan kinds bytes plan }
{}

/// Where the text of a plan ends too early, it can be continued to one. Any other fault cannot be
/// mended by what follows, and what stands before its place can be continued. So a fault is the
/// first from the left. A text of more than 2^26 bytes has the fault that it is too long, and no
/// other has it.
pub fn mixed_plan_faults_are_first()
    ensures cut { (kinds : ℕ) (bytes : List ℕ) (at : ℕ) → 1 ≤ kinds → kinds ≤ most_kinds →
        mixed_plan_in kinds bytes ≡ Err (Bad (End at)) →
        BeginsMixedPlan kinds bytes × (at ≤ length bytes) }
    ensures wrong { (kinds : ℕ) (bytes : List ℕ) (fault : TextFault) → 1 ≤ kinds →
        kinds ≤ most_kinds →
        mixed_plan_in kinds bytes ≡ Err (Bad fault) → IsNoEnd fault
        → (BeginsMixedPlan kinds bytes → ⊥) × BeginsMixedPlan kinds (take (fault_place fault) bytes)
        × (fault_place fault ≤ length bytes) }
    ensures too_long { (kinds : ℕ) (bytes : List ℕ) (len : ℕ) →
        (mixed_plan_in kinds bytes ≡ Err (TooLong len)) ↔
        ((most_bytes < length bytes) × (len ≡ length bytes)) }
{}
