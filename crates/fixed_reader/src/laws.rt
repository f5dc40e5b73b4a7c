//! Laws of the texts of charged routes. Each is the contract of an empty function.

ghost use Rattle.std.specs.Prelude.{◌≡◌, ◌↔◌, ◌<◌, ◌≤◌, List, ℕ, Err, Ok, Option, Some, length, take};
ghost use Rattle.ev_model.specs.Feasible.{IsFeasible};
ghost use Rattle.ev_model.specs.Network.{IsNetwork, Network};
ghost use Rattle.ev_model.specs.Time.{time_of};
ghost use Rattle.ev_model.specs.declared.Stop.{Stop};
ghost use Rattle.ev_text.specs.Texts.{IsNoEnd, fault_place};
ghost use Rattle.ev_text.specs.declared.TextFault.{TextFault};
ghost use Rattle.ev_text.specs.declared.TextFault.TheVariants.{End};
ghost use Rattle.fixed_reader.specs.FixedReading.{fixed_in};
ghost use Rattle.fixed_reader.specs.Spelled.{BeginsFixed, SpellsFixed};
ghost use Rattle.report_lines.specs.FixedText.{fixed_text};
ghost use Rattle.route_plan.specs.Limits.{most_bytes};
ghost use Rattle.route_plan.specs.declared.text.plan_text.PlanText.TheVariants.{Bad, TooLong};

/// Bytes are read as a charged route, or none, exactly where they spell it.
pub fn texts_spell_charged_routes()
    ensures { (d : ℕ) (bytes : List ℕ) (plan : Option (List Stop × ℕ)) →
        (fixed_in d bytes ≡ Ok plan) ↔ SpellsFixed d bytes plan }
{}

/// Where the text ends too early, it can be continued to one of a charged route. Any other fault
/// cannot be mended by what follows, and what stands before its place can be continued. So a fault
/// is the first from the left. A text of more than 2^26 bytes has the fault that it is too long,
/// and no other has it.
pub fn fixed_faults_are_first()
    ensures cut { (d : ℕ) (bytes : List ℕ) (at : ℕ) → fixed_in d bytes ≡ Err (Bad (End at)) →
        BeginsFixed d bytes × (at ≤ length bytes) }
    ensures wrong { (d : ℕ) (bytes : List ℕ) (fault : TextFault) →
        fixed_in d bytes ≡ Err (Bad fault) → IsNoEnd fault
        → (BeginsFixed d bytes → ⊥) × BeginsFixed d (take (fault_place fault) bytes)
        × (fault_place fault ≤ length bytes) }
    ensures too_long { (d : ℕ) (bytes : List ℕ) (len : ℕ) →
        (fixed_in d bytes ≡ Err (TooLong len)) ↔
        ((most_bytes < length bytes) × (len ≡ length bytes)) }
{}

/// What `fixed` puts of a plan that can be driven is read as that plan and its time, unless it is
/// longer than 2^26 bytes.
pub fn what_fixed_puts_is_read()
    ensures { (g : Network) (start : ℕ) (stops : List Stop) → IsNetwork g →
        IsFeasible g 1 start stops
        → let plan = Some (stops, time_of g 1 start stops) in
        length (fixed_text g.denominator plan) ≤ most_bytes
        → fixed_in g.denominator (fixed_text g.denominator plan) ≡ Ok plan }
{}
