//! Laws of the texts of feasible plans. Each is the contract of an empty function.

ghost use Rattle.std.specs.Prelude.{ℕ, List};
ghost use Rattle.ev_model.specs.Feasible.{IsFeasible};
ghost use Rattle.ev_model.specs.Network.{IsNetwork, Network};
ghost use Rattle.ev_model.specs.declared.Stop.{Stop};
ghost use Rattle.route_plan.specs.PlanTexts.{FitsText};

/// A feasible whole plan on the network of an instance may stand in a text: it has a stop, and its
/// nodes and amounts are small.
pub fn a_feasible_plan_fits_a_text()
    ensures { (g : Network) (start : ℕ) (stops : List Stop) → IsNetwork g →
        IsFeasible g 1 start stops → FitsText stops }
{}
