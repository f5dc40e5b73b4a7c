//! Laws of proofs of charged routes. Each is the contract of an empty function.

ghost use Rattle.std.specs.Prelude.{◌↔◌, ℕ, List};
ghost use Rattle.std.specs.List.{All};
ghost use Rattle.ev_model.specs.Network.{IsNetwork};
ghost use Rattle.ev_model.specs.Route.{IsRoute};
ghost use Rattle.route_steps.specs.Trips.{Journey};
ghost use Rattle.route_proof.specs.Broken.{IsBroken, Place};
ghost use Rattle.route_proof.specs.Closed.{AreClosed, IsAccepted, IsTrue};
ghost use Rattle.route_proof.specs.Ranges.{RouteLabelFits};
ghost use Rattle.route_proof.specs.declared.proof.RouteLabel.{RouteLabel};
ghost use Rattle.route_proof.specs.declared.proof.RouteProof.{RouteProof};

/// An accepted proof whose labels are in their ranges shows what it is to show: the plan is a
/// fastest one of the route, or no plan of the route is feasible where none is listed, both in any
/// fraction of a unit.
pub fn closed_labels_are_true()
    ensures { (t : Journey) (p : RouteProof) → IsNetwork t.network → IsRoute t.network t.route →
        All (RouteLabelFits t.network t.route) p.labels → IsAccepted t p → IsTrue t p.plan }
{}

/// Labels are closed exactly where no rule is broken anywhere.
pub fn closed_where_no_rule_is_broken()
    ensures { (t : Journey) (bar : ℕ) (labels : List RouteLabel) →
        AreClosed t bar labels ↔ ((at : Place) → IsBroken t bar labels at → ⊥) }
{}
