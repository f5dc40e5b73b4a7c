//! Laws of near proofs. Each is the contract of an empty function.

ghost use Rattle.std.specs.Prelude.{◌≡◌, List, ℕ};
ghost use Rattle.ev_model.specs.Network.{IsNetwork, Network};
ghost use Rattle.near_proof.specs.Accepted.{IsAccepted, terms_of};
ghost use Rattle.near_proof.specs.Broken.{IsBroken, Place};
ghost use Rattle.near_proof.specs.Closed.{AreClosed};
ghost use Rattle.near_proof.specs.Covered.{AreWithinFull};
ghost use Rattle.near_proof.specs.Ranges.{NearFits};
ghost use Rattle.near_proof.specs.Terms.{Terms};
ghost use Rattle.near_proof.specs.Truth.{HasHighestPrices, IsTrueNearBound, NearRoutesPay};
ghost use Rattle.near_proof.specs.declared.proof.NearLabel.{NearLabel};
ghost use Rattle.near_proof.specs.declared.proof.NearProof.{NearProof};

/// Where labels are closed, none of whose levels is above full, every near route takes, times the
/// weight, at least the prices of its services, each as often as it is made.
pub fn a_near_route_pays_its_prices()
    ensures { (g : Network) (t : Terms) (labels : List NearLabel) → IsNetwork g →
        AreWithinFull g labels → AreClosed g t labels → NearRoutesPay g t }
{}

/// No fleet plan costs less than the bound of an accepted near proof, in any fraction of a unit of
/// charge; and where it has none, there is no fleet plan, in any fraction.
pub fn accepted_bounds_are_true()
    ensures { (g : Network) (p : NearProof) → IsNetwork g → NearFits g p → IsAccepted g p →
        IsTrueNearBound g p.bound }
{}

/// No single price of an accepted near proof that has a bound can be raised by one while some list
/// of labels stays closed.
pub fn accepted_prices_cannot_be_raised()
    ensures { (g : Network) (p : NearProof) → IsNetwork g → NearFits g p → IsAccepted g p →
        HasHighestPrices g (terms_of p) p.bound }
{}

/// No rule of an accepted near proof is broken, so that no verdict but [`crate::NearVerdict`]'s
/// `Accepted` is one on it.
pub fn accepted_proofs_break_no_rule()
    ensures { (g : Network) (p : NearProof) (at : Place) → IsAccepted g p → IsBroken g p at → ⊥ }
{}
