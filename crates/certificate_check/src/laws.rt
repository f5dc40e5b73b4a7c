//! Laws of accepted certificates. Each is the contract of an empty function.

ghost use Rattle.std.specs.Prelude.{◌≡◌, ◌↔◌, ℕ, List};
ghost use Rattle.bound_certificate.specs.Meaning.{route_shares};
ghost use Rattle.bound_certificate.specs.Ranges.{Fits};
ghost use Rattle.bound_certificate.specs.declared.certificate.Certificate.{Certificate};
ghost use Rattle.bound_certificate.specs.declared.certificate.Root.TheVariants.{Exact};
ghost use Rattle.bound_certificate.specs.declared.certificate.Share.{Share};
ghost use Rattle.certificate_check.specs.Accepted.{IsAccepted, IsSectionAt};
ghost use Rattle.certificate_check.specs.Rules.{CertificateFault, IsBroken};
ghost use Rattle.certificate_check.specs.Truth.{CostExactly, IsLeastCost, IsSettled, IsTrueBound};
ghost use Rattle.ev_model.specs.Network.{IsNetwork, Network};
ghost use Rattle.fleet_model.specs.Section.{Section};

/// No fleet plan costs less than the bound of an accepted certificate, in any fraction of a unit of
/// charge; and where it has none, there is no fleet plan, in any fraction.
pub fn accepted_bounds_are_true()
    ensures { (g : Network) (c : Certificate) → IsNetwork g → Fits g c → IsAccepted g c →
        IsTrueBound g c.bound }
{}

/// Where an accepted certificate has an exact root, no fractional cover costs less than the price
/// sum of section 0 over its weight, in any fraction of a unit of charge; and the listed shares are
/// one that costs exactly that.
pub fn exact_roots_are_least_covers()
    ensures least { (g : Network) (c : Certificate) (s : Section) (over : ℕ) (shares : List Share) →
        IsNetwork g → Fits g c → IsAccepted g c → c.root ≡ Exact over shares →
        IsSectionAt c 0 s → IsLeastCost g s }
    ensures cost { (g : Network) (c : Certificate) (s : Section) (over : ℕ) (shares : List Share) →
        IsAccepted g c → c.root ≡ Exact over shares → IsSectionAt c 0 s →
        CostExactly g s over (route_shares shares) }
{}

/// A certificate that fits is accepted exactly where it breaks no rule, if it is settled whether
/// the basis of a wide root is too wide, as it is by a call of [`master_table::is_too_wide`].
pub fn accepted_where_no_rule_is_broken()
    ensures { (g : Network) (c : Certificate) → Fits g c → IsSettled g c.root →
        IsAccepted g c ↔ ((fault : CertificateFault) → IsBroken g c fault → ⊥) }
{}
