//! Laws of certificates. Each is the contract of an empty function.

ghost use Rattle.std.specs.Prelude.{◌≡◌, List};
ghost use Rattle.std.specs.List.{All};
ghost use Rattle.ev_model.specs.Network.{Network};
ghost use Rattle.fleet_model.specs.Section.{IsSectionOf};
ghost use Rattle.fleet_model.specs.Tree.{BranchTree, IsBranchTree};
ghost use Rattle.bound_certificate.specs.Meaning.{IsTreeOf, priced_sections};
ghost use Rattle.bound_certificate.specs.Ranges.{Fits};
ghost use Rattle.bound_certificate.specs.declared.certificate.Certificate.{Certificate};
ghost use Rattle.bound_certificate.specs.declared.certificate.TreeLine.{TreeLine};

/// What a certificate that fits stands for: sections of the network, and a branching tree, which is
/// the only one that has its lines.
pub fn fitting_certificates_have_sections_and_a_tree()
    ensures sections { (g : Network) (c : Certificate) → Fits g c →
        All (IsSectionOf g) (priced_sections c.sections) }
    ensures tree { (g : Network) (c : Certificate) → Fits g c →
        (tree : BranchTree) × IsTreeOf c.tree tree × IsBranchTree g tree }
    ensures one { (lines : List TreeLine) (tree other : BranchTree) → IsTreeOf lines tree →
        IsTreeOf lines other → tree ≡ other }
{}
