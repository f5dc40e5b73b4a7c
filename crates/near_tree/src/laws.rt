//! Laws of trees over near sections. Each is the contract of an empty function.

ghost use Rattle.std.specs.Prelude.{◌≡◌, ◌*◌, ◌≤◌, List, ℕ, Option, None, Some};
ghost use Rattle.ev_model.specs.Fleet.{cost_of, IsFleetPlan};
ghost use Rattle.ev_model.specs.Network.{IsNetwork, Network};
ghost use Rattle.ev_model.specs.declared.Stop.{Stop};
ghost use Rattle.near_proof.specs.Accepted.{IsAccepted as IsAcceptedNear};
ghost use Rattle.near_proof.specs.Ranges.{NearFits};
ghost use Rattle.near_proof.specs.declared.proof.NearProof.{NearProof};
ghost use Rattle.near_tree.specs.Bounds.{IsAccepted, IsAcceptedAt, NearRoutesPayAt};
ghost use Rattle.near_tree.specs.Branches.{Branch, Keeps, whole};
ghost use Rattle.near_tree.specs.Closed.{AreClosedAt};
ghost use Rattle.near_tree.specs.Covered.{AreWithinFullAt};
ghost use Rattle.near_tree.specs.Follows.{MayFollow, StandsFor};
ghost use Rattle.near_tree.specs.OneLeaf.{CountsNothing, one_leaf};
ghost use Rattle.near_tree.specs.Preorder.{IsTreeOf};
ghost use Rattle.near_tree.specs.Rules.{IsBroken, Place};
ghost use Rattle.near_tree.specs.Sections.{after, anybody, Last, NearSection};
ghost use Rattle.near_tree.specs.Trees.{AtSomeLeaf, IsSectionAt, IsTreeAt, NearTree};
ghost use Rattle.near_tree.specs.Verdicts.{IsVerdict};
ghost use Rattle.near_tree.specs.declared.proof.TreeNode.{TreeNode};
ghost use Rattle.near_tree.specs.declared.proof.TreeProof.{TreeProof};
ghost use Rattle.near_tree.specs.declared.verdict.TreeVerdict.{TreeVerdict};
ghost use Rattle.near_proof.specs.Truth.{IsTrueNearBound};

/// Where the labels of a leaf are closed, none of whose levels is above full, every near route that
/// keeps the leaf's pairs takes, times the weight, at least the prices of its services, each as
/// often as it is made, and the entry price of each counted set, as often as it enters the set.
pub fn a_near_route_pays_at_a_leaf()
    ensures { (g : Network) (b : Branch) (s : NearSection) → IsNetwork g → AreWithinFullAt g s →
        AreClosedAt g b s → NearRoutesPayAt g b s }
{}

/// Each last stands for itself, and anybody for each; what stands for one that stands for a third
/// stands for the third. Nobody yet, at the depot, stands for none after which home may come.
pub fn who_stands_for_whom()
    ensures own { (g : Network) (b : Branch) (s : NearSection) (l : Last) → StandsFor g b s l l }
    ensures anybody { (g : Network) (b : Branch) (s : NearSection) (l : Last) →
        StandsFor g b s anybody l }
    ensures further { (g : Network) (b : Branch) (s : NearSection) (k l m : Last) →
        StandsFor g b s k l → StandsFor g b s l m → StandsFor g b s k m }
    ensures nobody { (g : Network) (b : Branch) (s : NearSection) (l : Last) → MayFollow b l 0 →
        StandsFor g b s (after 0) l → ⊥ }
{}

/// Every fleet plan, in any fraction of a unit of charge, goes down a tree to some leaf: its pairs
/// are all allowed there, and its entries into each counted set are in the set's range.
pub fn a_fleet_goes_to_some_leaf()
    ensures { (g : Network) (t : NearTree) (k : ℕ) (plans : List (List Stop)) → IsTreeAt g whole t →
        IsFleetPlan g k plans → AtSomeLeaf (λ b s. Keeps g b plans) whole t }
{}

/// A fleet plan, in any fraction of a unit of charge, that keeps what the way down to a leaf says
/// costs at least a number that is at most the leaf's bound; and there is none where the leaf shows
/// that there is none.
pub fn a_fleet_costs_the_bound_of_its_leaf()
    ensures bound { (g : Network) (b : Branch) (s : NearSection) (bound k : ℕ)
        (plans : List (List Stop)) →
        IsNetwork g → IsSectionAt g b s → IsAcceptedAt g (Some bound) b s → IsFleetPlan g k plans →
        Keeps g b plans → k * bound ≤ cost_of g k plans }
    ensures none { (g : Network) (b : Branch) (s : NearSection) (k : ℕ)
        (plans : List (List Stop)) →
        IsNetwork g → IsSectionAt g b s → IsAcceptedAt g None b s → IsFleetPlan g k plans →
        Keeps g b plans → ⊥ }
{}

/// No fleet plan costs less than the bound of an accepted tree, in any fraction of a unit of
/// charge; and where it has none, there is no fleet plan, in any fraction.
pub fn a_fleet_costs_the_bound_of_a_near_tree()
    ensures { (g : Network) (t : NearTree) (bound : Option ℕ) → IsNetwork g → IsTreeAt g whole t →
        IsAccepted g bound t → IsTrueNearBound g bound }
{}

/// A near proof that counts no services is a tree of one leaf, its tight routes left out, and each
/// label at a station after anybody; and it is accepted with its bound where the proof is.
pub fn a_near_proof_is_a_tree_of_one_leaf()
    ensures tree { (g : Network) (p : NearProof) → NearFits g p → IsTreeAt g whole (one_leaf g p) }
    ensures accepted { (g : Network) (p : NearProof) → CountsNothing p → IsAcceptedNear g p →
        IsAccepted g p.bound (one_leaf g p) }
{}

/// No rule of an accepted tree is broken, at no leaf.
pub fn an_accepted_tree_breaks_no_rule()
    ensures { (g : Network) (bound : Option ℕ) (t : NearTree) (at : Place) →
        IsAccepted g bound t → IsBroken g bound t at → ⊥ }
{}

/// A tree has one verdict: that it is accepted, or the one rule that is the first broken.
pub fn a_tree_has_one_verdict()
    ensures { (g : Network) (p : TreeProof) (v w : TreeVerdict) → IsVerdict g p v →
        IsVerdict g p w → v ≡ w }
{}

/// Nodes in preorder are those of one tree at most.
pub fn a_list_of_nodes_is_one_tree()
    ensures { (nodes : List TreeNode) (t u : NearTree) → IsTreeOf nodes t → IsTreeOf nodes u →
        t ≡ u }
{}
