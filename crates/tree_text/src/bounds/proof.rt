//! The value of a proof of a bound, of either kind.

ghost use Rattle.std.specs.Prelude.{◌≡◌};
ghost use Rattle.tree_text.specs.BoundProofs.{bound_of};

use near_proof::NearProof;
use near_tree::TreeProof;

/// What shows that no plan of a fleet costs less than a bound, or that there is none.
#[derive(Drop)]
pub enum BoundProof {
    /// By near routes, of an instance of at most 128 customers.
    Near(NearProof),
    /// By a tree over near sections.
    Tree(TreeProof),
}

impl BoundProof {
    /// What no fleet plan costs less than, scaled by the instance's denominator; `None` says that
    /// there is no fleet plan.
    pub fn bound(&self) -> Option<u128>
        ensures { result ≡ bound_of self.now }
    {
        match self {
            BoundProof::Near(proof) => proof.bound,
            BoundProof::Tree(proof) => proof.bound,
        }
    }
}
