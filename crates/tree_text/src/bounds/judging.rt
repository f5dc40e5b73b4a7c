//! The judgement on a proof of a bound, of either kind, and its lines.

ghost use Rattle.std.specs.Prelude.{◌≡◌, ◌↔◌, ◌++◌, IfOk, OnErr, OnOk, true};
ghost use Rattle.ev_text.specs.Scans.{IsPrefixOf};
ghost use Rattle.near_proof.specs.Truth.{IsTrueNearBound};
ghost use Rattle.tree_text.specs.BoundProofs.{BoundFits, IsAcceptedProof, IsTrueProof, bound_of};
ghost use Rattle.tree_text.specs.BoundVerdicts.{AreOfOneKind, IsBoundVerdict, bound_verdict_text, is_accepted};

use super::BoundProof;
use crate::verdict::push_tree_verdict;
use instance_reader::Instance;
use near_proof::{NearVerdict, check_near};
use near_text::push_near_verdict;
use near_tree::{TreeVerdict, check_tree};
use std::alloc::{AllocError, Global};

/// Whether a proof of a bound is accepted, or the first rule of its kind that it breaks.
#[derive(Clone, Copy, Debug, Drop, PartialEq, Eq)]
pub enum BoundVerdict {
    /// Of a near proof.
    Near(NearVerdict),
    /// Of a tree.
    Tree(TreeVerdict),
}

impl BoundVerdict {
    /// Whether no rule is broken.
    pub fn is_accepted(&self) -> bool
        ensures { result ≡ is_accepted self.now }
    {
        match self {
            BoundVerdict::Near(NearVerdict::Accepted) => true,
            BoundVerdict::Tree(TreeVerdict::Accepted) => true,
            _ => false,
        }
    }
}

/// The verdict on a proof by the judge of its kind, `check_near` or `check_tree`: that it is
/// accepted, or the first rule that it breaks. The only `Err` is want of memory.
///
/// Where it is accepted, whoever wrote it, every fleet plan in any fraction of a unit of charge
/// costs at least the bound, and there is none where it has no bound.
pub fn check_bound_proof(
    alloc: Global,
    inst: &Instance,
    proof: &BoundProof,
) -> Result<BoundVerdict, AllocError>
    requires { BoundFits inst.now proof.now }
    ensures verdict { IfOk result (IsBoundVerdict inst.now proof.now) }
    ensures kind { IfOk result (AreOfOneKind proof.now) }
    ensures accepted { IfOk result
        (λ v. (is_accepted v ≡ true) ↔ IsAcceptedProof inst.now proof.now) }
    ensures shows { IfOk result (λ v. is_accepted v ≡ true → IsTrueProof inst.now proof.now) }
    ensures bounds { IfOk result
        (λ v. is_accepted v ≡ true → IsTrueNearBound inst.now (bound_of proof.now)) }
{
    match proof {
        BoundProof::Near(proof) => Ok(BoundVerdict::Near(check_near(alloc, inst, proof)?)),
        BoundProof::Tree(proof) => Ok(BoundVerdict::Tree(check_tree(alloc, inst, proof)?)),
    }
}

/// Appends what is told of a verdict on a proof of its kind: the lines of `push_near_verdict` or of
/// `push_tree_verdict`.
///
/// After an `Err`, which is want of memory alone, `out` has kept its old bytes as a prefix.
pub fn push_bound_verdict(
    alloc: Global,
    out: &mut Vec<u8>,
    inst: &Instance,
    proof: &BoundProof,
    verdict: &BoundVerdict,
) -> Result<(), AllocError>
    requires { AreOfOneKind proof.now verdict.now }
    ensures ok { OnOk result (out.new.items ≡ out.old.items
        ++ bound_verdict_text inst.now.denominator (bound_of proof.now) verdict.now) }
    ensures err { OnErr result (IsPrefixOf out.old.items out.new.items) }
{
    match (proof, verdict) {
        (BoundProof::Near(proof), BoundVerdict::Near(verdict)) => {
            push_near_verdict(alloc, out, inst, proof, verdict)
        }
        (BoundProof::Tree(proof), BoundVerdict::Tree(verdict)) => {
            push_tree_verdict(alloc, out, inst, proof, verdict)
        }
        // They are of one kind.
        _ => unreachable!(),
    }
}
