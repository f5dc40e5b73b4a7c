//! The proof that is made of what a search for one found.

ghost use Rattle.std.specs.Prelude.{IfOk};
ghost use Rattle.gap_search.specs.Candidate.{IsMadeOf};
ghost use Rattle.tree_text.specs.BoundProofs.{IsBoundShown};

use crate::judged::accepted;
use instance_reader::Instance;
use near_tree::zero_tree;
use std::alloc::{AllocError, Global};
use tree_text::BoundProof;

/// A proof that is accepted, and whose text is read as it where it isn't too long, of candidates of
/// which nothing is known.
///
/// It is the first of them from whose text a proof is read that is accepted, as it is read; where
/// there is none, the tree of one leaf with the bound 0. The only `Err` is want of memory.
pub fn proof_of_candidates(
    alloc: Global,
    inst: &Instance,
    candidates: &[BoundProof],
) -> Result<BoundProof, AllocError>
    ensures proof { IfOk result (IsBoundShown inst.now) }
    ensures made { IfOk result (IsMadeOf inst.now candidates.now) }
{
    for candidate in candidates {
        if let Some(proof) = accepted(alloc, inst, candidate)? {
            return Ok(proof);
        }
    }
    // That the instance's network is one is told by its calls.
    let _nodes = inst.nodes();
    Ok(BoundProof::Tree(zero_tree(alloc, inst)?))
}
