//! The text of a proof of a bound, of either kind, written.

ghost use Rattle.std.specs.Prelude.{◌≡◌, ◌++◌, OnErr, OnOk};
ghost use Rattle.tree_text.specs.BoundProofs.{TakesCustomers, bound_proof_text};

use super::BoundProof;
use crate::writing::push_tree;
use instance_reader::Instance;
use near_text::push_near;
use std::alloc::{AllocError, Global};

/// Appends the one text of a proof: that of `push_near` or of `push_tree`. A near proof is one of an
/// instance of at most 128 customers; nothing else is asked of the proof.
///
/// The only refusal is want of memory. After an `Err` the bytes of `out` are as before.
pub fn push_bound_proof(
    alloc: Global,
    out: &mut Vec<u8>,
    inst: &Instance,
    proof: &BoundProof,
) -> Result<(), AllocError>
    requires { TakesCustomers inst.now proof.now }
    ensures ok { OnOk result
        (out.new.items ≡ out.old.items ++ bound_proof_text inst.now proof.now) }
    ensures err { OnErr result (out.new.items ≡ out.old.items) }
{
    match proof {
        BoundProof::Near(proof) => push_near(alloc, out, inst, proof),
        BoundProof::Tree(proof) => push_tree(alloc, out, inst, proof),
    }
}
