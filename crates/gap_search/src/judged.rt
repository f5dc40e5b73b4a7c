//! The judgement on a proof that a search found, of which nothing is known.

ghost use Rattle.std.specs.Prelude.{◌≡◌, ◌≢◌, ◌↔◌, IfOk, IsTrue, None};
ghost use Rattle.gap_search.specs.Candidate.{IsJudged};
ghost use Rattle.tree_text.specs.BoundProofs.{TakesCustomers};

use instance_reader::{Instance, MOST_CUSTOMERS};
use near_text::CertText;
use std::alloc::{AllocError, Global};
use tree_text::{BoundProof, BoundText, check_bound_proof, push_bound_proof, read_bound_proof};

/// A candidate as its text is read, where it is accepted.
///
/// `None` comes exactly where no proof that is accepted is read from its text: it has no text of a
/// proof, or one that is too long, or breaks a rule. The only `Err` is want of memory.
pub(crate) fn accepted(
    alloc: Global,
    inst: &Instance,
    candidate: &BoundProof,
) -> Result<Option<BoundProof>, AllocError>
    ensures { IfOk result (IsJudged inst.now candidate.now) }
{
    if !takes_customers(inst, candidate) {
        return Ok(None);
    }
    let mut text = Vec::new(alloc);
    push_bound_proof(alloc, &mut text, inst, candidate)?;
    let proof = match read_bound_proof(alloc, inst, text.as_slice()) {
        Ok(proof) => proof,
        Err(fault) => return unread(fault),
    };
    if check_bound_proof(alloc, inst, &proof)?.is_accepted() {
        Ok(Some(proof))
    } else {
        Ok(None)
    }
}

/// Whether a proof is one of so many customers as an instance has.
fn takes_customers(inst: &Instance, candidate: &BoundProof) -> bool
    ensures { IsTrue result ↔ TakesCustomers inst.now candidate.now }
{
    match candidate {
        BoundProof::Near(_) => inst.customers().len() <= MOST_CUSTOMERS,
        BoundProof::Tree(_) => true,
    }
}

/// A candidate whose text isn't read, unless memory was refused.
fn unread(fault: BoundText) -> Result<Option<BoundProof>, AllocError>
    ensures { IfOk result (λ found. (found ≡ None)
        × (fault ≢ BoundText.Text CertText.Memory)) }
{
    match fault {
        BoundText::Text(CertText::Memory) => Err(AllocError),
        _ => Ok(None),
    }
}
