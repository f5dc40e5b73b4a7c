//! Reading the text of a proof of a bound, of either kind.

ghost use Rattle.std.specs.Prelude.{◌≡◌, ◌≢◌, ◌≤◌, IfErr, IfOk, false, length, true};
ghost use Rattle.instance_reader.specs.Instance.{customer_nodes, most_customers};
ghost use Rattle.tree_text.specs.BoundProofs.{BoundFits, TakesCustomers};
ghost use Rattle.tree_text.specs.BoundTexts.{HasProof, IsUnread, begins_tree};

use super::BoundProof;
use crate::reading::read_tree;
use certificate_parts::CertText;
use instance_reader::{Instance, MOST_CUSTOMERS};
use near_text::read_near;
use std::alloc::Global;

/// The first cause why bytes are no proof of a bound of an instance.
#[derive(Clone, Copy, Debug, Drop, PartialEq, Eq)]
pub enum BoundText {
    /// They don't begin as a tree does, and the instance has this many customers, more than the 128
    /// of a near proof.
    Customers(usize),
    /// The cause why they are no text of a proof of their kind, or want of memory.
    Text(CertText),
}

/// The proof of a text: a tree where it begins with `evroute near tree `, whatever follows, and
/// else a near proof. What is read is in the ranges of the instance, and its text is `bytes`; no
/// other proof of either kind has this text. Whether the proof is accepted is not judged here.
///
/// `Customers`: the text isn't that of a tree, and the instance has more than 128 customers; the
/// text isn't looked at any further. `Text`: what `read_tree` or `read_near` says.
pub fn read_bound_proof(
    alloc: Global,
    inst: &Instance,
    bytes: &[u8],
) -> Result<BoundProof, BoundText>
    ensures has { IfOk result (HasProof inst.now bytes.now) }
    ensures fits { IfOk result (BoundFits inst.now) }
    ensures takes { IfOk result (TakesCustomers inst.now) }
    ensures one { IfOk result (λ p. (q : BoundProof) → HasProof inst.now bytes.now q → p ≡ q) }
    ensures fault { IfErr result (λ fault. fault ≢ BoundText.Text CertText.Memory →
        IsUnread inst.now bytes.now fault) }
{
    if begins_tree(bytes) {
        return tree_of(alloc, inst, bytes);
    }
    let count = inst.customers().len();
    if count > MOST_CUSTOMERS {
        return Err(BoundText::Customers(count));
    }
    near_of(alloc, inst, bytes)
}

/// Whether bytes are meant as a tree.
fn begins_tree(bytes: &[u8]) -> bool
    ensures { result ≡ begins_tree bytes.now }
{
    bytes.starts_with(b"evroute near tree ")
}

/// The tree of a text.
fn tree_of(alloc: Global, inst: &Instance, bytes: &[u8]) -> Result<BoundProof, BoundText>
    requires { begins_tree bytes.now ≡ true }
    ensures has { IfOk result (HasProof inst.now bytes.now) }
    ensures fits { IfOk result (BoundFits inst.now) }
    ensures takes { IfOk result (TakesCustomers inst.now) }
    ensures fault { IfErr result (λ fault. fault ≢ BoundText.Text CertText.Memory →
        IsUnread inst.now bytes.now fault) }
{
    match read_tree(alloc, inst, bytes) {
        Ok(proof) => Ok(BoundProof::Tree(proof)),
        Err(fault) => Err(BoundText::Text(fault)),
    }
}

/// The near proof of a text.
fn near_of(alloc: Global, inst: &Instance, bytes: &[u8]) -> Result<BoundProof, BoundText>
    requires kind { begins_tree bytes.now ≡ false }
    requires few { length (customer_nodes inst.now) ≤ most_customers }
    ensures has { IfOk result (HasProof inst.now bytes.now) }
    ensures fits { IfOk result (BoundFits inst.now) }
    ensures takes { IfOk result (TakesCustomers inst.now) }
    ensures fault { IfErr result (λ fault. fault ≢ BoundText.Text CertText.Memory →
        IsUnread inst.now bytes.now fault) }
{
    match read_near(alloc, inst, bytes) {
        Ok(proof) => Ok(BoundProof::Near(proof)),
        Err(fault) => Err(BoundText::Text(fault)),
    }
}
