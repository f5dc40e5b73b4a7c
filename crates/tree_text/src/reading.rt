//! Reading the text of a tree.

ghost use Rattle.std.specs.Prelude.{◌≡◌, ◌≢◌, Err, IfErr, IfOk, Ok, map};
ghost use Rattle.std.specs.List.{All};
ghost use Rattle.certificate_parts.specs.Refusals.{or_refused};
ghost use Rattle.certificate_parts.specs.declared.cert_text.CertText.TheVariants.{Memory};
ghost use Rattle.near_tree.specs.Ranges.{IsFitTree, NodeFits, TreeFits};
ghost use Rattle.near_tree.specs.Trees.{NearTree};
ghost use Rattle.near_tree.specs.declared.proof.TreeProof.{TreeProof};
ghost use Rattle.tree_text.specs.Reading.{nodes_at, tree_at};
ghost use Rattle.tree_text.specs.TreeIn.{IsKeptNode, IsSpelledBy, has_other_version, tree_in};
ghost use Rattle.tree_text.specs.Written.{written_node, written_tree};

mod labels;
mod nears;
mod nodes;
mod places;
mod section;
mod sets;

use crate::ways::{open_below, top_way};
use certificate_parts::{CertText, MOST_BYTES, begins_another, take_bound};
use ev_list::Listed;
use ev_text::Scan;
use instance_reader::Instance;
use near_tree::{TreeNode, TreeProof};
use nodes::take_node;
use std::alloc::Global;

/// The tree of a text. What is read is in the ranges of the instance, and its text is `bytes`; each
/// such tree has one text, which `push_tree` writes, and no other has this text. Whether the tree
/// is accepted is not judged here.
///
/// A text of more than 2^28 bytes is `TooLong`. `Version`: the first line is `evroute near tree `,
/// a number in its one spelling with at most 38 digits that isn't 1, and a line feed. Else the
/// first fault from the left: `Text` where the text is none, and `Range` where a number is out of
/// range or breaks a rule with numbers before it. A near set without its own customer is `Range` at
/// its last number, or at the `-` of a set without a member; where the text ends behind that number
/// it is `Text` there. An empty set of entries is `Range` at its `-`; a count that isn't in the
/// range of its set, and then a set that is one too many, where they begin, once their line is
/// whole. `Memory`: memory was refused. A count is never allocated for ahead, and no call goes
/// deeper the deeper the tree is.
pub fn read_tree(alloc: Global, inst: &Instance, bytes: &[u8]) -> Result<TreeProof, CertText>
    ensures ok { IfOk result (λ p. tree_in inst.now bytes.now ≡ Ok (written_tree inst.now p)) }
    ensures fits { IfOk result (TreeFits inst.now) }
    ensures spelled { IfOk result (IsSpelledBy inst.now bytes.now) }
    ensures one { IfOk result (λ p. (q : TreeProof) → IsSpelledBy inst.now bytes.now q → p ≡ q) }
    ensures fault { IfErr result (λ fault. fault ≢ CertText.Memory →
        tree_in inst.now bytes.now ≡ Err fault) }
{
    // That the instance's network is one is told by its calls.
    let _nodes = inst.nodes();
    let len = bytes.len();
    if len > MOST_BYTES {
        return Err(CertText::TooLong { len });
    }
    if has_other_version(bytes) {
        return Err(CertText::Version);
    }
    let mut scan = Scan::new(bytes);
    let proof = take_tree(alloc, inst, &mut scan)?;
    scan.end()?;
    Ok(proof)
}

/// Whether the bytes begin with the first line of another version.
fn has_other_version(bytes: &[u8]) -> bool
    ensures { result ≡ has_other_version bytes.now }
{
    begins_another(b"evroute near tree ", 1, bytes)
}

/// Takes the text of a tree.
fn take_tree(alloc: Global, inst: &Instance, scan: &mut Scan<'_>) -> Result<TreeProof, CertText>
    ensures ok { IfOk result (λ p. tree_at inst.now scan.old
        ≡ Ok (written_tree inst.now p, scan.new)) }
    ensures fits { IfOk result (TreeFits inst.now) }
    ensures kept { IfOk result (λ p. All IsKeptNode p.nodes) }
    ensures fault { IfErr result (λ fault. fault ≢ CertText.Memory →
        or_refused (tree_at inst.now scan.old) ≡ Err fault) }
{
    scan.word(b"evroute near tree 1\n")?;
    let bound = take_bound(scan)?;
    let nodes = take_nodes(alloc, inst, scan)?;
    Ok(TreeProof {
        bound,
        nodes: Listed::from_vec(nodes),
    })
}

/// Takes the nodes of a tree.
fn take_nodes(
    alloc: Global,
    inst: &Instance,
    scan: &mut Scan<'_>,
) -> Result<Vec<TreeNode>, CertText>
    ensures ok { IfOk result (λ nodes. nodes_at inst.now scan.old
        ≡ Ok (map (written_node inst.now) nodes.items, scan.new)) }
    ensures tree { IfOk result (λ nodes. (t : NearTree) × IsFitTree inst.now nodes.items t) }
    ensures fits { IfOk result (λ nodes. All (NodeFits inst.now) nodes.items) }
    ensures kept { IfOk result (λ nodes. All IsKeptNode nodes.items) }
    ensures fault { IfErr result (λ fault. fault ≢ CertText.Memory →
        or_refused (nodes_at inst.now scan.old) ≡ Err fault) }
{
    // That the instance's network is one is told by its calls.
    let _nodes = inst.nodes();
    let mut nodes = Vec::new(alloc);
    let mut ways = Vec::new(alloc);
    let mut lasts = Vec::new(alloc);
    ways.push(Listed::new(alloc))?;
    lasts.push(true)?;
    while let Some(last) = lasts.pop() {
        let node = take_node(alloc, inst, scan, top_way(&ways))?;
        open_below(alloc, &mut ways, &mut lasts, last, &node)?;
        nodes.push(node)?;
    }
    Ok(nodes)
}
