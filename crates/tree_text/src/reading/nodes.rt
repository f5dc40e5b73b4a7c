//! Reading the nodes of a tree.

ghost use Rattle.std.specs.Prelude.{◌≡◌, ◌≢◌, ◌≤◌, ◌<◌, ◌+◌, ℕ, List, Err, IfErr, IfOk, None, Ok, Some, decimal, false, length, true, [], ◌&&◌, not, nat_eq};
ghost use Rattle.std.specs.List.{All};
ghost use Rattle.customer_sets.specs.CustSet.{has};
ghost use Rattle.ev_text.specs.declared.TextFault.TheVariants.{TooLarge};
ghost use Rattle.certificate_parts.specs.Places.{IsPlaceOf};
ghost use Rattle.certificate_parts.specs.Ranges.{customer_count};
ghost use Rattle.certificate_parts.specs.Reading.{is_customer_node, node_where};
ghost use Rattle.certificate_parts.specs.Refusals.{or_refused};
ghost use Rattle.certificate_parts.specs.declared.cert_text.CertText.TheVariants.{Memory};
ghost use Rattle.near_text.specs.Written.{written_set};
ghost use Rattle.near_tree.specs.Branches.{Counted};
ghost use Rattle.near_tree.specs.Preorder.{node_of};
ghost use Rattle.near_tree.specs.Ranges.{NodeFits};
ghost use Rattle.tree_text.specs.Reading.{count_at, entries_at, leaf_at, node_at, split_at};
ghost use Rattle.tree_text.specs.Standing.{IsWay, StandsAt, all_written, below_node};
ghost use Rattle.tree_text.specs.Ways.{counted_in};
ghost use Rattle.tree_text.specs.TreeIn.{IsKeptNode, IsKeptSet};
ghost use Rattle.tree_text.specs.Written.{written_node};

use crate::reading::places::take_customer;
use crate::reading::section::take_section;
use crate::reading::sets::take_some_set;
use crate::ways::{CountedSet, has_room, is_between};
use certificate_parts::{CertText, Place};
use customer_sets::LargeSet;
use ev_text::{Scan, TextFault};
use instance_reader::Instance;
use near_tree::TreeNode;
use std::alloc::Global;

/// Takes the lines of a node, above which so much is counted.
pub(crate) fn take_node(
    alloc: Global,
    inst: &Instance,
    scan: &mut Scan<'_>,
    counted: &[CountedSet],
) -> Result<TreeNode, CertText>
    requires { IsWay inst.now (counted_in counted.now) }
    ensures ok { IfOk result (λ node.
        node_at inst.now (all_written inst.now (counted_in counted.now)) scan.old
        ≡ Ok (written_node inst.now node, scan.new)) }
    ensures stands { IfOk result (λ node.
        StandsAt inst.now (counted_in counted.now) (node_of node)) }
    ensures below { IfOk result (λ node.
        All (IsWay inst.now) (below_node (counted_in counted.now) (node_of node))) }
    ensures fits { IfOk result (NodeFits inst.now) }
    ensures kept { IfOk result IsKeptNode }
    ensures fault { IfErr result (λ fault. fault ≢ CertText.Memory →
        or_refused (node_at inst.now (all_written inst.now (counted_in counted.now)) scan.old)
        ≡ Err fault) }
{
    if scan.choose(b"split ")? {
        let node = take_split(inst, scan)?;
        return Ok(node);
    }
    if scan.choose(b"entries ")? {
        let node = take_entries(inst, scan, counted)?;
        return Ok(node);
    }
    take_leaf(alloc, inst, scan, counted)
}

/// Takes the lines of a leaf.
fn take_leaf(
    alloc: Global,
    inst: &Instance,
    scan: &mut Scan<'_>,
    counted: &[CountedSet],
) -> Result<TreeNode, CertText>
    requires { IsWay inst.now (counted_in counted.now) }
    ensures ok { IfOk result (λ node.
        leaf_at inst.now (all_written inst.now (counted_in counted.now)) scan.old
        ≡ Ok (written_node inst.now node, scan.new)) }
    ensures stands { IfOk result (λ node.
        StandsAt inst.now (counted_in counted.now) (node_of node)) }
    ensures below { IfOk result (λ node.
        All (IsWay inst.now) (below_node (counted_in counted.now) (node_of node))) }
    ensures fits { IfOk result (NodeFits inst.now) }
    ensures kept { IfOk result IsKeptNode }
    ensures fault { IfErr result (λ fault. fault ≢ CertText.Memory →
        or_refused (leaf_at inst.now (all_written inst.now (counted_in counted.now)) scan.old)
        ≡ Err fault) }
{
    scan.word(b"leaf\n")?;
    let section = take_section(alloc, inst, scan, counted.len())?;
    Ok(TreeNode::Leaf(section))
}

/// Takes the line of a split behind its word.
fn take_split(inst: &Instance, scan: &mut Scan<'_>) -> Result<TreeNode, TextFault>
    ensures ok { IfOk result (λ node.
        split_at inst.now scan.old ≡ Ok (written_node inst.now node, scan.new)) }
    ensures stands { IfOk result (λ node.
        (counted : List Counted) → StandsAt inst.now counted (node_of node)) }
    ensures below { IfOk result (λ node. (counted : List Counted) → IsWay inst.now counted →
        All (IsWay inst.now) (below_node counted (node_of node))) }
    ensures fits { IfOk result (NodeFits inst.now) }
    ensures kept { IfOk result IsKeptNode }
    ensures fault { IfErr result (λ fault. split_at inst.now scan.old ≡ Err fault) }
{
    let before = take_customer(inst, scan)?;
    scan.word(b" ")?;
    let after = take_other(inst, scan, before.node)?;
    scan.word(b"\n")?;
    Ok(TreeNode::Split {
        before: before.place - 1,
        after: after.place - 1,
    })
}

/// Takes the node of another customer than the one at a node.
fn take_other(inst: &Instance, scan: &mut Scan<'_>, node: usize) -> Result<Place, TextFault>
    ensures ok { IfOk result (λ p. node_where (λ n. is_customer_node inst.now n
        && not (nat_eq n node)) scan.old ≡ Ok (p.node, scan.new)) }
    ensures some { IfOk result (λ p. 1 ≤ p.place) }
    ensures place { IfOk result (IsPlaceOf inst.now) }
    ensures other { IfOk result (λ p. p.node ≢ node) }
    ensures fault { IfErr result (λ fault. node_where (λ n. is_customer_node inst.now n
        && not (nat_eq n node)) scan.old ≡ Err fault) }
{
    let at = scan.place();
    let other = take_customer(inst, scan)?;
    if other.node == node {
        Err(TextFault::TooLarge { at })
    } else {
        Ok(other)
    }
}

/// A count of entries into a set, and where the set begins.
#[derive(Clone, Copy)]
struct Count {
    most: usize,
    set: LargeSet,
    set_at: usize,
}

/// Takes the line of a count behind its word.
fn take_entries(
    inst: &Instance,
    scan: &mut Scan<'_>,
    counted: &[CountedSet],
) -> Result<TreeNode, TextFault>
    requires { IsWay inst.now (counted_in counted.now) }
    ensures ok { IfOk result (λ node.
        entries_at inst.now (all_written inst.now (counted_in counted.now)) scan.old
        ≡ Ok (written_node inst.now node, scan.new)) }
    ensures stands { IfOk result (λ node.
        StandsAt inst.now (counted_in counted.now) (node_of node)) }
    ensures below { IfOk result (λ node.
        All (IsWay inst.now) (below_node (counted_in counted.now) (node_of node))) }
    ensures fits { IfOk result (NodeFits inst.now) }
    ensures kept { IfOk result IsKeptNode }
    ensures fault { IfErr result (λ fault.
        entries_at inst.now (all_written inst.now (counted_in counted.now)) scan.old
        ≡ Err fault) }
{
    let at = scan.place();
    let count = take_count(inst, scan)?;
    if !is_between(counted, count.most, count.set) {
        return Err(TextFault::TooLarge { at });
    }
    if !has_room(counted, count.set) {
        return Err(TextFault::TooLarge { at: count.set_at });
    }
    Ok(TreeNode::Entries {
        most: count.most,
        set: count.set,
    })
}

/// Takes a count and a set, which isn't empty, and the line feed.
fn take_count(inst: &Instance, scan: &mut Scan<'_>) -> Result<Count, TextFault>
    ensures ok { IfOk result (λ c. count_at inst.now scan.old
        ≡ Ok ((c.most, written_set inst.now c.set), scan.new)) }
    ensures behind { IfOk result (λ c.
        c.set_at ≡ scan.old.1 + (length (decimal c.most) + 1)) }
    ensures among { IfOk result (λ c.
        (x : ℕ) → has c.set x ≡ true → x < customer_count inst.now) }
    ensures some { IfOk result (λ c. written_set inst.now c.set ≢ []) }
    ensures kept { IfOk result (λ c. IsKeptSet c.set) }
    ensures fault { IfErr result (λ fault. count_at inst.now scan.old ≡ Err fault) }
{
    let most = scan.whole(inst.customers().len() as u128)? as usize;
    scan.word(b" ")?;
    let set_at = scan.place();
    let set = take_some_set(inst, scan)?;
    Ok(Count { most, set, set_at })
}
