//! The judge of trees.

ghost use Rattle.std.specs.Prelude.{◌≡◌, IfOk};
ghost use Rattle.near_proof.specs.Truth.{IsTrueNearBound};
ghost use Rattle.near_tree.specs.Paths.{IsPath, branch_at};
ghost use Rattle.near_tree.specs.Preorder.{section_of};
ghost use Rattle.near_tree.specs.Ranges.{CountsFew, LeafSectionFits, TreeFits};
ghost use Rattle.near_tree.specs.Trees.{IsSectionAt};
ghost use Rattle.near_tree.specs.Sites.{leaf_at};
ghost use Rattle.near_tree.specs.Verdicts.{IsVerdict, TellsLeaf, next_unbounded, verdict_by, verdict_of};
ghost use Rattle.near_tree.specs.declared.verdict.TreeVerdict.TheVariants.{Accepted};

use crate::bound::is_bounded;
use crate::counted::counted_along;
use crate::faults::{LeafFault, first_fault};
use crate::path::{Turn, go_on};
use crate::site::Site;
use crate::{LeafSection, TreeNode, TreeProof, TreeVerdict};
use instance_reader::Instance;
use std::alloc::{AllocError, Global};

/// The verdict on a tree: that it is accepted, or the first rule that it breaks. The only `Err` is
/// want of memory.
///
/// The rules, of which the first three are tried leaf by leaf, and the last over all leaves after
/// these; `docs/near-trees.md` says what a step is, and what a label covers:
///
/// 1. Some label of the leaf covers the start.
/// 2. Each step from a label to a customer or a station leads to a state that some label of the
///    leaf covers. A customer isn't remembered, and no split above the leaf forbids that it comes
///    next after the label's last.
/// 3. No step home takes, times the weight, less than the label has earned.
/// 4. The bound of the leaf is no less than the tree's: the sum of its prices, and of each counted
///    set its entry price times the least number of entries, or the most where the price is below
///    0, over the weight, rounded up. A tree without a bound has the weight 0 and a sum above 0.
///
/// Where it is accepted, whoever wrote it, every fleet plan in any fraction of a unit of charge
/// costs at least the bound, and there is none where it has no bound.
///
/// The way to a leaf is gone through again at each leaf: once for each pair of places, and once for
/// the counted sets. A leaf n nodes down a tree takes time for n times the square of the number of
/// customers, beside its labels. Its table of lasts takes time for the square of the number of
/// customers times the number of counted sets, and for each two lasts of which a set has one alone
/// up to the number of customers times as long.
pub fn check_tree(
    alloc: Global,
    inst: &Instance,
    proof: &TreeProof,
) -> Result<TreeVerdict, AllocError>
    requires { TreeFits inst.now proof.now }
    ensures verdict { IfOk result (IsVerdict inst.now proof.now) }
    ensures shows { IfOk result (λ v. v ≡ Accepted → IsTrueNearBound inst.now proof.now.bound) }
{
    // That the instance's network is one is told by its calls.
    let _nodes = inst.nodes();
    verdict_on(alloc, inst, proof)
}

/// That a tree is accepted, or the first rule that it breaks.
///
/// Goes along the nodes, and keeps the way down to the next one.
fn verdict_on(alloc: Global, inst: &Instance, proof: &TreeProof) -> Result<TreeVerdict, AllocError>
    requires { TreeFits inst.now proof.now }
    ensures { IfOk result (IsVerdict inst.now proof.now) }
{
    let nodes = proof.nodes.as_slice();
    let mut path = Vec::new(alloc);
    let mut leaf = 0;
    let mut unbounded = None;
    for node in nodes {
        match node {
            TreeNode::Split {
                before: _,
                after: _,
            } => path.push(Turn {
                node,
                second: false,
            })?,
            TreeNode::Entries { most: _, set: _ } => path.push(Turn {
                node,
                second: false,
            })?,
            TreeNode::Leaf(section) => {
                match told_at(alloc, inst, path.as_slice(), section, proof.bound)? {
                    LeafTold::Fault(fault) => return Ok(verdict_by(leaf, fault)),
                    LeafTold::Closed { bounded } => {
                        unbounded = next_unbounded(unbounded, leaf, bounded);
                    }
                }
                leaf += 1;
                if !go_on(&mut path)? {
                    return Ok(verdict_of(unbounded));
                }
            }
        }
    }
    Ok(verdict_of(unbounded))
}

/// What a leaf is found to be.
#[derive(Clone, Copy)]
pub(crate) enum LeafTold {
    /// Its labels are not closed.
    Fault(LeafFault),
    /// Its labels are closed, and its bound is no less than the tree's, or is.
    Closed { bounded: bool },
}

/// Whether the labels at the end of the way are closed, and whether they are bounded.
fn told_at(
    alloc: Global,
    inst: &Instance,
    path: &[Turn<'_>],
    section: &LeafSection,
    bound: Option<u128>,
) -> Result<LeafTold, AllocError>
    requires path { IsPath inst.now path.now }
    requires fits { LeafSectionFits inst.now section.now }
    requires section { IsSectionAt inst.now (branch_at path.now) (section_of section.now) }
    requires few { CountsFew (branch_at path.now) (section_of section.now) }
    ensures { IfOk result (TellsLeaf inst.now bound (leaf_at path.now section.now)) }
{
    // How many nodes an instance has at most is told by its calls.
    let _nodes = inst.nodes();
    let counted = counted_along(alloc, path)?;
    let site = Site {
        inst,
        path,
        counted: counted.as_slice(),
        section,
    };
    if let Some(fault) = first_fault(alloc, &site)? {
        return Ok(LeafTold::Fault(fault));
    }
    Ok(LeafTold::Closed {
        bounded: is_bounded(&site, bound),
    })
}

/// The verdict on a tree where the labels of a leaf are not closed.
fn verdict_by(leaf: usize, fault: LeafFault) -> TreeVerdict
    ensures { result ≡ verdict_by leaf fault }
{
    match fault {
        LeafFault::Start => TreeVerdict::Start { leaf },
        LeafFault::Step { label, node } => TreeVerdict::Step { leaf, label, node },
        LeafFault::Home { label } => TreeVerdict::Home { leaf, label },
    }
}

/// The verdict on a tree where all labels are closed.
fn verdict_of(unbounded: Option<usize>) -> TreeVerdict
    ensures { result ≡ verdict_of unbounded }
{
    match unbounded {
        Some(leaf) => TreeVerdict::Bound { leaf },
        None => TreeVerdict::Accepted,
    }
}

/// The first leaf that isn't bounded, with one more.
fn next_unbounded(unbounded: Option<usize>, leaf: usize, bounded: bool) -> Option<usize>
    ensures { result ≡ next_unbounded unbounded leaf bounded }
{
    match unbounded {
        Some(other) => Some(other),
        None => { if bounded { None } else { Some(leaf) } }
    }
}
