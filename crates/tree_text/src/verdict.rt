//! The text of a verdict.

ghost use Rattle.std.specs.Prelude.{◌≡◌, ◌++◌, OnErr, OnOk, codes, decimal};
ghost use Rattle.ev_text.specs.Scans.{IsPrefixOf};
ghost use Rattle.near_tree.specs.declared.verdict.TreeVerdict.TheVariants.{Accepted};
ghost use Rattle.tree_text.specs.VerdictText.{labelled, rejected_line, tree_verdict_text};

use instance_reader::Instance;
use near_tree::{TreeProof, TreeVerdict};
use report_lines::{push_number_line, push_numbered, push_scaled_line};
use std::alloc::{AllocError, Global};

/// Appends what is told of a verdict on a tree: that it is accepted, and the tree's scaled bound
/// over the instance's denominator, never reduced, or that it has none; or else the number of the
/// first rule that it breaks, and what breaks it: the leaf, at a step its label and the node too,
/// and at a step home its label. The bound is told of an accepted tree alone.
///
/// After an `Err`, which is want of memory alone, `out` has kept its old bytes as a prefix.
pub fn push_tree_verdict(
    alloc: Global,
    out: &mut Vec<u8>,
    inst: &Instance,
    p: &TreeProof,
    v: &TreeVerdict,
) -> Result<(), AllocError>
    ensures ok { OnOk result (out.new.items
        ≡ out.old.items ++ tree_verdict_text inst.now.denominator p.now.bound v.now) }
    ensures err { OnErr result (IsPrefixOf out.old.items out.new.items) }
{
    match v {
        TreeVerdict::Accepted => push_accepted(alloc, out, inst.denominator(), p.bound),
        TreeVerdict::Start { leaf } => push_start(alloc, out, *leaf),
        TreeVerdict::Step { leaf, label, node } => push_step(alloc, out, *leaf, *label, *node),
        TreeVerdict::Home { leaf, label } => push_home(alloc, out, *leaf, *label),
        TreeVerdict::Bound { leaf } => push_bound(alloc, out, *leaf),
    }
}

/// Appends that a tree is accepted, and its bound.
fn push_accepted(
    alloc: Global,
    out: &mut Vec<u8>,
    denominator: u64,
    bound: Option<u128>,
) -> Result<(), AllocError>
    ensures ok { OnOk result
        (out.new.items ≡ out.old.items ++ tree_verdict_text denominator bound Accepted) }
    ensures err { OnErr result (IsPrefixOf out.old.items out.new.items) }
{
    out.extend_from_slice(b"accepted\n")?;
    push_scaled_line(alloc, out, b"bound ", bound, denominator)
}

/// Appends that no label of a leaf covers the start.
fn push_start(alloc: Global, out: &mut Vec<u8>, leaf: usize) -> Result<(), AllocError>
    ensures ok { OnOk result
        (out.new.items ≡ out.old.items ++ rejected_line (codes "1 leaf " ++ decimal leaf)) }
    ensures err { OnErr result (IsPrefixOf out.old.items out.new.items) }
{
    push_number_line(alloc, out, b"rejected tree 1 leaf ", leaf as u128)
}

/// Appends that a step leads to a state that is not covered.
fn push_step(
    alloc: Global,
    out: &mut Vec<u8>,
    leaf: usize,
    label: usize,
    node: usize,
) -> Result<(), AllocError>
    ensures ok { OnOk result (out.new.items ≡ out.old.items ++ rejected_line
        (codes "2 leaf " ++ labelled leaf label ++ codes " node " ++ decimal node)) }
    ensures err { OnErr result (IsPrefixOf out.old.items out.new.items) }
{
    push_labelled(alloc, out, b"rejected tree 2 leaf ", leaf, label)?;
    push_number_line(alloc, out, b" node ", node as u128)
}

/// Appends that a step home takes less than the label has earned.
fn push_home(alloc: Global, out: &mut Vec<u8>, leaf: usize, label: usize) -> Result<(), AllocError>
    ensures ok { OnOk result
        (out.new.items ≡ out.old.items ++ rejected_line (codes "3 leaf " ++ labelled leaf label)) }
    ensures err { OnErr result (IsPrefixOf out.old.items out.new.items) }
{
    push_labelled(alloc, out, b"rejected tree 3 leaf ", leaf, label)?;
    out.extend_from_slice(b"\n")
}

/// Appends that the bound of a leaf is less than the tree's.
fn push_bound(alloc: Global, out: &mut Vec<u8>, leaf: usize) -> Result<(), AllocError>
    ensures ok { OnOk result
        (out.new.items ≡ out.old.items ++ rejected_line (codes "4 leaf " ++ decimal leaf)) }
    ensures err { OnErr result (IsPrefixOf out.old.items out.new.items) }
{
    push_number_line(alloc, out, b"rejected tree 4 leaf ", leaf as u128)
}

/// Appends a word, a leaf, and a label of it.
fn push_labelled(
    alloc: Global,
    out: &mut Vec<u8>,
    word: &[u8],
    leaf: usize,
    label: usize,
) -> Result<(), AllocError>
    ensures ok { OnOk result
        (out.new.items ≡ out.old.items ++ (word.now ++ labelled leaf label)) }
    ensures err { OnErr result (IsPrefixOf out.old.items out.new.items) }
{
    push_numbered(alloc, out, word, leaf as u128)?;
    push_numbered(alloc, out, b" label ", label as u128)
}
