//! The text of a tree, written.

ghost use Rattle.std.specs.Prelude.{◌≡◌, ◌≤◌, ◌++◌, OnErr, OnOk, length, map};
ghost use Rattle.ev_text.specs.Texts.{joined_texts};
ghost use Rattle.instance_reader.specs.Instance.{customer_nodes};
ghost use Rattle.near_text.specs.Written.{written_set};
ghost use Rattle.tree_text.specs.TreeTexts.{node_text, tree_body_text, tree_text};
ghost use Rattle.tree_text.specs.Written.{written_entries, written_node, written_split, written_tree};

mod labels;
mod section;
mod sets;

use crate::customers::{customer_count, node_of};
use certificate_parts::write_bound;
use customer_sets::LargeSet;
use instance_reader::Instance;
use near_tree::{TreeNode, TreeProof};
use section::write_section;
use sets::write_set;
use std::alloc::{AllocError, Global};

/// Appends the text of a tree, in lines that end with a line feed: the version, the bound, and the
/// nodes in preorder, each leaf with its section. Customers are written by their nodes.
///
/// The only refusal is want of memory. After an `Err` the bytes of `out` are as before.
pub fn push_tree(
    alloc: Global,
    out: &mut Vec<u8>,
    inst: &Instance,
    p: &TreeProof,
) -> Result<(), AllocError>
    ensures ok { OnOk result
        (out.new.items ≡ out.old.items ++ tree_text (written_tree inst.now p.now)) }
    ensures err { OnErr result (out.new.items ≡ out.old.items) }
{
    // That a set holds all customers is told by this call.
    let _customers = customer_count(inst);
    let mut text = Vec::new(alloc);
    text.extend_from_slice(b"evroute near tree 1\n")?;
    write_body(alloc, &mut text, inst, p)?;
    out.extend_from_slice(text.as_slice())
}

/// Appends the lines behind the first. After an `Err` a part of them may stand there.
fn write_body(
    alloc: Global,
    text: &mut Vec<u8>,
    inst: &Instance,
    p: &TreeProof,
) -> Result<(), AllocError>
    requires { length (customer_nodes inst.now) ≤ 448 }
    ensures { OnOk result
        (text.new.items ≡ text.old.items ++ tree_body_text (written_tree inst.now p.now)) }
{
    write_bound(alloc, text, p.bound)?;
    write_nodes(alloc, text, inst, p.nodes.as_slice())
}

/// Appends the lines of each node.
fn write_nodes(
    alloc: Global,
    text: &mut Vec<u8>,
    inst: &Instance,
    nodes: &[TreeNode],
) -> Result<(), AllocError>
    requires { length (customer_nodes inst.now) ≤ 448 }
    ensures { OnOk result (text.new.items ≡ text.old.items
        ++ joined_texts node_text (map (written_node inst.now) nodes.now)) }
{
    for node in nodes {
        write_node(alloc, text, inst, node)?;
    }
    Ok(())
}

/// Appends the lines of a node.
fn write_node(
    alloc: Global,
    text: &mut Vec<u8>,
    inst: &Instance,
    node: &TreeNode,
) -> Result<(), AllocError>
    requires { length (customer_nodes inst.now) ≤ 448 }
    ensures { OnOk result
        (text.new.items ≡ text.old.items ++ node_text (written_node inst.now node.now)) }
{
    match node {
        TreeNode::Split { before, after } => {
            write_split(alloc, text, node_of(inst, *before), node_of(inst, *after))
        }
        TreeNode::Entries { most, set } => write_entries(alloc, text, inst, *most, *set),
        TreeNode::Leaf(section) => {
            text.extend_from_slice(b"leaf\n")?;
            write_section(alloc, text, inst, section)
        }
    }
}

/// Appends the line of a split on the customers at two nodes.
fn write_split(alloc: Global, text: &mut Vec<u8>, i: usize, j: usize) -> Result<(), AllocError>
    ensures { OnOk result (text.new.items ≡ text.old.items ++ node_text (written_split i j)) }
{
    let line = format!(in alloc; "split {i} {j}\n")?;
    text.extend_from_slice(line.as_bytes())
}

/// Appends the line of a count of entries into a set.
fn write_entries(
    alloc: Global,
    text: &mut Vec<u8>,
    inst: &Instance,
    most: usize,
    set: LargeSet,
) -> Result<(), AllocError>
    requires { length (customer_nodes inst.now) ≤ 448 }
    ensures { OnOk result (text.new.items ≡ text.old.items
        ++ node_text (written_entries most (written_set inst.now set))) }
{
    let line = format!(in alloc; "entries {most} ")?;
    text.extend_from_slice(line.as_bytes())?;
    write_set(alloc, text, inst, set)?;
    text.extend_from_slice(b"\n")
}
