//! The shape of the tree, as lines in preorder.

ghost use Rattle.std.specs.Prelude.{◌≡◌, ◌<◌, map, slice_get, IfOk, OnErr, OnOk, Some};
ghost use Rattle.std.specs.List.{All, flat_map};
ghost use Rattle.branching.specs.Shape.{named_line, NamesNode, split_line, stands};
ghost use Rattle.branching.specs.declared.shape.Line.TheVariants.{Leaf};

use crate::node::Node;
use bound_certificate::TreeLine;
use slab::Slab;
use std::alloc::{AllocError, Global};

/// A line of the shape.
#[derive(Clone, Copy, Debug, PartialEq, Eq)]
pub(crate) enum Line {
    /// Whether the place `j` follows the place `i`. Behind it stands the tree where it may not, and
    /// then the tree where it has to.
    Split { i: usize, j: usize },
    /// A leaf, with the key of its node.
    Leaf { key: usize },
}

/// The place of the first leaf with the key.
fn place_of(shape: &[Line], key: usize) -> usize
    requires { 0 < stands key shape.now }
    ensures { slice_get shape.now result ≡ Some (Leaf key) }
{
    for (place, line) in shape.iter().enumerate() {
        if *line == (Line::Leaf { key }) {
            return place;
        }
    }
    shape.len()
}

/// Puts a split in place of the leaf with the key: its first leaf has the key, and its second has
/// the key `other`. After a refusal the shape is as before.
pub(crate) fn split_leaf(
    shape: &mut Vec<Line>,
    key: usize,
    i: usize,
    j: usize,
    other: usize,
) -> Result<(), AllocError>
    requires { stands key shape.old.items ≡ 1 }
    ensures ok { OnOk result (shape.new.items
        ≡ flat_map (split_line key i j other) shape.old.items) }
    ensures err { OnErr result (shape.new.items ≡ shape.old.items) }
{
    shape.reserve(2)?;
    let place = place_of(shape.as_slice(), key);
    shape[place] = Line::Split { i, j };
    shape.insert(place + 1, Line::Leaf { key: other })?;
    shape.insert(place + 1, Line::Leaf { key })?;
    Ok(())
}

/// The lines of a certificate, whose leaves name the sections of the nodes.
pub(crate) fn named_lines(
    alloc: Global,
    shape: &[Line],
    nodes: &Slab<Node>,
) -> Result<Vec<TreeLine>, AllocError>
    requires { All (NamesNode nodes.now.slots) shape.now }
    ensures { IfOk result (λ lines. lines.items ≡ map (named_line nodes.now.slots) shape.now) }
{
    let mut lines = Vec::new(alloc);
    for line in shape {
        lines.push(named_line(*line, nodes))?;
    }
    Ok(lines)
}

fn named_line(line: Line, nodes: &Slab<Node>) -> TreeLine
    requires { NamesNode nodes.now.slots line }
    ensures { result ≡ named_line nodes.now.slots line }
{
    match line {
        Line::Split { i, j } => TreeLine::Split { i, j },
        Line::Leaf { key } => TreeLine::Leaf {
            section: nodes[key].section,
        },
    }
}
