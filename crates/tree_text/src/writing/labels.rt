//! Writing labels of a section.

ghost use Rattle.std.specs.Prelude.{◌≡◌, ◌≤◌, ◌++◌, OnOk, codes, length, map};
ghost use Rattle.std.specs.Fmt.{signed_decimal};
ghost use Rattle.ev_text.specs.Texts.{joined_texts};
ghost use Rattle.instance_reader.specs.Instance.{customer_nodes};
ghost use Rattle.tree_text.specs.TreeTexts.{head_text, last_text, section_label_text};
ghost use Rattle.tree_text.specs.Written.{named, named_last, written_last, written_section_label};

use crate::customers::{is_station, node_of};
use crate::writing::sets::write_set;
use certificate_parts::write_points;
use ev_text::push_signed;
use instance_reader::Instance;
use near_tree::{LastServed, SectionLabel};
use std::alloc::{AllocError, Global};

/// Appends the line of each label.
pub(crate) fn write_labels(
    alloc: Global,
    text: &mut Vec<u8>,
    inst: &Instance,
    labels: &[SectionLabel],
) -> Result<(), AllocError>
    requires { length (customer_nodes inst.now) ≤ 448 }
    ensures { OnOk result (text.new.items ≡ text.old.items
        ++ joined_texts section_label_text (map (written_section_label inst.now) labels.now)) }
{
    for label in labels {
        write_label(alloc, text, inst, label)?;
    }
    Ok(())
}

/// Appends the line of a label.
fn write_label(
    alloc: Global,
    text: &mut Vec<u8>,
    inst: &Instance,
    label: &SectionLabel,
) -> Result<(), AllocError>
    requires { length (customer_nodes inst.now) ≤ 448 }
    ensures { OnOk result (text.new.items ≡ text.old.items
        ++ section_label_text (written_section_label inst.now label.now)) }
{
    write_head(alloc, text, inst, label)?;
    write_points(alloc, text, label.value.points())?;
    text.extend_from_slice(b"\n")
}

/// Appends the line of a label, up to its points.
fn write_head(
    alloc: Global,
    text: &mut Vec<u8>,
    inst: &Instance,
    label: &SectionLabel,
) -> Result<(), AllocError>
    requires { length (customer_nodes inst.now) ≤ 448 }
    ensures { OnOk result (text.new.items ≡ text.old.items
        ++ head_text (written_section_label inst.now label.now)) }
{
    let node = label.node;
    let first = format!(in alloc; "label {node} ")?;
    text.extend_from_slice(first.as_bytes())?;
    write_last(alloc, text, inst, node, label.last)?;
    write_set(alloc, text, inst, label.memory)?;
    write_earned(alloc, text, label.earned)
}

/// Appends a space and what was earned.
fn write_earned(alloc: Global, text: &mut Vec<u8>, earned: i128) -> Result<(), AllocError>
    ensures { OnOk result
        (text.new.items ≡ text.old.items ++ codes " " ++ signed_decimal earned) }
{
    text.extend_from_slice(b" ")?;
    push_signed(alloc, text, earned)
}

/// Appends a last and a space, where a station is at the node.
fn write_last(
    alloc: Global,
    text: &mut Vec<u8>,
    inst: &Instance,
    node: usize,
    last: LastServed,
) -> Result<(), AllocError>
    ensures { OnOk result
        (text.new.items ≡ text.old.items ++ last_text (written_last inst.now node last)) }
{
    if !is_station(inst, node) {
        return Ok(());
    }
    write_named(alloc, text, inst, last)
}

/// Appends whom a vehicle served last, and a space.
fn write_named(
    alloc: Global,
    text: &mut Vec<u8>,
    inst: &Instance,
    last: LastServed,
) -> Result<(), AllocError>
    ensures { OnOk result
        (text.new.items ≡ text.old.items ++ last_text (named_last inst.now last)) }
{
    match last {
        LastServed::Nobody => write_node(alloc, text, 0),
        LastServed::Customer(number) => write_node(alloc, text, node_of(inst, number)),
        LastServed::Anybody => text.extend_from_slice(b"* "),
    }
}

/// Appends a node and a space.
fn write_node(alloc: Global, text: &mut Vec<u8>, node: usize) -> Result<(), AllocError>
    ensures { OnOk result (text.new.items ≡ text.old.items ++ last_text (named node)) }
{
    let word = format!(in alloc; "{node} ")?;
    text.extend_from_slice(word.as_bytes())
}
