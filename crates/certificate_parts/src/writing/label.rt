//! Writing labels.

ghost use Rattle.std.specs.Prelude.{◌≡◌, ◌≤◌, ◌<◌, IfOk, Ok, length, codes, map, ◌∷◌, [], OnOk, ◌++◌, ◌+◌, decimal, if◌then◌else◌, ◌*◌};
ghost use Rattle.customer_sets.specs.CustSet.{has};
ghost use Rattle.instance_reader.specs.Instance.{customer_nodes, most_customers};
ghost use Rattle.certificate_parts.specs.Written.{nodes_in, written_label};
ghost use Rattle.ev_text.specs.Texts.{joined_texts, marked_texts};
ghost use Rattle.certificate_parts.specs.Texts.{label_text, point_text, set_text};

use crate::writing::number::push_number;
use customer_sets::CustSet;
use instance_reader::Instance;
use piece_fn::Label;
use std::alloc::{AllocError, Global};

/// Appends the lines of labels.
pub fn write_labels(
    alloc: Global,
    text: &mut Vec<u8>,
    inst: &Instance,
    labels: &[Label],
) -> Result<(), AllocError>
    requires { length (customer_nodes inst.now) ≤ most_customers }
    ensures { OnOk result (text.new.items ≡ text.old.items
        ++ joined_texts label_text (map (written_label inst.now) labels.now)) }
{
    for label in labels {
        write_label(alloc, text, inst, label)?;
    }
    Ok(())
}

/// Appends the line of a label.
fn write_label(
    alloc: Global,
    text: &mut Vec<u8>,
    inst: &Instance,
    label: &Label,
) -> Result<(), AllocError>
    requires { length (customer_nodes inst.now) ≤ most_customers }
    ensures { OnOk result (text.new.items ≡ text.old.items
        ++ label_text (written_label inst.now label.now)) }
{
    text.extend_from_slice(b"label ")?;
    push_number(text, label.last as u64)?;
    text.push(b' ')?;
    push_number(text, label.node as u64)?;
    text.push(b' ')?;
    write_set(alloc, text, inst, label.set)?;
    write_points(alloc, text, label.value.points())?;
    text.extend_from_slice(b"\n")
}

/// Appends the nodes of the customers in a set, parted by commas, or `-` where there is none.
pub fn write_set(
    alloc: Global,
    text: &mut Vec<u8>,
    inst: &Instance,
    set: CustSet,
) -> Result<(), AllocError>
    requires { length (customer_nodes inst.now) ≤ most_customers }
    ensures { OnOk result (text.new.items ≡ text.old.items
        ++ set_text (nodes_in set 0 (customer_nodes inst.now))) }
{
    let nodes = nodes_in(alloc, inst, set)?;
    write_nodes(text, &nodes)
}

/// The nodes of the customers in a set, in rising order.
fn nodes_in(alloc: Global, inst: &Instance, set: CustSet) -> Result<Vec<usize>, AllocError>
    requires { length (customer_nodes inst.now) ≤ most_customers }
    ensures { IfOk result (λ nodes. nodes.items ≡ nodes_in set 0 (customer_nodes inst.now)) }
{
    let mut nodes = Vec::new(alloc);
    let customers = inst.customers();
    for (number, node) in customers.iter().enumerate() {
        push_if_in(&mut nodes, set, number, *node)?;
    }
    Ok(nodes)
}

/// Appends the node of a customer, where the customer's number is in the set.
fn push_if_in(
    nodes: &mut Vec<usize>,
    set: CustSet,
    number: usize,
    node: usize,
) -> Result<(), AllocError>
    requires { number < 128 }
    ensures { OnOk result (nodes.new.items ≡ nodes.old.items
        ++ (if has set number then node ∷ [] else [])) }
{
    if set.has(number) {
        nodes.push(node)?;
    }
    Ok(())
}

/// Appends nodes, parted by commas, or `-` where there is none.
fn write_nodes(text: &mut Vec<u8>, nodes: &[usize]) -> Result<(), AllocError>
    ensures { OnOk result (text.new.items ≡ text.old.items ++ set_text nodes.now) }
{
    match nodes {
        [] => text.extend_from_slice(b"-"),
        [first, others @ ..] => {
            push_number(text, *first as u64)?;
            write_others(text, others)
        }
    }
}

/// Appends nodes, each behind a comma.
fn write_others(text: &mut Vec<u8>, nodes: &[usize]) -> Result<(), AllocError>
    ensures { OnOk result (text.new.items ≡ text.old.items
        ++ marked_texts (codes ",") (λ n. decimal n) nodes.now) }
{
    for node in nodes {
        write_other(text, *node)?;
    }
    Ok(())
}

/// Appends a comma and a node.
fn write_other(text: &mut Vec<u8>, node: usize) -> Result<(), AllocError>
    ensures { OnOk result (text.new.items ≡ text.old.items ++ codes "," ++ decimal node) }
{
    text.push(b',')?;
    push_number(text, node as u64)
}

/// Appends points, each behind a space. It takes no memory but the text's own.
pub fn write_points(
    _alloc: Global,
    text: &mut Vec<u8>,
    points: &[(u64, u64)],
) -> Result<(), AllocError>
    ensures { OnOk result (text.new.items ≡ text.old.items
        ++ marked_texts (codes " ") point_text points.now) }
{
    for point in points {
        write_point(text, *point)?;
    }
    Ok(())
}

/// Appends a space, a level and its time.
fn write_point(text: &mut Vec<u8>, point: (u64, u64)) -> Result<(), AllocError>
    ensures { OnOk result (text.new.items ≡ text.old.items ++ codes " " ++ point_text point) }
{
    let (level, time) = point;
    text.push(b' ')?;
    push_number(text, level)?;
    text.push(b':')?;
    push_number(text, time)
}
