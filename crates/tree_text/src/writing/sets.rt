//! Writing sets of customers.

ghost use Rattle.std.specs.Prelude.{◌≡◌, ◌≤◌, ◌<◌, IfOk, length, codes, ◌∷◌, [], OnOk, ◌++◌, decimal, if◌then◌else◌, map};
ghost use Rattle.customer_sets.specs.CustSet.{has};
ghost use Rattle.instance_reader.specs.Instance.{customer_nodes};
ghost use Rattle.ev_text.specs.Texts.{joined_texts, marked_texts};
ghost use Rattle.certificate_parts.specs.Texts.{set_text};
ghost use Rattle.near_text.specs.NearTexts.{near_line};
ghost use Rattle.near_text.specs.Written.{written_set};

use customer_sets::LargeSet;
use instance_reader::Instance;
use std::alloc::{AllocError, Global};

/// Appends the line of each near set.
pub(crate) fn write_nears(
    alloc: Global,
    text: &mut Vec<u8>,
    inst: &Instance,
    sets: &[LargeSet],
) -> Result<(), AllocError>
    requires { length (customer_nodes inst.now) ≤ 448 }
    ensures { OnOk result (text.new.items ≡ text.old.items
        ++ joined_texts near_line (map (written_set inst.now) sets.now)) }
{
    for set in sets {
        write_near(alloc, text, inst, *set)?;
    }
    Ok(())
}

/// Appends the line of a near set.
fn write_near(
    alloc: Global,
    text: &mut Vec<u8>,
    inst: &Instance,
    set: LargeSet,
) -> Result<(), AllocError>
    requires { length (customer_nodes inst.now) ≤ 448 }
    ensures { OnOk result
        (text.new.items ≡ text.old.items ++ near_line (written_set inst.now set)) }
{
    text.extend_from_slice(b"near ")?;
    write_set(alloc, text, inst, set)?;
    text.extend_from_slice(b"\n")
}

/// Appends the nodes of the customers in a set, parted by commas, or `-` where there is none.
pub(crate) fn write_set(
    alloc: Global,
    text: &mut Vec<u8>,
    inst: &Instance,
    set: LargeSet,
) -> Result<(), AllocError>
    requires { length (customer_nodes inst.now) ≤ 448 }
    ensures { OnOk result
        (text.new.items ≡ text.old.items ++ set_text (written_set inst.now set)) }
{
    let nodes = nodes_in(alloc, inst, set)?;
    write_members(alloc, text, &nodes)
}

/// The nodes of the customers in a set, in rising order.
fn nodes_in(alloc: Global, inst: &Instance, set: LargeSet) -> Result<Vec<usize>, AllocError>
    requires { length (customer_nodes inst.now) ≤ 448 }
    ensures { IfOk result (λ nodes. nodes.items ≡ written_set inst.now set) }
{
    let mut nodes = Vec::new(alloc);
    let customers = inst.customers();
    for (number, node) in customers.iter().enumerate() {
        push_if_in(&mut nodes, set, number, *node)?;
    }
    Ok(nodes)
}

/// Appends the node of a customer, where the customer's number is in the set.
fn push_if_in(
    nodes: &mut Vec<usize>,
    set: LargeSet,
    number: usize,
    node: usize,
) -> Result<(), AllocError>
    requires { number < 448 }
    ensures { OnOk result (nodes.new.items ≡ nodes.old.items
        ++ (if has set number then node ∷ [] else [])) }
{
    if set.has(number) {
        nodes.push(node)?;
    }
    Ok(())
}

/// Appends nodes, parted by commas, or `-` where there is none.
fn write_members(alloc: Global, text: &mut Vec<u8>, nodes: &[usize]) -> Result<(), AllocError>
    ensures { OnOk result (text.new.items ≡ text.old.items ++ set_text nodes.now) }
{
    match nodes {
        [] => text.extend_from_slice(b"-"),
        [first, others @ ..] => {
            let word = first.to_string(alloc)?;
            text.extend_from_slice(word.as_bytes())?;
            write_others(alloc, text, others)
        }
    }
}

/// Appends nodes, each behind a comma.
fn write_others(alloc: Global, text: &mut Vec<u8>, nodes: &[usize]) -> Result<(), AllocError>
    ensures { OnOk result (text.new.items ≡ text.old.items
        ++ marked_texts (codes ",") (λ n. decimal n) nodes.now) }
{
    for node in nodes {
        write_other(alloc, text, *node)?;
    }
    Ok(())
}

/// Appends a comma and a node.
fn write_other(alloc: Global, text: &mut Vec<u8>, node: usize) -> Result<(), AllocError>
    ensures { OnOk result (text.new.items ≡ text.old.items ++ codes "," ++ decimal node) }
{
    let word = format!(in alloc; ",{node}")?;
    text.extend_from_slice(word.as_bytes())
}
