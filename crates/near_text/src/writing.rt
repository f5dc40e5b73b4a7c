//! The text of a near proof, written.

ghost use Rattle.std.specs.Prelude.{◌≡◌, ◌≤◌, ◌++◌, OnErr, OnOk, codes, decimal, length, map};
ghost use Rattle.ev_text.specs.Texts.{joined_texts, marked_texts};
ghost use Rattle.instance_reader.specs.Instance.{customer_nodes, most_customers};
ghost use Rattle.near_text.specs.NearTexts.{near_body_text, near_label_text, near_line, near_text, price_line, section_line, tight_line};
ghost use Rattle.near_text.specs.Written.{written_near, written_near_label, written_set};

use certificate_parts::{write_bound, write_plan, write_points, write_set};
use customer_sets::CustSet;
use instance_reader::Instance;
use near_proof::{NearLabel, NearProof};
use route_plan::RoutePlan;
use std::alloc::{AllocError, Global};

/// Appends the text of a near proof of an instance of at most 128 customers, in lines that end with
/// a line feed: the version, the bound, the weight and the number of labels, the prices, the near
/// sets, the labels, and the tight routes. Customers are written by their nodes.
///
/// The only refusal is want of memory. After an `Err` the bytes of `out` are as before.
pub fn push_near(
    alloc: Global,
    out: &mut Vec<u8>,
    inst: &Instance,
    p: &NearProof,
) -> Result<(), AllocError>
    requires { length (customer_nodes inst.now) ≤ most_customers }
    ensures ok { OnOk result
        (out.new.items ≡ out.old.items ++ near_text (written_near inst.now p.now)) }
    ensures err { OnErr result (out.new.items ≡ out.old.items) }
{
    let mut text = Vec::new(alloc);
    text.extend_from_slice(b"evroute near 1\n")?;
    write_body(alloc, &mut text, inst, p)?;
    out.extend_from_slice(text.as_slice())
}

/// Appends the lines behind the first. After an `Err` a part of them may stand there.
fn write_body(
    alloc: Global,
    text: &mut Vec<u8>,
    inst: &Instance,
    p: &NearProof,
) -> Result<(), AllocError>
    requires { length (customer_nodes inst.now) ≤ most_customers }
    ensures { OnOk result
        (text.new.items ≡ text.old.items ++ near_body_text (written_near inst.now p.now)) }
{
    write_bound(alloc, text, p.bound)?;
    write_section(alloc, text, p.weight, p.labels.len())?;
    write_prices(alloc, text, p.prices.as_slice())?;
    write_sets(alloc, text, inst, p.sets.as_slice())?;
    write_labels(alloc, text, inst, p.labels.as_slice())?;
    write_tight(alloc, text, p.tight.as_slice())
}

/// Appends the line with the weight and the number of labels.
fn write_section(
    alloc: Global,
    text: &mut Vec<u8>,
    weight: u64,
    labels: usize,
) -> Result<(), AllocError>
    ensures { OnOk result (text.new.items ≡ text.old.items ++ section_line weight labels) }
{
    let line = format!(in alloc; "section {weight} {labels}\n")?;
    text.extend_from_slice(line.as_bytes())
}

/// Appends the line of the prices.
fn write_prices(alloc: Global, text: &mut Vec<u8>, prices: &[u64]) -> Result<(), AllocError>
    ensures { OnOk result (text.new.items ≡ text.old.items ++ price_line prices.now) }
{
    text.extend_from_slice(b"prices")?;
    write_each_price(alloc, text, prices)?;
    text.extend_from_slice(b"\n")
}

fn write_each_price(alloc: Global, text: &mut Vec<u8>, prices: &[u64]) -> Result<(), AllocError>
    ensures { OnOk result (text.new.items ≡ text.old.items
        ++ marked_texts (codes " ") (λ price. decimal price) prices.now) }
{
    for price in prices {
        write_price(alloc, text, *price)?;
    }
    Ok(())
}

/// Appends a space and a price.
fn write_price(alloc: Global, text: &mut Vec<u8>, price: u64) -> Result<(), AllocError>
    ensures { OnOk result (text.new.items ≡ text.old.items ++ codes " " ++ decimal price) }
{
    let word = format!(in alloc; " {price}")?;
    text.extend_from_slice(word.as_bytes())
}

/// Appends the line of each near set.
fn write_sets(
    alloc: Global,
    text: &mut Vec<u8>,
    inst: &Instance,
    sets: &[CustSet],
) -> Result<(), AllocError>
    requires { length (customer_nodes inst.now) ≤ most_customers }
    ensures { OnOk result (text.new.items ≡ text.old.items
        ++ joined_texts near_line (map (written_set inst.now) sets.now)) }
{
    for set in sets {
        write_near(alloc, text, inst, *set)?;
    }
    Ok(())
}

/// Appends the line of a near set.
fn write_near(
    alloc: Global,
    text: &mut Vec<u8>,
    inst: &Instance,
    set: CustSet,
) -> Result<(), AllocError>
    requires { length (customer_nodes inst.now) ≤ most_customers }
    ensures { OnOk result
        (text.new.items ≡ text.old.items ++ near_line (written_set inst.now set)) }
{
    text.extend_from_slice(b"near ")?;
    write_set(alloc, text, inst, set)?;
    text.extend_from_slice(b"\n")
}

/// Appends the line of each label.
fn write_labels(
    alloc: Global,
    text: &mut Vec<u8>,
    inst: &Instance,
    labels: &[NearLabel],
) -> Result<(), AllocError>
    requires { length (customer_nodes inst.now) ≤ most_customers }
    ensures { OnOk result (text.new.items ≡ text.old.items
        ++ joined_texts near_label_text (map (written_near_label inst.now) labels.now)) }
{
    for label in labels {
        write_label(alloc, text, inst, label)?;
    }
    Ok(())
}

/// Appends the line of a label.
fn write_label(
    alloc: Global,
    text: &mut Vec<u8>,
    inst: &Instance,
    label: &NearLabel,
) -> Result<(), AllocError>
    requires { length (customer_nodes inst.now) ≤ most_customers }
    ensures { OnOk result (text.new.items ≡ text.old.items
        ++ near_label_text (written_near_label inst.now label.now)) }
{
    let (node, count, earned) = (label.node, label.count, label.earned);
    let first = format!(in alloc; "label {node} ")?;
    text.extend_from_slice(first.as_bytes())?;
    write_set(alloc, text, inst, label.memory)?;
    let second = format!(in alloc; " {count} {earned}")?;
    text.extend_from_slice(second.as_bytes())?;
    write_points(alloc, text, label.value.points())?;
    text.extend_from_slice(b"\n")
}

/// Appends the line of each tight route.
fn write_tight(alloc: Global, text: &mut Vec<u8>, tight: &[RoutePlan]) -> Result<(), AllocError>
    ensures { OnOk result (text.new.items ≡ text.old.items ++ joined_texts tight_line tight.now) }
{
    for plan in tight {
        write_tight_route(alloc, text, plan)?;
    }
    Ok(())
}

/// Appends the line of a tight route.
fn write_tight_route(alloc: Global, text: &mut Vec<u8>, plan: &RoutePlan) -> Result<(), AllocError>
    ensures { OnOk result (text.new.items ≡ text.old.items ++ tight_line plan.now) }
{
    text.extend_from_slice(b"tight ")?;
    write_plan(alloc, text, plan)
}
