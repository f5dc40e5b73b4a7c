//! The text of a proof for several kinds of vehicles, written.

ghost use Rattle.std.specs.Prelude.{◌≡◌, ◌≤◌, ◌∷◌, ◌++◌, OnErr, OnOk, codes, length, map};
ghost use Rattle.instance_reader.specs.Instance.{customer_nodes, most_customers};
ghost use Rattle.mixed_model.specs.Kinds.{AreKinds, first_of};
ghost use Rattle.mixed_text.specs.MixedTexts.{kind_line, kind_text, kinds_line, kinds_text, mixed_body_text, mixed_text, weight_line};
ghost use Rattle.mixed_text.specs.Written.{written_labels, written_mixed};

mod basis;
mod root;

use crate::reading::first_kind;
use certificate_parts::{write_bound, write_labels, write_prices};
use ev_list::Listed;
use instance_reader::Instance;
use mixed_model::MixedProof;
use piece_fn::Label;
use root::write_root;
use std::alloc::{AllocError, Global};

/// Appends the text of a proof for kinds of vehicles that agree, of at most 128 customers, in lines
/// that end with a line feed: the version, the number of kinds, the bound, the root, the weight,
/// the prices, and the labels of each kind. Customers are written by their nodes.
///
/// A proof in its ranges is read again; one that isn't is written too, with node 0 for a customer
/// that there isn't.
///
/// The only refusal is want of memory. After an `Err` the bytes of `out` are as before.
pub fn push_mixed(
    alloc: Global,
    out: &mut Vec<u8>,
    kinds: &[Instance],
    p: &MixedProof,
) -> Result<(), AllocError>
    requires kinds { AreKinds kinds.now }
    requires few { length (customer_nodes (first_of kinds.now)) ≤ most_customers }
    ensures ok { OnOk result
        (out.new.items ≡ out.old.items ++ mixed_text (written_mixed kinds.now p.now)) }
    ensures err { OnErr result (out.new.items ≡ out.old.items) }
{
    let mut text = Vec::new(alloc);
    write_text(alloc, &mut text, kinds, p)?;
    out.extend_from_slice(text.as_slice())
}

/// Appends the lines. After an `Err` a part of them may stand there.
fn write_text(
    alloc: Global,
    text: &mut Vec<u8>,
    kinds: &[Instance],
    p: &MixedProof,
) -> Result<(), AllocError>
    requires kinds { AreKinds kinds.now }
    requires few { length (customer_nodes (first_of kinds.now)) ≤ most_customers }
    ensures { OnOk result
        (text.new.items ≡ text.old.items ++ mixed_text (written_mixed kinds.now p.now)) }
{
    write_head(alloc, text, p.labels.len())?;
    write_body(alloc, text, kinds, p)
}

/// Appends the line of the version and that with the number of kinds.
fn write_head(alloc: Global, text: &mut Vec<u8>, count: usize) -> Result<(), AllocError>
    ensures { OnOk result
        (text.new.items ≡ text.old.items ++ (codes "evroute mixed 1" ++ 10 ∷ kinds_line count)) }
{
    let lines = format!(in alloc; "evroute mixed 1\nkinds {count}\n")?;
    text.extend_from_slice(lines.as_bytes())
}

/// Appends the lines behind the first two. After an `Err` a part of them may stand there.
fn write_body(
    alloc: Global,
    text: &mut Vec<u8>,
    kinds: &[Instance],
    p: &MixedProof,
) -> Result<(), AllocError>
    requires kinds { AreKinds kinds.now }
    requires few { length (customer_nodes (first_of kinds.now)) ≤ most_customers }
    ensures { OnOk result
        (text.new.items ≡ text.old.items ++ mixed_body_text (written_mixed kinds.now p.now)) }
{
    let first = first_kind(kinds);
    write_bound(alloc, text, p.bound)?;
    write_root(alloc, text, first, &p.root)?;
    write_weight(alloc, text, p.weight)?;
    write_prices(alloc, text, p.prices.as_slice())?;
    write_kinds(alloc, text, first, p.labels.as_slice())
}

/// Appends the line with the weight.
fn write_weight(alloc: Global, text: &mut Vec<u8>, weight: u64) -> Result<(), AllocError>
    ensures { OnOk result (text.new.items ≡ text.old.items ++ weight_line weight) }
{
    let line = format!(in alloc; "section {weight}\n")?;
    text.extend_from_slice(line.as_bytes())
}

/// Appends the lines of each kind, by the customers of one of them.
fn write_kinds(
    alloc: Global,
    text: &mut Vec<u8>,
    inst: &Instance,
    lists: &[Listed<Label>],
) -> Result<(), AllocError>
    requires { length (customer_nodes inst.now) ≤ most_customers }
    ensures { OnOk result (text.new.items ≡ text.old.items
        ++ kinds_text 0 (map (written_labels inst.now) lists.now)) }
{
    for (kind, labels) in lists.iter().enumerate() {
        write_kind(alloc, text, inst, kind, labels.as_slice())?;
    }
    Ok(())
}

/// Appends the lines of the kind with a number.
fn write_kind(
    alloc: Global,
    text: &mut Vec<u8>,
    inst: &Instance,
    kind: usize,
    labels: &[Label],
) -> Result<(), AllocError>
    requires { length (customer_nodes inst.now) ≤ most_customers }
    ensures { OnOk result (text.new.items ≡ text.old.items
        ++ kind_text kind (written_labels inst.now labels.now)) }
{
    write_kind_line(alloc, text, kind, labels.len())?;
    write_labels(alloc, text, inst, labels)
}

/// Appends the line of a kind.
fn write_kind_line(
    alloc: Global,
    text: &mut Vec<u8>,
    kind: usize,
    count: usize,
) -> Result<(), AllocError>
    ensures { OnOk result (text.new.items ≡ text.old.items ++ kind_line kind count) }
{
    let line = format!(in alloc; "kind {kind} {count}\n")?;
    text.extend_from_slice(line.as_bytes())
}
