//! The text of a proof, written.

ghost use Rattle.std.specs.Prelude.{◌≡◌, ◌++◌, OnErr, OnOk, Some};
ghost use Rattle.ev_text.specs.Texts.{joined_texts};
ghost use Rattle.route_proof.specs.ProofTexts.{body_text, label_head, label_text, labels_head, labels_text, listed_text, proof_text};

use crate::{RouteLabel, RouteProof};
use certificate_parts::{write_plan, write_points};
use route_plan::RoutePlan;
use std::alloc::{AllocError, Global};

/// Appends the text of a proof, in lines that end with a line feed: the version, the plan or that
/// there is none, the number of labels, and a line for each label: the index in the route of the
/// last node that was served, the node, and each level, in units of charge, with its scaled time.
///
/// The only refusal is want of memory. After an `Err` the bytes of `out` are as before.
pub fn push_proof(alloc: Global, out: &mut Vec<u8>, proof: &RouteProof) -> Result<(), AllocError>
    ensures ok { OnOk result (out.new.items ≡ out.old.items ++ proof_text proof.now) }
    ensures err { OnErr result (out.new.items ≡ out.old.items) }
{
    let mut text = Vec::new(alloc);
    text.extend_from_slice(b"evroute proof 1\n")?;
    write_body(alloc, &mut text, proof)?;
    out.extend_from_slice(text.as_slice())
}

/// Appends the lines behind the first. After an `Err` a part of them may stand there.
fn write_body(alloc: Global, text: &mut Vec<u8>, proof: &RouteProof) -> Result<(), AllocError>
    ensures { OnOk result (text.new.items ≡ text.old.items ++ body_text proof.now) }
{
    write_listed(alloc, text, &proof.plan)?;
    write_labels(alloc, text, proof.labels.as_slice())
}

/// Appends the line of the plan that a proof lists, or that it lists none.
fn write_listed(
    alloc: Global,
    text: &mut Vec<u8>,
    plan: &Option<RoutePlan>,
) -> Result<(), AllocError>
    ensures { OnOk result (text.new.items ≡ text.old.items ++ listed_text plan.now) }
{
    match plan {
        None => text.extend_from_slice(b"none\n"),
        Some(plan) => write_route(alloc, text, plan),
    }
}

/// Appends the line of a plan.
fn write_route(alloc: Global, text: &mut Vec<u8>, plan: &RoutePlan) -> Result<(), AllocError>
    ensures { OnOk result (text.new.items ≡ text.old.items ++ listed_text (Some plan.now)) }
{
    text.extend_from_slice(b"route ")?;
    write_plan(alloc, text, plan)
}

/// Appends the line with the number of labels, and the line of each.
fn write_labels(alloc: Global, text: &mut Vec<u8>, labels: &[RouteLabel]) -> Result<(), AllocError>
    ensures { OnOk result (text.new.items ≡ text.old.items ++ labels_text labels.now) }
{
    write_count(alloc, text, labels.len())?;
    write_each_label(alloc, text, labels)
}

fn write_count(alloc: Global, text: &mut Vec<u8>, count: usize) -> Result<(), AllocError>
    ensures { OnOk result (text.new.items ≡ text.old.items ++ labels_head count) }
{
    let line = format!(in alloc; "labels {count}\n")?;
    text.extend_from_slice(line.as_bytes())
}

fn write_each_label(
    alloc: Global,
    text: &mut Vec<u8>,
    labels: &[RouteLabel],
) -> Result<(), AllocError>
    ensures { OnOk result (text.new.items ≡ text.old.items ++ joined_texts label_text labels.now) }
{
    for label in labels {
        write_label(alloc, text, label)?;
    }
    Ok(())
}

/// Appends the line of a label.
fn write_label(alloc: Global, text: &mut Vec<u8>, label: &RouteLabel) -> Result<(), AllocError>
    ensures { OnOk result (text.new.items ≡ text.old.items ++ label_text label.now) }
{
    write_place(alloc, text, label.passed, label.node)?;
    write_points(alloc, text, label.value.points())?;
    text.extend_from_slice(b"\n")
}

fn write_place(
    alloc: Global,
    text: &mut Vec<u8>,
    passed: usize,
    node: usize,
) -> Result<(), AllocError>
    ensures { OnOk result (text.new.items ≡ text.old.items ++ label_head passed node) }
{
    let words = format!(in alloc; "label {passed} {node}")?;
    text.extend_from_slice(words.as_bytes())
}
