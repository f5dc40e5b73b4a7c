//! Reading the text of a proof.

ghost use Rattle.std.specs.Prelude.{◌≡◌, ◌≢◌, ◌≤◌, ◌-◌, Err, IfErr, IfOk, Ok, length};
ghost use Rattle.std.specs.List.{All};
ghost use Rattle.ev_model.specs.Route.{IsRoute};
ghost use Rattle.ev_text.specs.Readers.{so_many};
ghost use Rattle.certificate_parts.specs.Limits.{most_items};
ghost use Rattle.certificate_parts.specs.Refusals.{or_refused};
ghost use Rattle.certificate_parts.specs.declared.cert_text.CertText.TheVariants.{Memory};
ghost use Rattle.route_proof.specs.Ranges.{ListedPlanFits, ProofFits, RouteLabelFits};
ghost use Rattle.route_proof.specs.ProofIn.{SpellsProof, has_other_version, proof_in};
ghost use Rattle.route_proof.specs.Reading.{label_at, labels_at, listed_at, proof_at};

use crate::{RouteLabel, RouteProof};
use certificate_parts::{CertText, MOST_BYTES, begins_another, take_node, take_plan, take_points};
use ev_list::Listed;
use ev_text::Scan;
use instance_reader::Instance;
use piece_fn::PieceFn;
use route_plan::RoutePlan;
use std::alloc::Global;

/// The most labels.
const MOST_LABELS: u128 = u64::MAX as u128;

/// The proof of a text, for a route of an instance. What is read is in the ranges of the instance
/// and the route, and its text is `bytes`; each such proof has one text, which `push_proof` writes.
/// Whether the proof is accepted is not judged here.
///
/// A text of more than 2^28 bytes is `TooLong`. `Version`: the first line is `evroute proof `, a
/// number in its one spelling with at most 38 digits that isn't 1, and a line feed. Else the first
/// fault from the left: `Text` where the text is none, and `Range` where a number is out of range
/// or breaks a rule with numbers before it. `Memory`: memory was refused. A count is never
/// allocated for ahead.
pub fn read_proof(
    alloc: Global,
    inst: &Instance,
    route: &[usize],
    bytes: &[u8],
) -> Result<RouteProof, CertText>
    requires { IsRoute inst.now route.now }
    ensures ok { IfOk result (λ p. proof_in inst.now route.now bytes.now ≡ Ok p) }
    ensures fits { IfOk result (ProofFits inst.now route.now) }
    ensures spelled { IfOk result (SpellsProof inst.now route.now bytes.now) }
    ensures fault { IfErr result (λ fault. fault ≢ CertText.Memory →
        proof_in inst.now route.now bytes.now ≡ Err fault) }
{
    // That the instance's network is one is told by its calls.
    let _nodes = inst.nodes();
    let len = bytes.len();
    if len > MOST_BYTES {
        return Err(CertText::TooLong { len });
    }
    if has_other_version(bytes) {
        return Err(CertText::Version);
    }
    let mut scan = Scan::new(bytes);
    let proof = take_proof(alloc, inst, route, &mut scan)?;
    scan.end()?;
    Ok(proof)
}

/// Whether the bytes begin with the first line of another version.
fn has_other_version(bytes: &[u8]) -> bool
    ensures { result ≡ has_other_version bytes.now }
{
    begins_another(b"evroute proof ", 1, bytes)
}

/// Takes the text of a proof.
fn take_proof(
    alloc: Global,
    inst: &Instance,
    route: &[usize],
    scan: &mut Scan<'_>,
) -> Result<RouteProof, CertText>
    requires { 2 ≤ length route.now }
    ensures ok { IfOk result (λ p. proof_at inst.now route.now scan.old ≡ Ok (p, scan.new)) }
    ensures fits { IfOk result (ProofFits inst.now route.now) }
    ensures fault { IfErr result (λ fault. fault ≢ CertText.Memory →
        or_refused (proof_at inst.now route.now scan.old) ≡ Err fault) }
{
    scan.word(b"evroute proof 1\n")?;
    let plan = take_listed(alloc, scan)?;
    let labels = take_labels(alloc, inst, route, scan)?;
    Ok(RouteProof {
        plan,
        labels: Listed::from_vec(labels),
    })
}

/// Takes the line of the plan that a proof lists, or that it lists none.
fn take_listed(alloc: Global, scan: &mut Scan<'_>) -> Result<Option<RoutePlan>, CertText>
    ensures ok { IfOk result (λ plan. listed_at scan.old ≡ Ok (plan, scan.new)) }
    ensures fits { IfOk result ListedPlanFits }
    ensures fault { IfErr result (λ fault. fault ≢ CertText.Memory →
        or_refused (listed_at scan.old) ≡ Err fault) }
{
    if scan.choose(b"none\n")? {
        return Ok(None);
    }
    scan.word(b"route ")?;
    let plan = take_plan(alloc, scan)?;
    Ok(Some(plan))
}

/// Takes the line with the number of labels, and the line of each.
fn take_labels(
    alloc: Global,
    inst: &Instance,
    route: &[usize],
    scan: &mut Scan<'_>,
) -> Result<Vec<RouteLabel>, CertText>
    requires { 2 ≤ length route.now }
    ensures ok { IfOk result (λ labels. labels_at inst.now route.now scan.old
        ≡ Ok (labels.items, scan.new)) }
    ensures fits { IfOk result (λ labels. All (RouteLabelFits inst.now route.now) labels.items) }
    ensures fault { IfErr result (λ fault. fault ≢ CertText.Memory →
        or_refused (labels_at inst.now route.now scan.old) ≡ Err fault) }
{
    scan.word(b"labels ")?;
    let count = scan.whole(MOST_LABELS)?;
    scan.word(b"\n")?;
    take_each_label(alloc, inst, route, scan, count)
}

fn take_each_label(
    alloc: Global,
    inst: &Instance,
    route: &[usize],
    scan: &mut Scan<'_>,
    count: u128,
) -> Result<Vec<RouteLabel>, CertText>
    requires { 2 ≤ length route.now }
    ensures ok { IfOk result (λ labels. so_many count (label_at inst.now route.now) scan.old
        ≡ Ok (labels.items, scan.new)) }
    ensures fits { IfOk result (λ labels. All (RouteLabelFits inst.now route.now) labels.items) }
    ensures fault { IfErr result (λ fault. fault ≢ CertText.Memory →
        or_refused (so_many count (label_at inst.now route.now) scan.old) ≡ Err fault) }
{
    let mut labels = Vec::new(alloc);
    for _ in 0..count {
        let label = take_label(alloc, inst, route, scan)?;
        labels.push(label)?;
    }
    Ok(labels)
}

/// Takes the line of a label.
fn take_label(
    alloc: Global,
    inst: &Instance,
    route: &[usize],
    scan: &mut Scan<'_>,
) -> Result<RouteLabel, CertText>
    requires { 2 ≤ length route.now }
    ensures ok { IfOk result (λ label. label_at inst.now route.now scan.old
        ≡ Ok (label, scan.new)) }
    ensures fits { IfOk result (RouteLabelFits inst.now route.now) }
    ensures fault { IfErr result (λ fault. fault ≢ CertText.Memory →
        or_refused (label_at inst.now route.now scan.old) ≡ Err fault) }
{
    scan.word(b"label ")?;
    let passed = scan.whole(route.len() as u128 - 2)? as usize;
    scan.word(b" ")?;
    let node = take_node(inst, scan)?;
    scan.word(b" ")?;
    let points = take_points(alloc, inst, scan)?;
    let value = PieceFn::from_points(alloc, points.as_slice())?;
    Ok(RouteLabel {
        passed,
        node,
        value,
    })
}
