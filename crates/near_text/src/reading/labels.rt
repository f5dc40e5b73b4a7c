//! Reading labels of a near proof.

ghost use Rattle.std.specs.Prelude.{◌≡◌, ◌≢◌, ◌≤◌, Err, IfErr, IfOk, Ok, length, map};
ghost use Rattle.std.specs.List.{All};
ghost use Rattle.ev_text.specs.Readers.{so_many};
ghost use Rattle.instance_reader.specs.Instance.{customer_nodes, most_customers};
ghost use Rattle.certificate_parts.specs.Refusals.{or_refused};
ghost use Rattle.certificate_parts.specs.declared.cert_text.CertText.TheVariants.{Memory};
ghost use Rattle.near_proof.specs.Ranges.{NearLabelFits};
ghost use Rattle.near_text.specs.NearIn.{HasMemory};
ghost use Rattle.near_text.specs.Reading.{near_label_at};
ghost use Rattle.near_text.specs.Written.{written_near_label};

use certificate_parts::{CertText, take_node, take_points, take_set};
use ev_text::Scan;
use instance_reader::Instance;
use near_proof::NearLabel;
use piece_fn::PieceFn;
use std::alloc::Global;

/// The greatest number that is earned: 2^96.
const GREATEST_EARNED: u128 = 1 << 96;

/// Takes the lines of so many labels.
pub(crate) fn take_labels(
    alloc: Global,
    inst: &Instance,
    scan: &mut Scan<'_>,
    count: u128,
) -> Result<Vec<NearLabel>, CertText>
    requires { length (customer_nodes inst.now) ≤ most_customers }
    ensures ok { IfOk result (λ labels. so_many count (near_label_at inst.now) scan.old
        ≡ Ok (map (written_near_label inst.now) labels.items, scan.new)) }
    ensures count { IfOk result (λ labels. length labels.items ≡ count) }
    ensures fits { IfOk result (λ labels. All (NearLabelFits inst.now) labels.items) }
    ensures kept { IfOk result (λ labels. All HasMemory labels.items) }
    ensures fault { IfErr result (λ fault. fault ≢ CertText.Memory →
        or_refused (so_many count (near_label_at inst.now) scan.old) ≡ Err fault) }
{
    let mut labels = Vec::new(alloc);
    for _ in 0..count {
        let label = take_label(alloc, inst, scan)?;
        labels.push(label)?;
    }
    Ok(labels)
}

/// Takes the line of a label.
fn take_label(alloc: Global, inst: &Instance, scan: &mut Scan<'_>) -> Result<NearLabel, CertText>
    requires { length (customer_nodes inst.now) ≤ most_customers }
    ensures ok { IfOk result (λ label. near_label_at inst.now scan.old
        ≡ Ok (written_near_label inst.now label, scan.new)) }
    ensures fits { IfOk result (NearLabelFits inst.now) }
    ensures kept { IfOk result HasMemory }
    ensures fault { IfErr result (λ fault. fault ≢ CertText.Memory →
        or_refused (near_label_at inst.now scan.old) ≡ Err fault) }
{
    scan.word(b"label ")?;
    let node = take_node(inst, scan)?;
    scan.word(b" ")?;
    let memory = take_set(inst, scan, b' ')?;
    // What its type promises of a set is told by its calls alone.
    let _members = memory.len();
    let count = scan.whole(inst.customers().len() as u128)? as usize;
    scan.word(b" ")?;
    let earned = scan.whole(GREATEST_EARNED)?;
    scan.word(b" ")?;
    let points = take_points(alloc, inst, scan)?;
    let value = PieceFn::from_points(alloc, points.as_slice())?;
    Ok(NearLabel {
        node,
        memory,
        count,
        earned,
        value,
    })
}
