//! Reading the labels of each kind.

ghost use Rattle.std.specs.Prelude.{◌≡◌, ◌≢◌, ◌<◌, ◌≤◌, ℕ, [], Err, IfErr, IfOk, Ok, length, map, slice_index_or};
ghost use Rattle.std.specs.List.{All};
ghost use Rattle.ev_model.specs.Network.{IsNetwork};
ghost use Rattle.instance_reader.specs.Instance.{customer_nodes, most_customers};
ghost use Rattle.certificate_parts.specs.Ranges.{HasSet};
ghost use Rattle.certificate_parts.specs.Refusals.{or_refused};
ghost use Rattle.certificate_parts.specs.declared.cert_text.CertText.TheVariants.{Memory};
ghost use Rattle.mixed_model.specs.Kinds.{AreKinds, first_of, network_of};
ghost use Rattle.mixed_text.specs.MixedIn.{HaveSets, ListFits};
ghost use Rattle.mixed_text.specs.Reading.{kind_at, kinds_at};
ghost use Rattle.mixed_text.specs.Written.{written_labels};

use certificate_parts::{CertText, take_labels, take_own};
use ev_list::Listed;
use ev_text::Scan;
use instance_reader::Instance;
use piece_fn::Label;
use std::alloc::Global;

/// The most labels.
const MOST_LABELS: u128 = u64::MAX as u128;

/// The first kind, whose customers are those of all.
pub(crate) fn first_kind(kinds: &[Instance]) -> &Instance
    requires { AreKinds kinds.now }
    ensures { result.now ≡ first_of kinds.now }
{
    &kinds[0]
}

/// Takes the labels of each kind, in their order.
pub(crate) fn take_kinds(
    alloc: Global,
    kinds: &[Instance],
    scan: &mut Scan<'_>,
) -> Result<Vec<Listed<Label>>, CertText>
    requires kinds { AreKinds kinds.now }
    requires few { length (customer_nodes (first_of kinds.now)) ≤ most_customers }
    ensures ok { IfOk result (λ lists. kinds_at 0 kinds.now scan.old
        ≡ Ok (map (written_labels (first_of kinds.now)) lists.items, scan.new)) }
    ensures count { IfOk result (λ lists. length lists.items ≡ length kinds.now) }
    ensures fits { IfOk result (λ lists. (kind : ℕ) → kind < length kinds.now →
        ListFits (network_of kinds.now kind) (slice_index_or lists.items kind [])) }
    ensures kept { IfOk result (λ lists. HaveSets lists.items) }
    ensures networks { IfOk result (λ lists. All IsNetwork kinds.now) }
    ensures fault { IfErr result (λ fault. fault ≢ CertText.Memory →
        or_refused (kinds_at 0 kinds.now scan.old) ≡ Err fault) }
{
    let mut lists = Vec::new(alloc);
    for (kind, inst) in kinds.iter().enumerate() {
        let labels = take_kind(alloc, inst, scan, kind)?;
        lists.push(Listed::from_vec(labels))?;
    }
    Ok(lists)
}

/// Takes the lines of the kind with a number: that with how many labels it has, and those of its
/// labels.
fn take_kind(
    alloc: Global,
    inst: &Instance,
    scan: &mut Scan<'_>,
    kind: usize,
) -> Result<Vec<Label>, CertText>
    requires { length (customer_nodes inst.now) ≤ most_customers }
    ensures ok { IfOk result (λ labels. kind_at kind inst.now scan.old
        ≡ Ok (written_labels inst.now labels.items, scan.new)) }
    ensures fits { IfOk result (λ labels. ListFits inst.now labels.items) }
    ensures kept { IfOk result (λ labels. All HasSet labels.items) }
    ensures network { IfOk result (λ labels. IsNetwork inst.now) }
    ensures fault { IfErr result (λ fault. fault ≢ CertText.Memory →
        or_refused (kind_at kind inst.now scan.old) ≡ Err fault) }
{
    // That the kind's network is one is told by its calls.
    let _nodes = inst.nodes();
    scan.word(b"kind ")?;
    take_own(scan, kind as u64)?;
    scan.word(b" ")?;
    let count = scan.whole(MOST_LABELS)?;
    scan.word(b"\n")?;
    let labels = take_labels(alloc, inst, scan, count)?;
    Ok(labels)
}
