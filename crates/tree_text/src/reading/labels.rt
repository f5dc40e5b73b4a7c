//! Reading labels of a section.

ghost use Rattle.std.specs.Prelude.{◌≡◌, ◌≢◌, ◌<◌, Err, IfErr, IfOk, Ok, false, length, map, true};
ghost use Rattle.std.specs.List.{All};
ghost use Rattle.ev_model.specs.Network.{Network, node_count};
ghost use Rattle.ev_text.specs.Readers.{so_many};
ghost use Rattle.certificate_parts.specs.Places.{IsPlaceOf};
ghost use Rattle.certificate_parts.specs.Ranges.{customer_count};
ghost use Rattle.certificate_parts.specs.Refusals.{or_refused};
ghost use Rattle.certificate_parts.specs.declared.cert_text.CertText.TheVariants.{Memory};
ghost use Rattle.near_tree.specs.Preorder.{last_of};
ghost use Rattle.near_tree.specs.Ranges.{IsLastAmong, LastFits, SectionLabelFits};
ghost use Rattle.tree_text.specs.Reading.{last_at, section_label_at};
ghost use Rattle.tree_text.specs.TreeIn.{HasMemory};
ghost use Rattle.tree_text.specs.Written.{is_station, named, named_last, written_last, written_section_label};

use crate::customers::is_station;
use crate::reading::places::take_place;
use crate::reading::sets::take_set;
use certificate_parts::{CertText, Place, take_node, take_points};
use ev_text::{Scan, TextFault};
use instance_reader::Instance;
use near_tree::{LastServed, SectionLabel};
use piece_fn::PieceFn;
use std::alloc::Global;

/// The greatest number that is earned, and the greatest below 0: 2^96.
const GREATEST_EARNED: u128 = 1 << 96;

/// Takes the lines of so many labels.
pub(crate) fn take_labels(
    alloc: Global,
    inst: &Instance,
    scan: &mut Scan<'_>,
    count: u128,
) -> Result<Vec<SectionLabel>, CertText>
    ensures ok { IfOk result (λ labels. so_many count (section_label_at inst.now) scan.old
        ≡ Ok (map (written_section_label inst.now) labels.items, scan.new)) }
    ensures count { IfOk result (λ labels. length labels.items ≡ count) }
    ensures fits { IfOk result (λ labels. All (SectionLabelFits inst.now) labels.items) }
    ensures kept { IfOk result (λ labels. All HasMemory labels.items) }
    ensures fault { IfErr result (λ fault. fault ≢ CertText.Memory →
        or_refused (so_many count (section_label_at inst.now) scan.old) ≡ Err fault) }
{
    let mut labels = Vec::new(alloc);
    for _ in 0..count {
        let label = take_label(alloc, inst, scan)?;
        labels.push(label)?;
    }
    Ok(labels)
}

/// Takes the line of a label.
fn take_label(alloc: Global, inst: &Instance, scan: &mut Scan<'_>) -> Result<SectionLabel, CertText>
    ensures ok { IfOk result (λ label. section_label_at inst.now scan.old
        ≡ Ok (written_section_label inst.now label, scan.new)) }
    ensures fits { IfOk result (SectionLabelFits inst.now) }
    ensures kept { IfOk result HasMemory }
    ensures fault { IfErr result (λ fault. fault ≢ CertText.Memory →
        or_refused (section_label_at inst.now scan.old) ≡ Err fault) }
{
    scan.word(b"label ")?;
    let node = take_node(inst, scan)?;
    scan.word(b" ")?;
    let last = take_last(inst, scan, node)?;
    let memory = take_set(inst, scan)?;
    let earned = scan.signed(GREATEST_EARNED)?;
    scan.word(b" ")?;
    let points = take_points(alloc, inst, scan)?;
    let value = PieceFn::from_points(alloc, points.as_slice())?;
    Ok(SectionLabel {
        node,
        last,
        memory,
        earned,
        value,
    })
}

/// Takes a last and the space behind it, where a station is at the node; elsewhere the node says
/// it.
fn take_last(inst: &Instance, scan: &mut Scan<'_>, node: usize) -> Result<LastServed, TextFault>
    requires { node < node_count inst.now }
    ensures ok { IfOk result (λ last. last_at inst.now (is_station inst.now node) scan.old
        ≡ Ok (written_last inst.now node last, scan.new)) }
    ensures fits { IfOk result (LastFits inst.now node) }
    ensures fault { IfErr result (λ fault.
        last_at inst.now (is_station inst.now node) scan.old ≡ Err fault) }
{
    if is_station(inst, node) {
        take_named(inst, scan, node)
    } else {
        Ok(own_last(inst, node))
    }
}

/// The customer at a node, or nobody at the depot.
fn own_last(inst: &Instance, node: usize) -> LastServed
    requires { node < node_count inst.now }
    ensures { LastFits inst.now node result }
{
    match inst.customer_number(node) {
        Some(number) => LastServed::Customer(number),
        None => LastServed::Nobody,
    }
}

/// Takes a last and the space behind it.
fn take_named(inst: &Instance, scan: &mut Scan<'_>, node: usize) -> Result<LastServed, TextFault>
    requires { is_station inst.now node ≡ true }
    ensures ok { IfOk result (λ last.
        last_at inst.now true scan.old ≡ Ok (named_last inst.now last, scan.new)) }
    ensures fits { IfOk result (LastFits inst.now node) }
    ensures fault { IfErr result (λ fault. last_at inst.now true scan.old ≡ Err fault) }
{
    if scan.take_if(b"*") {
        scan.word(b" ")?;
        return Ok(LastServed::Anybody);
    }
    let place = take_place(inst, scan)?;
    scan.word(b" ")?;
    Ok(served_at(place))
}

/// The customer at a place, or nobody at that of the depot.
fn served_at(place: Place) -> LastServed
    ensures written { (g : Network) → IsPlaceOf g place →
        named_last g result ≡ named place.node }
    ensures among { (g : Network) → IsPlaceOf g place →
        IsLastAmong (customer_count g) (last_of result) }
{
    if place.place == 0 {
        LastServed::Nobody
    } else {
        LastServed::Customer(place.place - 1)
    }
}
