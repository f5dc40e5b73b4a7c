//! Reading sections.

ghost use Rattle.std.specs.Prelude.{◌≡◌, ◌≢◌, ◌≤◌, ◌<◌, Err, IfErr, IfOk, Ok, length, map, nat_le};
ghost use Rattle.std.specs.List.{All};
ghost use Rattle.ev_model.specs.Network.{Network};
ghost use Rattle.ev_text.specs.Readers.{number_where, so_many};
ghost use Rattle.instance_reader.specs.Instance.{customer_nodes, most_customers};
ghost use Rattle.certificate_parts.specs.Refusals.{or_refused};
ghost use Rattle.bound_certificate.specs.Kept.{IsKept};
ghost use Rattle.certificate_parts.specs.Limits.{greatest_weight, most_items};
ghost use Rattle.bound_certificate.specs.Ranges.{SectionFits};
ghost use Rattle.bound_certificate.specs.Reading.{section_at, section_behind, sections_at};
ghost use Rattle.bound_certificate.specs.Written.{written_section};
ghost use Rattle.certificate_parts.specs.declared.cert_text.CertText.TheVariants.{Memory};

use crate::certificate::Section;
use crate::text::reading::pairs::take_pairs;
use certificate_parts::{CertText, GREATEST_WEIGHT, take_labels, take_prices};
use ev_list::Listed;
use ev_text::{Scan, TextFault};
use instance_reader::Instance;
use std::alloc::Global;

/// The most forbidden pairs: those of 129 places, each with itself too.
const MOST_PAIRS: u128 = 16_641;

/// The most sections, and the most labels of a section.
const MOST_ITEMS: u128 = u64::MAX as u128;

/// Takes the line with the number of sections, and the lines of each.
pub(crate) fn take_sections(
    alloc: Global,
    inst: &Instance,
    scan: &mut Scan<'_>,
) -> Result<Vec<Section>, CertText>
    requires few { length (customer_nodes inst.now) ≤ most_customers }
    ensures ok { IfOk result (λ sections. sections_at inst.now scan.old
        ≡ Ok (map (written_section inst.now) sections.items, scan.new)) }
    ensures some { IfOk result (λ sections. 1 ≤ length sections.items) }
    ensures few { IfOk result (λ sections. length sections.items ≤ most_items) }
    ensures fits { IfOk result (λ sections. All (SectionFits inst.now) sections.items) }
    ensures kept { IfOk result (λ sections. All IsKept sections.items) }
    ensures fault { IfErr result (λ fault. fault ≢ CertText.Memory →
        or_refused (sections_at inst.now scan.old) ≡ Err fault) }
{
    scan.word(b"sections ")?;
    let count = take_count(scan)?;
    scan.word(b"\n")?;
    take_each_section(alloc, inst, scan, count)
}

/// Takes the number of sections, which is above 0.
fn take_count(scan: &mut Scan<'_>) -> Result<u128, TextFault>
    ensures ok { IfOk result (λ count.
        number_where most_items (λ n. nat_le 1 n) scan.old ≡ Ok (count, scan.new)) }
    ensures range { IfOk result (λ count. (1 ≤ count) × (count ≤ most_items)) }
    ensures fault { IfErr result (λ fault.
        number_where most_items (λ n. nat_le 1 n) scan.old ≡ Err fault) }
{
    let at = scan.place();
    let count = scan.whole(MOST_ITEMS)?;
    if count >= 1 {
        Ok(count)
    } else {
        Err(TextFault::TooLarge { at })
    }
}

fn take_each_section(
    alloc: Global,
    inst: &Instance,
    scan: &mut Scan<'_>,
    count: u128,
) -> Result<Vec<Section>, CertText>
    requires few { length (customer_nodes inst.now) ≤ most_customers }
    ensures ok { IfOk result (λ sections. so_many count (section_at inst.now) scan.old
        ≡ Ok (map (written_section inst.now) sections.items, scan.new)) }
    ensures count { IfOk result (λ sections. length sections.items ≡ count) }
    ensures fits { IfOk result (λ sections. All (SectionFits inst.now) sections.items) }
    ensures kept { IfOk result (λ sections. All IsKept sections.items) }
    ensures fault { IfErr result (λ fault. fault ≢ CertText.Memory →
        or_refused (so_many count (section_at inst.now) scan.old) ≡ Err fault) }
{
    let mut sections = Vec::new(alloc);
    for _ in 0..count {
        let section = take_section(alloc, inst, scan)?;
        sections.push(section)?;
    }
    Ok(sections)
}

/// Takes the lines of a section.
fn take_section(alloc: Global, inst: &Instance, scan: &mut Scan<'_>) -> Result<Section, CertText>
    requires few { length (customer_nodes inst.now) ≤ most_customers }
    ensures ok { IfOk result (λ section. section_at inst.now scan.old
        ≡ Ok (written_section inst.now section, scan.new)) }
    ensures fits { IfOk result (SectionFits inst.now) }
    ensures kept { IfOk result IsKept }
    ensures fault { IfErr result (λ fault. fault ≢ CertText.Memory →
        or_refused (section_at inst.now scan.old) ≡ Err fault) }
{
    let head = take_section_head(scan)?;
    let prices = take_prices(alloc, inst, scan)?;
    let pairs = take_pairs(inst, scan, head.pairs)?;
    // What their type promises of pairs is told by its calls alone.
    let _customers = pairs.customers();
    let labels = take_labels(alloc, inst, scan, head.labels)?;
    Ok(Section {
        weight: head.weight,
        prices: Listed::from_vec(prices),
        pairs,
        labels: Listed::from_vec(labels),
    })
}

/// What the first line of a section says.
#[derive(Clone, Copy)]
struct SectionHead {
    weight: u64,
    pairs: u128,
    labels: u128,
}

/// Takes the first line of a section: its weight and its counts of pairs and labels.
fn take_section_head(scan: &mut Scan<'_>) -> Result<SectionHead, TextFault>
    ensures ok { IfOk result (λ head. (g : Network) → section_at g scan.old
        ≡ section_behind g head.weight head.pairs head.labels scan.new) }
    ensures weight { IfOk result (λ head. head.weight ≤ greatest_weight) }
    ensures labels { IfOk result (λ head. head.labels ≤ most_items) }
    ensures fault { IfErr result (λ fault. (g : Network) → section_at g scan.old ≡ Err fault) }
{
    scan.word(b"section ")?;
    let weight = scan.whole(u128::from(GREATEST_WEIGHT))? as u64;
    scan.word(b" ")?;
    let pairs = scan.whole(MOST_PAIRS)?;
    scan.word(b" ")?;
    let labels = scan.whole(MOST_ITEMS)?;
    scan.word(b"\n")?;
    Ok(SectionHead {
        weight,
        pairs,
        labels,
    })
}
