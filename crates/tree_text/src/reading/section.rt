//! Reading the section of a leaf.

ghost use Rattle.std.specs.Prelude.{◌≡◌, ◌≢◌, ◌≤◌, Err, IfErr, IfOk, Ok, length};
ghost use Rattle.std.specs.List.{All};
ghost use Rattle.ev_text.specs.Readers.{so_many};
ghost use Rattle.certificate_parts.specs.Limits.{greatest_weight, most_items};
ghost use Rattle.certificate_parts.specs.Ranges.{IsPrice};
ghost use Rattle.certificate_parts.specs.Refusals.{or_refused};
ghost use Rattle.certificate_parts.specs.declared.cert_text.CertText.TheVariants.{Memory};
ghost use Rattle.near_tree.specs.Ranges.{LeafSectionFits};
ghost use Rattle.tree_text.specs.Reading.{entry_at, section_at, section_lines_at};
ghost use Rattle.tree_text.specs.TreeIn.{IsKeptSection};
ghost use Rattle.tree_text.specs.Written.{written_section};

use crate::reading::labels::take_labels;
use crate::reading::nears::take_nears;
use certificate_parts::{CertText, take_prices};
use ev_list::Listed;
use ev_text::{Scan, TextFault};
use instance_reader::Instance;
use near_tree::LeafSection;
use std::alloc::Global;

/// The greatest weight of a section: 2^40.
const GREATEST_WEIGHT: u128 = 1 << 40;

/// The most labels.
const MOST_LABELS: u128 = u64::MAX as u128;

/// The greatest price, and the greatest below 0: 2^84.
const GREATEST_PRICE: u128 = 1 << 84;

/// Takes a section with so many entry prices.
pub(crate) fn take_section(
    alloc: Global,
    inst: &Instance,
    scan: &mut Scan<'_>,
    entries: usize,
) -> Result<LeafSection, CertText>
    ensures ok { IfOk result (λ section. section_at inst.now entries scan.old
        ≡ Ok (written_section inst.now section, scan.new)) }
    ensures fits { IfOk result (LeafSectionFits inst.now) }
    ensures entries { IfOk result (λ section. length section.entry_prices ≡ entries) }
    ensures kept { IfOk result IsKeptSection }
    ensures fault { IfErr result (λ fault. fault ≢ CertText.Memory →
        or_refused (section_at inst.now entries scan.old) ≡ Err fault) }
{
    scan.word(b"section ")?;
    let weight = scan.whole(GREATEST_WEIGHT)? as u64;
    scan.word(b" ")?;
    let count = scan.whole(MOST_LABELS)?;
    scan.word(b"\n")?;
    take_lines(alloc, inst, scan, entries, weight, count)
}

/// Takes the lines behind that with the weight and the number of labels.
fn take_lines(
    alloc: Global,
    inst: &Instance,
    scan: &mut Scan<'_>,
    entries: usize,
    weight: u64,
    count: u128,
) -> Result<LeafSection, CertText>
    requires weight { weight ≤ greatest_weight }
    requires count { count ≤ most_items }
    ensures ok { IfOk result (λ section. section_lines_at inst.now entries weight count scan.old
        ≡ Ok (written_section inst.now section, scan.new)) }
    ensures fits { IfOk result (LeafSectionFits inst.now) }
    ensures entries { IfOk result (λ section. length section.entry_prices ≡ entries) }
    ensures kept { IfOk result IsKeptSection }
    ensures fault { IfErr result (λ fault. fault ≢ CertText.Memory →
        or_refused (section_lines_at inst.now entries weight count scan.old) ≡ Err fault) }
{
    let prices = take_prices(alloc, inst, scan)?;
    let sets = take_nears(alloc, inst, scan)?;
    let entry_prices = take_entry_prices(alloc, scan, entries)?;
    let labels = take_labels(alloc, inst, scan, count)?;
    Ok(LeafSection {
        weight,
        prices: Listed::from_vec(prices),
        sets: Listed::from_vec(sets),
        entry_prices: Listed::from_vec(entry_prices),
        labels: Listed::from_vec(labels),
    })
}

/// Takes the lines of so many entry prices.
fn take_entry_prices(
    alloc: Global,
    scan: &mut Scan<'_>,
    count: usize,
) -> Result<Vec<i128>, CertText>
    ensures ok { IfOk result (λ prices. so_many count entry_at scan.old
        ≡ Ok (prices.items, scan.new)) }
    ensures fault { IfErr result (λ fault. fault ≢ CertText.Memory →
        or_refused (so_many count entry_at scan.old) ≡ Err fault) }
{
    let mut prices = Vec::new(alloc);
    for _ in 0..count {
        let price = take_entry_price(scan)?;
        prices.push(price)?;
    }
    Ok(prices)
}

/// Takes the line of an entry price.
fn take_entry_price(scan: &mut Scan<'_>) -> Result<i128, TextFault>
    ensures ok { IfOk result (λ price. entry_at scan.old ≡ Ok (price, scan.new)) }
    ensures fault { IfErr result (λ fault. entry_at scan.old ≡ Err fault) }
{
    scan.word(b"entry ")?;
    let price = scan.signed(GREATEST_PRICE)?;
    scan.word(b"\n")?;
    Ok(price)
}
