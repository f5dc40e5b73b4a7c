//! The lines of a section.

ghost use Rattle.std.specs.Prelude.{◌≡◌, ◌≤◌, ◌++◌, OnOk, length};
ghost use Rattle.ev_text.specs.Texts.{joined_texts};
ghost use Rattle.instance_reader.specs.Instance.{customer_nodes, most_customers};
ghost use Rattle.bound_certificate.specs.CertificateTexts.{pair_text, section_head, section_text};
ghost use Rattle.bound_certificate.specs.Ranges.{SectionFits};
ghost use Rattle.bound_certificate.specs.Written.{written_section};

use crate::certificate::Section;
use crate::text::writing::pairs::forbidden_pairs;
use certificate_parts::{write_labels, write_prices};
use instance_reader::Instance;
use std::alloc::{AllocError, Global};

/// Appends the lines of a section: its weight and counts, the prices, the pairs and the labels.
pub(crate) fn write_section(
    alloc: Global,
    text: &mut Vec<u8>,
    inst: &Instance,
    section: &Section,
) -> Result<(), AllocError>
    requires few { length (customer_nodes inst.now) ≤ most_customers }
    requires fits { SectionFits inst.now section.now }
    ensures { OnOk result (text.new.items ≡ text.old.items
        ++ section_text (written_section inst.now section.now)) }
{
    let pairs = forbidden_pairs(alloc, inst, &section.pairs)?;
    write_head(
        alloc,
        text,
        section.weight,
        pairs.len(),
        section.labels.len(),
    )?;
    write_prices(alloc, text, section.prices.as_slice())?;
    write_pairs(alloc, text, &pairs)?;
    write_labels(alloc, text, inst, section.labels.as_slice())?;
    Ok(())
}

fn write_head(
    alloc: Global,
    text: &mut Vec<u8>,
    weight: u64,
    pairs: usize,
    labels: usize,
) -> Result<(), AllocError>
    ensures { OnOk result (text.new.items ≡ text.old.items
        ++ section_head weight pairs labels) }
{
    let line = format!(in alloc; "section {weight} {pairs} {labels}\n")?;
    text.extend_from_slice(line.as_bytes())
}

fn write_pairs(
    alloc: Global,
    text: &mut Vec<u8>,
    pairs: &[(usize, usize)],
) -> Result<(), AllocError>
    ensures { OnOk result (text.new.items ≡ text.old.items
        ++ joined_texts pair_text pairs.now) }
{
    for pair in pairs {
        write_pair(alloc, text, *pair)?;
    }
    Ok(())
}

fn write_pair(alloc: Global, text: &mut Vec<u8>, pair: (usize, usize)) -> Result<(), AllocError>
    ensures { OnOk result (text.new.items ≡ text.old.items ++ pair_text pair) }
{
    let (first, second) = pair;
    let line = format!(in alloc; "pair {first} {second}\n")?;
    text.extend_from_slice(line.as_bytes())
}
