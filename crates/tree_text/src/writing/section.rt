//! Writing the section of a leaf.

ghost use Rattle.std.specs.Prelude.{◌≡◌, ◌≤◌, ◌++◌, OnOk, length};
ghost use Rattle.ev_text.specs.Texts.{joined_texts};
ghost use Rattle.instance_reader.specs.Instance.{customer_nodes};
ghost use Rattle.near_text.specs.NearTexts.{section_line};
ghost use Rattle.tree_text.specs.TreeTexts.{entry_line, section_text};
ghost use Rattle.tree_text.specs.Written.{written_section};

use crate::writing::labels::write_labels;
use crate::writing::sets::write_nears;
use certificate_parts::write_prices;
use ev_text::push_signed;
use instance_reader::Instance;
use near_tree::LeafSection;
use std::alloc::{AllocError, Global};

/// Appends the lines of a section.
pub(crate) fn write_section(
    alloc: Global,
    text: &mut Vec<u8>,
    inst: &Instance,
    section: &LeafSection,
) -> Result<(), AllocError>
    requires { length (customer_nodes inst.now) ≤ 448 }
    ensures { OnOk result (text.new.items ≡ text.old.items
        ++ section_text (written_section inst.now section.now)) }
{
    write_head(alloc, text, section.weight, section.labels.len())?;
    write_prices(alloc, text, section.prices.as_slice())?;
    write_nears(alloc, text, inst, section.sets.as_slice())?;
    write_entry_prices(alloc, text, section.entry_prices.as_slice())?;
    write_labels(alloc, text, inst, section.labels.as_slice())
}

/// Appends the line with the weight and the number of labels.
fn write_head(
    alloc: Global,
    text: &mut Vec<u8>,
    weight: u64,
    labels: usize,
) -> Result<(), AllocError>
    ensures { OnOk result (text.new.items ≡ text.old.items ++ section_line weight labels) }
{
    let line = format!(in alloc; "section {weight} {labels}\n")?;
    text.extend_from_slice(line.as_bytes())
}

/// Appends the line of the price of the entries into each set.
fn write_entry_prices(alloc: Global, text: &mut Vec<u8>, prices: &[i128]) -> Result<(), AllocError>
    ensures { OnOk result
        (text.new.items ≡ text.old.items ++ joined_texts entry_line prices.now) }
{
    for price in prices {
        write_entry_price(alloc, text, price)?;
    }
    Ok(())
}

/// Appends the line of the price of the entries into a set.
fn write_entry_price(alloc: Global, text: &mut Vec<u8>, price: &i128) -> Result<(), AllocError>
    ensures { OnOk result (text.new.items ≡ text.old.items ++ entry_line price.now) }
{
    text.extend_from_slice(b"entry ")?;
    push_signed(alloc, text, *price)?;
    text.extend_from_slice(b"\n")
}
