//! The line of the basis of a wide root, of whatever entries.

ghost use Rattle.std.specs.Prelude.{◌≡◌, ◌++◌, IfOk, OnOk, codes, map};
ghost use Rattle.ev_text.specs.Texts.{marked_texts};
ghost use Rattle.certificate_parts.specs.Texts.{basis_text, entry_text};
ghost use Rattle.certificate_parts.specs.Written.{customer_node, written_entry};
ghost use Rattle.certificate_parts.specs.declared.entry.BasisEntry.TheVariants.{Helper};

use certificate_parts::BasisEntry;
use instance_reader::Instance;
use std::alloc::{AllocError, Global};

/// Appends the line of a basis. A helper of a customer that there isn't names node 0, which no text
/// that is read does.
pub(crate) fn write_basis(
    alloc: Global,
    text: &mut Vec<u8>,
    inst: &Instance,
    basis: &[BasisEntry],
) -> Result<(), AllocError>
    ensures { OnOk result (text.new.items ≡ text.old.items
        ++ basis_text (map (written_entry inst.now) basis.now)) }
{
    text.extend_from_slice(b"basis")?;
    write_entries(alloc, text, inst, basis)?;
    text.extend_from_slice(b"\n")
}

fn write_entries(
    alloc: Global,
    text: &mut Vec<u8>,
    inst: &Instance,
    basis: &[BasisEntry],
) -> Result<(), AllocError>
    ensures { OnOk result (text.new.items ≡ text.old.items
        ++ marked_texts (codes " ") entry_text (map (written_entry inst.now) basis.now)) }
{
    for entry in basis {
        write_entry(alloc, text, inst, *entry)?;
    }
    Ok(())
}

/// Appends a space and the entry of a basis.
fn write_entry(
    alloc: Global,
    text: &mut Vec<u8>,
    inst: &Instance,
    entry: BasisEntry,
) -> Result<(), AllocError>
    ensures { OnOk result (text.new.items ≡ text.old.items
        ++ codes " " ++ entry_text (written_entry inst.now entry)) }
{
    let words = match entry {
        BasisEntry::Helper(number) => helper_word(alloc, inst, number)?,
        BasisEntry::Column(number) => format!(in alloc; " {number}")?,
    };
    text.extend_from_slice(words.as_bytes())
}

fn helper_word(alloc: Global, inst: &Instance, number: usize) -> Result<String, AllocError>
    ensures { IfOk result (λ s. s.bytes.items
        ≡ codes " " ++ entry_text (written_entry inst.now (Helper number))) }
{
    let node = node_of(inst, number);
    format!(in alloc; " h{node}")
}

/// The node of the customer with a number, and 0 where there is none.
fn node_of(inst: &Instance, number: usize) -> usize
    ensures { result ≡ customer_node inst.now number }
{
    match inst.customers().get(number) {
        Some(node) => *node,
        None => 0,
    }
}
