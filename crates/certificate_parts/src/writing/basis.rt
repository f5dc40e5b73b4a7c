//! Writing the basis of a wide root.

ghost use Rattle.std.specs.Prelude.{◌≡◌, ◌<◌, IfOk, Ok, codes, map, OnOk, ◌++◌, ◌+◌, ◌*◌};
ghost use Rattle.std.specs.List.{All};
ghost use Rattle.certificate_parts.specs.Ranges.{customer_count, EntryFits};
ghost use Rattle.certificate_parts.specs.Written.{written_entry, customer_node};
ghost use Rattle.certificate_parts.specs.declared.entry.BasisEntry.{BasisEntry};
ghost use Rattle.ev_text.specs.Texts.{marked_texts};
ghost use Rattle.certificate_parts.specs.Texts.{basis_text, entry_text};
ghost use Rattle.certificate_parts.specs.declared.entry.BasisEntry.TheVariants.{Helper};

use crate::entry::BasisEntry;
use crate::writing::nodes::customer_node;
use instance_reader::Instance;
use std::alloc::{AllocError, Global};

/// Appends the line of a basis.
pub fn write_basis(
    alloc: Global,
    text: &mut Vec<u8>,
    inst: &Instance,
    columns: usize,
    basis: &[BasisEntry],
) -> Result<(), AllocError>
    requires { All (EntryFits (customer_count inst.now) columns) basis.now }
    ensures { OnOk result (text.new.items ≡ text.old.items
        ++ basis_text (map (written_entry inst.now) basis.now)) }
{
    text.extend_from_slice(b"basis")?;
    write_entries(alloc, text, inst, columns, basis)?;
    text.extend_from_slice(b"\n")
}

fn write_entries(
    alloc: Global,
    text: &mut Vec<u8>,
    inst: &Instance,
    columns: usize,
    basis: &[BasisEntry],
) -> Result<(), AllocError>
    requires { All (EntryFits (customer_count inst.now) columns) basis.now }
    ensures { OnOk result (text.new.items ≡ text.old.items
        ++ marked_texts (codes " ") entry_text (map (written_entry inst.now) basis.now)) }
{
    for entry in basis {
        write_entry(alloc, text, inst, columns, *entry)?;
    }
    Ok(())
}

/// Appends a space and the entry of a basis.
fn write_entry(
    alloc: Global,
    text: &mut Vec<u8>,
    inst: &Instance,
    columns: usize,
    entry: BasisEntry,
) -> Result<(), AllocError>
    requires { EntryFits (customer_count inst.now) columns entry }
    ensures { OnOk result (text.new.items ≡ text.old.items
        ++ codes " " ++ entry_text (written_entry inst.now entry)) }
{
    let words = match entry {
        BasisEntry::Helper(number) => helper_word(alloc, inst, number)?,
        BasisEntry::Column(number) => format!(in alloc; " {number}")?,
    };
    text.extend_from_slice(words.as_bytes())
}

fn helper_word(alloc: Global, inst: &Instance, number: usize) -> Result<String, AllocError>
    requires { number < customer_count inst.now }
    ensures { IfOk result (λ s. s.bytes.items
        ≡ codes " " ++ entry_text (written_entry inst.now (Helper number))) }
{
    let node = customer_node(inst, number);
    format!(in alloc; " h{node}")
}
