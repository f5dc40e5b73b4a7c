//! Bases of the master problem as certificates list them: their entries, of helpers and of listed
//! columns, from the numbers of a table's columns.

ghost use Rattle.std.specs.Prelude.{◌≡◌, IfOk, map};
ghost use Rattle.bound_certificate.specs.Entries.{entry_of};

use certificate_parts::BasisEntry;
use std::alloc::{AllocError, Global};

/// The entries of the columns with these numbers, of which the first `helpers` are helpers. The
/// only `Err` is want of memory.
pub fn entries_of(
    alloc: Global,
    helpers: usize,
    basis: &[usize],
) -> Result<Vec<BasisEntry>, AllocError>
    ensures { IfOk result (λ entries. entries.items ≡ map (entry_of helpers) basis.now) }
{
    let mut entries = Vec::with_capacity(alloc, basis.len())?;
    for number in basis {
        entries.push(entry_of(helpers, *number))?;
    }
    Ok(entries)
}

/// The entry of the column with a number.
fn entry_of(helpers: usize, number: usize) -> BasisEntry
    ensures { result ≡ entry_of helpers number }
{
    if number < helpers {
        BasisEntry::Helper(number)
    } else {
        BasisEntry::Column(number - helpers)
    }
}
