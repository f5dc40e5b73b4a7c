//! Whether a basis over listed routes is past the caps.

ghost use Rattle.std.specs.Prelude.{◌≡◌, ◌+◌, ◌<◌, ◌≤◌, ◌^◌, IfOk, List, length, map};
ghost use Rattle.std.specs.List.{All};
ghost use Rattle.bound_certificate.specs.Meaning.{entry_column};
ghost use Rattle.bound_certificate.specs.Ranges.{BasisFits, EntryFits};
ghost use Rattle.certificate_check.specs.Columns.{StandFor, TellsTooWide, entry_number};
ghost use Rattle.fleet_model.specs.Equations.{Column};

use certificate_parts::BasisEntry;
use master_table::{ListedRoute, is_too_wide};
use std::alloc::{AllocError, Global};

/// Whether the basis over listed routes is too wide, whatever columns stand for the routes. `Err`
/// is want of memory alone.
pub fn is_wide_basis(
    alloc: Global,
    customers: usize,
    routes: &[ListedRoute],
    basis: &[BasisEntry],
) -> Result<bool, AllocError>
    requires few { customers ≤ 128 }
    requires basis { BasisFits customers (length routes.now) basis.now }
    ensures { IfOk result (λ wide. (columns : List Column) → StandFor columns routes.now →
        TellsTooWide customers columns (map (entry_column columns) basis.now) wide) }
{
    let entries = numbers_of(alloc, customers, routes.len(), basis)?;
    is_too_wide(alloc, customers, routes, entries.as_slice())
}

/// The numbers of a basis's entries: those of customers' helpers come first, and then those of the
/// columns.
fn numbers_of(
    alloc: Global,
    customers: usize,
    columns: usize,
    basis: &[BasisEntry],
) -> Result<Vec<usize>, AllocError>
    requires few { customers ≤ 128 }
    requires columns { columns < 2 ^ 63 }
    requires entries { All (EntryFits customers columns) basis.now }
    ensures { IfOk result (λ numbers. numbers.items ≡ map (entry_number customers) basis.now) }
{
    let mut numbers = Vec::new(alloc);
    for entry in basis {
        numbers.push(number_of(customers, *entry))?;
    }
    Ok(numbers)
}

/// The number of an entry.
fn number_of(customers: usize, entry: BasisEntry) -> usize
    requires entry { EntryFits customers (2 ^ 63) entry }
    requires few { customers ≤ 128 }
    ensures { result ≡ entry_number customers entry }
{
    match entry {
        BasisEntry::Helper(customer) => customer,
        BasisEntry::Column(column) => customers + column,
    }
}
