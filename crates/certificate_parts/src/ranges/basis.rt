//! Whether the basis of a wide root is in its ranges.

ghost use Rattle.std.specs.Prelude.{◌≡◌, ◌<◌, ◌&&◌, false, true, ◌+◌, ◌↔◌, IsTrue, ◌*◌};
ghost use Rattle.std.specs.List.{All, list_any};
ghost use Rattle.customer_sets.specs.CustSet.{has};
ghost use Rattle.certificate_parts.specs.Ranges.{EntryFits, same_entry, AreDifferent, BasisFits};
ghost use Rattle.certificate_parts.specs.declared.entry.BasisEntry.{BasisEntry};
ghost use Rattle.certificate_parts.specs.declared.entry.BasisEntry.TheVariants.{Helper};

use crate::entry::BasisEntry;

/// Whether a basis has as many entries as there are customers, each in its range, and no two the
/// same.
pub fn basis_fits(customers: usize, columns: usize, basis: &[BasisEntry]) -> bool
    ensures { IsTrue result ↔ BasisFits customers columns basis.now }
{
    basis.len() == customers && entries_fit(customers, columns, basis) && are_different(basis)
}

fn entries_fit(customers: usize, columns: usize, basis: &[BasisEntry]) -> bool
    ensures { IsTrue result ↔ All (EntryFits customers columns) basis.now }
{
    for entry in basis {
        if !entry_fits(customers, columns, *entry) {
            return false;
        }
    }
    true
}

fn entry_fits(customers: usize, columns: usize, entry: BasisEntry) -> bool
    ensures { IsTrue result ↔ EntryFits customers columns entry }
{
    match entry {
        BasisEntry::Helper(customer) => customer < customers,
        BasisEntry::Column(column) => column < columns,
    }
}

/// Whether no two entries are the same.
fn are_different(basis: &[BasisEntry]) -> bool
    ensures { IsTrue result ↔ AreDifferent basis.now }
{
    for at in 0..basis.len() {
        if stands_in(basis[at], &basis[at + 1..]) {
            return false;
        }
    }
    true
}

/// Whether the entry stands among others.
pub fn stands_in(entry: BasisEntry, others: &[BasisEntry]) -> bool
    ensures { result ≡ list_any (same_entry entry) others.now }
{
    for other in others {
        if is_same(entry, *other) {
            return true;
        }
    }
    false
}

fn is_same(entry: BasisEntry, other: BasisEntry) -> bool
    ensures { result ≡ same_entry entry other }
{
    match (entry, other) {
        (BasisEntry::Helper(own), BasisEntry::Helper(theirs)) => own == theirs,
        (BasisEntry::Column(own), BasisEntry::Column(theirs)) => own == theirs,
        _ => false,
    }
}
