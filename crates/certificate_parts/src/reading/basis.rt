//! Reading the basis of a wide root.

ghost use Rattle.std.specs.Prelude.{◌≡◌, ◌≢◌, ◌<◌, Err, IfErr, IfOk, Ok, Some, false, true, map, List};
ghost use Rattle.std.specs.List.{All, list_any};
ghost use Rattle.certificate_parts.specs.Refusals.{or_refused};
ghost use Rattle.certificate_parts.specs.Ranges.{customer_count, EntryFits, same_entry};
ghost use Rattle.certificate_parts.specs.Reading.{customer_at, basis_at, entries_at, entry_at, entry_behind};
ghost use Rattle.certificate_parts.specs.declared.cert_text.CertText.TheVariants.{Memory};
ghost use Rattle.ev_text.specs.declared.TextFault.TheVariants.{TooLarge};
ghost use Rattle.certificate_parts.specs.Written.{written_entry};
ghost use Rattle.certificate_parts.specs.Places.{IsState};
ghost use Rattle.certificate_parts.specs.declared.entry.BasisEntry.{BasisEntry};
ghost use Rattle.certificate_parts.specs.declared.entry.BasisEntry.TheVariants.{Helper};

use crate::cert_text::CertText;
use crate::entry::BasisEntry;
use crate::ranges::stands_in;
use crate::reading::nodes::{GREATEST_NUMBER, customer_at};
use ev_text::{Scan, TextFault};
use instance_reader::Instance;
use std::alloc::Global;

/// The greatest number of a column.
const GREATEST_COLUMN: u128 = u64::MAX as u128;

/// Takes the line of a basis over so many columns.
pub fn take_basis(
    alloc: Global,
    inst: &Instance,
    scan: &mut Scan<'_>,
    columns: usize,
) -> Result<Vec<BasisEntry>, CertText>
    ensures ok { IfOk result (λ basis. basis_at inst.now columns scan.old
        ≡ Ok (map (written_entry inst.now) basis.items, scan.new)) }
    ensures fits { IfOk result (λ basis.
        All (EntryFits (customer_count inst.now) columns) basis.items) }
    ensures fault { IfErr result (λ fault. fault ≢ CertText.Memory →
        or_refused (basis_at inst.now columns scan.old) ≡ Err fault) }
{
    let count = inst.customers().len();
    if count == 0 {
        scan.word(b"basis\n")?;
        return Ok(Vec::new(alloc));
    }
    scan.word(b"basis ")?;
    take_entries(alloc, inst, scan, columns, count)
}

/// Takes so many entries, parted by spaces, and the line feed.
fn take_entries(
    alloc: Global,
    inst: &Instance,
    scan: &mut Scan<'_>,
    columns: usize,
    count: usize,
) -> Result<Vec<BasisEntry>, CertText>
    requires { 0 < count }
    ensures ok { IfOk result (λ basis. entries_at inst.now columns count scan.old
        ≡ Ok (map (written_entry inst.now) basis.items, scan.new)) }
    ensures fits { IfOk result (λ basis.
        All (EntryFits (customer_count inst.now) columns) basis.items) }
    ensures fault { IfErr result (λ fault. fault ≢ CertText.Memory →
        or_refused (entries_at inst.now columns count scan.old) ≡ Err fault) }
{
    let mut basis = Vec::new(alloc);
    let first = take_entry(inst, scan, columns, &basis)?;
    basis.push(first)?;
    for _ in 1..count {
        scan.word(b" ")?;
        let entry = take_entry(inst, scan, columns, &basis)?;
        basis.push(entry)?;
    }
    scan.word(b"\n")?;
    Ok(basis)
}

/// Takes an entry that is none of the earlier ones.
fn take_entry(
    inst: &Instance,
    scan: &mut Scan<'_>,
    columns: usize,
    earlier: &[BasisEntry],
) -> Result<BasisEntry, TextFault>
    requires { All (EntryFits (customer_count inst.now) columns) earlier.now }
    ensures ok { IfOk result (λ entry. (state : List BasisEntry) →
        IsState inst.now earlier.now state → entry_at inst.now columns state scan.old
        ≡ Ok (written_entry inst.now entry, scan.new)) }
    ensures fits { IfOk result (EntryFits (customer_count inst.now) columns) }
    ensures fault { IfErr result (λ fault. (state : List BasisEntry) →
        IsState inst.now earlier.now state →
        entry_at inst.now columns state scan.old ≡ Err fault) }
{
    if scan.take_if(b"h") {
        return take_helper(inst, scan, columns, earlier);
    }
    take_column(inst, scan, columns, earlier)
}

/// Takes the node of a customer whose helper is none of the earlier entries.
fn take_helper(
    inst: &Instance,
    scan: &mut Scan<'_>,
    columns: usize,
    earlier: &[BasisEntry],
) -> Result<BasisEntry, TextFault>
    requires { All (EntryFits (customer_count inst.now) columns) earlier.now }
    ensures ok { IfOk result (λ entry. (state : List BasisEntry) →
        IsState inst.now earlier.now state → entry_behind inst.now columns state true scan.old
        ≡ Ok (written_entry inst.now entry, scan.new)) }
    ensures fits { IfOk result (EntryFits (customer_count inst.now) columns) }
    ensures fault { IfErr result (λ fault. (state : List BasisEntry) →
        IsState inst.now earlier.now state →
        entry_behind inst.now columns state true scan.old ≡ Err fault) }
{
    let at = scan.place();
    let node = scan.whole(GREATEST_NUMBER)? as usize;
    let Some(number) = customer_at(inst, node) else {
        return Err(TextFault::TooLarge { at });
    };
    new_entry(BasisEntry::Helper(number), earlier, at)
}

/// Takes the number of a column that is none of the earlier entries.
fn take_column(
    inst: &Instance,
    scan: &mut Scan<'_>,
    columns: usize,
    earlier: &[BasisEntry],
) -> Result<BasisEntry, TextFault>
    requires { All (EntryFits (customer_count inst.now) columns) earlier.now }
    ensures ok { IfOk result (λ entry. (state : List BasisEntry) →
        IsState inst.now earlier.now state → entry_behind inst.now columns state false scan.old
        ≡ Ok (written_entry inst.now entry, scan.new)) }
    ensures fits { IfOk result (EntryFits (customer_count inst.now) columns) }
    ensures fault { IfErr result (λ fault. (state : List BasisEntry) →
        IsState inst.now earlier.now state →
        entry_behind inst.now columns state false scan.old ≡ Err fault) }
{
    let at = scan.place();
    let number = scan.whole(GREATEST_COLUMN)? as usize;
    if number >= columns {
        return Err(TextFault::TooLarge { at });
    }
    new_entry(BasisEntry::Column(number), earlier, at)
}

/// An entry whose number stands at a place, where it is none of the earlier ones.
fn new_entry(entry: BasisEntry, earlier: &[BasisEntry], at: usize) -> Result<BasisEntry, TextFault>
    ensures ok { IfOk result (λ own. (own ≡ entry) ×
        (list_any (same_entry entry) earlier.now ≡ false)) }
    ensures fault { IfErr result (λ fault. (fault ≡ TooLarge at) ×
        (list_any (same_entry entry) earlier.now ≡ true)) }
{
    if stands_in(entry, earlier) {
        Err(TextFault::TooLarge { at })
    } else {
        Ok(entry)
    }
}
