//! The rules of the root.

ghost use Rattle.std.specs.Prelude.{◌≤◌, IfOk, length};
ghost use Rattle.bound_certificate.specs.Meaning.{priced_section};
ghost use Rattle.bound_certificate.specs.Ranges.{RootFits, SectionFits, customer_count};
ghost use Rattle.certificate_check.specs.Bounds.{TellsRoot};
ghost use Rattle.instance_reader.specs.Instance.{customer_nodes, most_customers};

use crate::bound::bound_of;
use crate::shares::is_exact;
use crate::wide::is_wide;
use bound_certificate::{Root, Section};
use customer_sets::Pairs;
use instance_reader::Instance;
use std::alloc::{AllocError, Global};

/// Whether section 0 forbids no pair, and the root shows what it says of it.
pub(crate) fn root_holds(
    alloc: Global,
    inst: &Instance,
    section: &Section,
    root: &Root,
) -> Result<bool, AllocError>
    requires few { length (customer_nodes inst.now) ≤ most_customers }
    requires fits { SectionFits inst.now section.now }
    requires root { RootFits (customer_count inst.now) root.now }
    ensures { IfOk result (TellsRoot inst.now (priced_section section.now) root.now) }
{
    if !section.pairs.within(&Pairs::new(inst.customers().len())) {
        return Ok(false);
    }
    match root {
        Root::None => { Ok(bound_of(section.weight, section.prices.as_slice()).is_none()) }
        Root::Exact { over, shares } => { is_exact(alloc, inst, section, *over, shares.as_slice()) }
        Root::Wide { columns, basis } => {
            is_wide(alloc, inst, columns.as_slice(), basis.as_slice())
        }
    }
}
