//! The rules of the sections: their labels are closed lists.

ghost use Rattle.std.specs.Prelude.{◌≤◌, IfOk, IfSome, IsSome, length};
ghost use Rattle.std.specs.List.{All};
ghost use Rattle.bound_certificate.specs.Meaning.{priced_section, priced_sections};
ghost use Rattle.bound_certificate.specs.Ranges.{SectionFits};
ghost use Rattle.certificate_check.specs.Firsts.{IsSectionFault, Tells, TellsFirst, ToldAs};
ghost use Rattle.fleet_model.specs.ClosedList.{IsClosed};
ghost use Rattle.instance_reader.specs.Instance.{customer_nodes, most_customers};

use crate::labels::check_labels;
use crate::verdict::Verdict;
use bound_certificate::Section;
use closed_lists::ClosedFault;
use instance_reader::Instance;
use std::alloc::{AllocError, Global};

/// The first broken rule of the sections, if there is one.
pub(crate) fn section_fault(
    alloc: Global,
    inst: &Instance,
    sections: &[Section],
) -> Result<Option<Verdict>, AllocError>
    requires few { length (customer_nodes inst.now) ≤ most_customers }
    requires fits { All (SectionFits inst.now) sections.now }
    ensures { IfOk result (TellsFirst (IsClosed inst.now) (IsSectionFault inst.now)
        (priced_sections sections.now)) }
{
    for (number, section) in sections.iter().enumerate() {
        if let Some(fault) = fault_in(alloc, inst, number, section)? {
            return Ok(Some(fault));
        }
    }
    Ok(None)
}

/// The first broken rule of the section with a number, if there is one.
fn fault_in(
    alloc: Global,
    inst: &Instance,
    number: usize,
    section: &Section,
) -> Result<Option<Verdict>, AllocError>
    requires few { length (customer_nodes inst.now) ≤ most_customers }
    requires fits { SectionFits inst.now section.now }
    ensures { IfOk result (Tells (IsClosed inst.now) (IsSectionFault inst.now) number
        (priced_section section.now)) }
{
    let prices = section.prices.as_slice();
    let labels = section.labels.as_slice();
    match check_labels(alloc, inst, &section.pairs, section.weight, prices, labels) {
        Ok(()) => Ok(None),
        Err(fault) => told(number, fault),
    }
}

/// The verdict on a section with a broken rule.
fn told(number: usize, fault: ClosedFault) -> Result<Option<Verdict>, AllocError>
    ensures told { IfOk result (λ verdict. IfSome verdict (ToldAs number fault)) }
    ensures some { IfOk result IsSome }
{
    match fault {
        ClosedFault::Start => Ok(Some(Verdict::Start { section: number })),
        ClosedFault::Step { label, node } => Ok(Some(Verdict::Step {
            section: number,
            label,
            node,
        })),
        ClosedFault::End { label } => Ok(Some(Verdict::End {
            section: number,
            label,
        })),
        ClosedFault::Memory => Err(AllocError),
    }
}
