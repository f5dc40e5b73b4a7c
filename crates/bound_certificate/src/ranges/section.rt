//! Whether a section is in its ranges.

ghost use Rattle.std.specs.Prelude.{◌↔◌, ◌≤◌, IsTrue, length};
ghost use Rattle.instance_reader.specs.Instance.{customer_nodes, most_customers};
ghost use Rattle.bound_certificate.specs.Ranges.{SectionFits};

use crate::certificate::Section;
use certificate_parts::{GREATEST_WEIGHT, are_prices, labels_fit};
use instance_reader::Instance;

/// Whether a section is in its ranges.
pub(crate) fn section_fits(inst: &Instance, section: &Section) -> bool
    requires { length (customer_nodes inst.now) ≤ most_customers }
    ensures { IsTrue result ↔ SectionFits inst.now section.now }
{
    let customers = inst.customers().len();
    section.weight <= GREATEST_WEIGHT
        && section.prices.len() == customers
        && are_prices(section.prices.as_slice())
        && section.pairs.customers() == customers
        && labels_fit(inst, section.labels.as_slice())
}
