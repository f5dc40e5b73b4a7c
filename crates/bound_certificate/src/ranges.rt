//! Whether a certificate is in the ranges of an instance. No call here takes memory.

ghost use Rattle.std.specs.Prelude.{◌↔◌, ◌≤◌, IsTrue, length};
ghost use Rattle.std.specs.List.{All};
ghost use Rattle.instance_reader.specs.Instance.{customer_nodes, most_customers};
ghost use Rattle.bound_certificate.specs.Ranges.{Fits, SectionFits};

mod root;
mod section;
mod tree;

use crate::certificate::{Certificate, Section};
use certificate_parts::bound_fits;
use instance_reader::Instance;
use root::root_fits;
use section::section_fits;
pub(crate) use tree::open_behind;
use tree::{is_whole_tree, lines_fit};

impl Certificate {
    /// Whether the certificate is in the ranges of an instance of at most 128 customers, and its
    /// tree is one whole tree in preorder. It takes no memory.
    ///
    /// The bound is at most 2^96. `over` and shares are from 1 to 2^40, weights at most 2^40,
    /// prices from -2^84 to 2^84. Each section has one price for each customer, and its pairs are
    /// made for as many customers. There is at least one section. A label is at a node of the
    /// instance, its last node is 0 or a customer, its set holds customers, its levels are at most
    /// a full battery and its times at most the scaled limit. A split is on two different
    /// customers, a leaf names a section. A basis has as many entries as there are customers, no
    /// two of them the same, each a customer's helper or a listed column. Routes have a stop, and
    /// numbers that may stand in the text of a plan.
    pub fn fits(&self, inst: &Instance) -> bool
        requires { length (customer_nodes inst.now) ≤ most_customers }
        ensures { IsTrue result ↔ Fits inst.now self.now }
    {
        let customers = inst.customers().len();
        bound_fits(self.bound)
            && root_fits(customers, &self.root)
            && !self.sections.is_empty()
            && sections_fit(inst, self.sections.as_slice())
            && lines_fit(customers, self.sections.len(), self.tree.as_slice())
            && is_whole_tree(self.tree.as_slice())
    }
}

/// Whether each section is in its ranges.
fn sections_fit(inst: &Instance, sections: &[Section]) -> bool
    requires { length (customer_nodes inst.now) ≤ most_customers }
    ensures { IsTrue result ↔ All (SectionFits inst.now) sections.now }
{
    for section in sections {
        if !section_fits(inst, section) {
            return false;
        }
    }
    true
}
