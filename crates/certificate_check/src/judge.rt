//! The judge of certificates.

ghost use Rattle.std.specs.Prelude.{◌≡◌, ◌≤◌, IfOk, length};
ghost use Rattle.bound_certificate.specs.Ranges.{Fits};
ghost use Rattle.certificate_check.specs.Truth.{IsTrueCertificate};
ghost use Rattle.certificate_check.specs.Verdicts.{IsVerdict};
ghost use Rattle.certificate_check.specs.declared.verdict.Verdict.TheVariants.{Accepted};
ghost use Rattle.instance_reader.specs.Instance.{customer_nodes, most_customers};

use crate::leaves::leaf_fault;
use crate::root::root_holds;
use crate::sections::section_fault;
use crate::verdict::Verdict;
use bound_certificate::Certificate;
use instance_reader::Instance;
use std::alloc::{AllocError, Global};

/// The verdict on a certificate: that it is accepted, or the first rule that it breaks. The only
/// `Err` is want of memory.
///
/// The rules, each of a section tried over all its labels before the next:
///
/// 1. Some label of the section covers the start.
/// 2. Each step from a label to a customer or a station leads to a state that some label covers.
/// 3. No step home takes, times the weight, less than the price sum of the label's set.
/// 4. The section that a leaf names forbids no pair that the leaf allows. At a split one child
///    forbids its pair, and the other forbids what requiring the pair forbids.
/// 5. Its bound is not below that of the certificate. The bound of a section is its price sum over
///    its weight, rounded up; where the weight is 0 it is 'no plan' if the price sum is above 0,
///    and else 0. 'No plan' is below no bound, and is what each leaf has to have where the
///    certificate has no bound.
/// 6. Section 0 forbids no pair, and the root holds. `None`: the bound of section 0 is 'no plan'.
///    `Exact`: the plan of each share is feasible from full, serves customers alone, one at least
///    and each once; the shares of each customer add up to `over`; and their cost over `over` is
///    the price sum of section 0 over its weight, which is not 0. `Wide`: the columns are such
///    plans, and the basis over them is past the caps of 2^40 and 2^84.
///
/// Where it is accepted, whoever wrote the certificate, every fleet plan in any fraction of a unit
/// of charge costs at least its bound, and there is none where it has no bound. No fractional cover
/// costs less than the price sum of section 0 over its weight, in any fraction of a unit; where the
/// root is `Exact`, its shares are one that costs just that, and where it is `None`, there is none.
///
/// Beside what [`closed_lists::check_closed`] takes for one section at a time, a tree takes about
/// 2,100 bytes for each of its subtrees that are open at once, and an exact or a wide root takes a
/// set and a time for each of its routes.
pub fn check_certificate(
    alloc: Global,
    inst: &Instance,
    cert: &Certificate,
) -> Result<Verdict, AllocError>
    requires few { length (customer_nodes inst.now) ≤ most_customers }
    requires fits { Fits inst.now cert.now }
    ensures verdict { IfOk result (IsVerdict inst.now cert.now) }
    ensures shows { IfOk result (λ v. v ≡ Accepted → IsTrueCertificate inst.now cert.now) }
{
    // That the instance's network is one is told by its calls.
    let _nodes = inst.nodes();
    verdict_on(alloc, inst, cert)
}

/// That a certificate is accepted, or the first rule that it breaks.
fn verdict_on(alloc: Global, inst: &Instance, cert: &Certificate) -> Result<Verdict, AllocError>
    requires few { length (customer_nodes inst.now) ≤ most_customers }
    requires fits { Fits inst.now cert.now }
    ensures { IfOk result (IsVerdict inst.now cert.now) }
{
    let sections = cert.sections.as_slice();
    if let Some(fault) = section_fault(alloc, inst, sections)? {
        return Ok(fault);
    }
    if let Some(fault) = leaf_fault(alloc, inst, cert)? {
        return Ok(fault);
    }
    if root_holds(alloc, inst, &sections[0], &cert.root)? {
        Ok(Verdict::Accepted)
    } else {
        Ok(Verdict::Root)
    }
}
