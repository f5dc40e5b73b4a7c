//! Instances of texts, and pairs of their customers.

ghost use Rattle.std.specs.Prelude.{◌≡◌, ◌≤◌, IfSome, length};
ghost use Rattle.instance_reader.specs.Instance.{customer_nodes, most_customers};

use customer_sets::Pairs;
use instance_reader::{Instance, read_instance};
use std::alloc::Global;

/// The instance of a text, within the limit, where a fleet may have all its customers.
pub(crate) fn instance(alloc: Global, text: &str, limit: u64) -> Option<Instance>
    ensures { IfSome result (λ inst. length (customer_nodes inst) ≤ most_customers) }
{
    let inst = read_instance(alloc, text.as_bytes()).ok()?;
    let inst = inst.with_limit(limit).ok()?;
    if inst.customers().len() > 128 {
        return None;
    }
    Some(inst)
}

/// The pairs of so many customers, where these are forbidden.
pub(crate) fn pairs_without(customers: usize, forbidden: &[(usize, usize)]) -> Option<Pairs>
    requires { customers ≤ 128 }
    ensures { IfSome result (λ pairs. pairs.customers ≡ customers) }
{
    forbidding(Pairs::new(customers), forbidden)
}

/// The pairs, where these are forbidden too.
pub(crate) fn forbidding(before: Pairs, forbidden: &[(usize, usize)]) -> Option<Pairs>
    ensures { IfSome result (λ pairs. pairs.customers ≡ before.customers) }
{
    let mut pairs = before;
    let customers = pairs.customers();
    for (i, j) in forbidden {
        if *i > customers || *j > customers || *i == *j {
            return None;
        }
        pairs.forbid(*i, *j);
    }
    Some(pairs)
}
